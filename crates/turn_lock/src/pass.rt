//! A caller's token of the turn.
ghost use Rattle.std.specs.Prelude.{◌≡◌};

use crate::replays::Replays;
use crate::rule::View;
use atomic_table::Seat;
use std::marker::Model;

/// A caller's token of one turn. It has seen a beginning of the history, which only grows, and shows whether its
/// caller holds the turn. It may go from thread to thread.
#[derive(Drop)]
pub struct Pass<S: Replays> {
    pub(crate) seat: Seat<Option<S>, View<S::Opening, S::Entry>>,
    pub(crate) name: Option<u64>,
}

impl<S: Replays> Model for Pass<S> {
    ghost use Rattle.turn_lock.specs.Hands.{IsInHand, Token};

    ghost Value = { Token S.Opening S.Entry };

    ghost view = { λ pass. record { turn = pass.seat.table_id; view = pass.seat.me.0 } };

    ghost invariant = { λ pass. IsInHand pass.name pass.seat };
}

impl<S: Replays> Pass<S> {
    /// The place of the entry by which this pass entered, under which its entries are made. None where it hasn't entered.
    pub fn name(&self) -> Option<u64>
        ensures { result ≡ self.now.view.name }
    {
        self.name
    }
}
