use coin_facts::{Bytes, Coin};
use std::marker::Model;

/// A spend: the coin, its puzzle and the solution. Puzzle and solution are each the bytes of exactly one spelled
/// tree, at most 67,108,864 of them.
#[derive(Debug, Drop)]
pub struct Spend {
    pub coin: Coin,
    pub puzzle: Bytes,
    pub solution: Bytes,
}

impl Model for Spend {
    ghost use Rattle.std.specs.Prelude.{IsTrue};
    ghost use Rattle.clvm_spec.specs.Spelled.{is_spelled};
    ghost use Rattle.block_spec.specs.SpendView.{SpendView};

    ghost Value = { SpendView };

    ghost view = { λ s. record { coin = s.coin; puzzle = s.puzzle; solution = s.solution } };

    ghost invariant = { λ s. IsTrue (is_spelled s.puzzle) × IsTrue (is_spelled s.solution) };
}
