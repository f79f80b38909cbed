//! What a spend can ask of the list that it stands in, and a spend of the list can make.

use coin_facts::Hash32;

/// What is asked of a list and made in it, told by its hash or id.
#[derive(Clone, Copy, Debug, PartialEq, Eq, Hash)]
pub(crate) enum Want {
    /// An announcement as a coin.
    CoinAnnouncement(Hash32),
    /// An announcement as a puzzle.
    PuzzleAnnouncement(Hash32),
    /// A spend of the coin of this id.
    Spend(Hash32),
    /// A spend of a coin of this puzzle hash.
    Puzzle(Hash32),
    /// The creation of the coin of this id.
    Creation(Hash32),
}
