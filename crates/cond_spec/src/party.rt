use coin_facts::Hash32;

/// What is told of the one side of a message: its coin's id alone, or those of parent, puzzle hash and amount that the
/// mode names. Source: CHIP-0025.
#[derive(Clone, Copy, Debug, PartialEq, Eq)]
pub struct Party {
    pub id: Option<Hash32>,
    pub parent: Option<Hash32>,
    pub puzzle_hash: Option<Hash32>,
    pub amount: Option<u64>,
}
