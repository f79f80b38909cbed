use crate::{Attested, Spends};
use coin_facts::Hash32;

/// A block: the hash of the block that it follows, its height and Unix seconds, the puzzle hash of the reward coin, its
/// spends, and what is attested to be signed.
#[derive(Debug, Drop)]
pub struct Block {
    pub previous: Hash32,
    pub height: u32,
    pub seconds: u64,
    pub reward_hash: Hash32,
    pub spends: Spends,
    pub attested: Attested,
}
