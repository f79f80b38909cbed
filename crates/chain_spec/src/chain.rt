use coin_facts::{Coin, Hash32};

/// A coin of the chain: where it was made, in height and Unix seconds, and the height at which it was spent.
#[derive(Clone, Copy, Debug, PartialEq, Eq)]
pub struct Record {
    pub coin: Coin,
    pub height: u32,
    pub seconds: u64,
    pub spent: Option<u32>,
}

/// The newest block: its height, its hash and its Unix seconds. At height 0 the hash is the genesis data.
#[derive(Clone, Copy, Debug, PartialEq, Eq)]
pub struct Peak {
    pub height: u32,
    pub hash: Hash32,
    pub seconds: u64,
}

/// What there is of unspent coins of one puzzle hash and amount: none, one of this id, or several.
#[derive(Clone, Copy, Debug, PartialEq, Eq)]
pub enum Unspent {
    None,
    One(Hash32),
    Many,
}
