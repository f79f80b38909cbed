use coin_facts::{Bytes, Hash32, Ids};

/// The reply to a command. Fees and amounts are in mojos, seconds are Unix seconds.
#[derive(Debug, Drop)]
pub enum Reply {
    /// A bundle was admitted, and replaces these.
    Admitted {
        id: Hash32,
        fee: u128,
        cost: u64,
        replaced: Ids,
    },
    /// The pool assembles this block.
    Block {
        fee: u128,
        cost: u64,
        bytes: Bytes,
    },
    /// This block was assembled and connected.
    Farmed {
        height: u32,
        hash: Hash32,
        fee: u128,
        cost: u64,
        bytes: Bytes,
    },
    /// The peak is this.
    Peak {
        height: u32,
        hash: Hash32,
        seconds: u64,
    },
    /// There is no such coin.
    NoCoin,
    /// The coin has this record.
    Coin {
        parent: Hash32,
        puzzle_hash: Hash32,
        amount: u64,
        height: u32,
        seconds: u64,
        spent: Option<u32>,
    },
    /// The pool has these bundles.
    Pool {
        ids: Ids,
    },
    /// This rule is broken, at this place.
    Refused {
        rule: u8,
        place: u32,
    },
    /// Memory was wanting, and nothing changed.
    Memory,
}
