use block_spec::Bundle;
use coin_facts::{Bytes, Hash32};

/// A command of a session, with its lane. Seconds are Unix seconds.
#[derive(Debug, Drop)]
pub enum Command {
    /// Admits a bundle to the pool.
    Admit {
        lane: u32,
        bundle: Bundle,
    },
    /// Tells the block that the pool assembles.
    Assemble {
        lane: u32,
        seconds: u64,
        reward_hash: Hash32,
    },
    /// Assembles a block and connects it.
    Farm {
        lane: u32,
        seconds: u64,
        reward_hash: Hash32,
    },
    /// Connects the block that the bytes stand for.
    Block {
        lane: u32,
        bytes: Bytes,
    },
    /// Drops the last blocks.
    Rollback {
        lane: u32,
        blocks: u32,
    },
    /// Tells a coin.
    Coin {
        lane: u32,
        id: Hash32,
    },
    /// Tells the ids of the pool's bundles.
    List {
        lane: u32,
    },
    /// Tells the peak.
    Peak {
        lane: u32,
    },
}
