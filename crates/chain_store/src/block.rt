// A connected block as the store keeps it.
ghost use Rattle.std.specs.Prelude.{◌≡◌, length, IfOk};

use coin_facts::{Coin, Hash32, OutOfMemory};
use std::alloc::Global;
use std::marker::Model;

/// A block's hash and Unix seconds, the ids of the coins that it spends, and the coins that it creates.
#[derive(Debug, Drop)]
pub(crate) struct Block {
    pub(crate) hash: Hash32,
    pub(crate) seconds: u64,
    pub(crate) spent: Vec<Hash32>,
    pub(crate) created: Vec<Coin>,
}

impl Model for Block {
    ghost use Rattle.chain_spec.specs.Chain.{Connected};

    ghost Value = { Connected };

    ghost view = { λ b. record { hash = b.hash; seconds = b.seconds; spent = b.spent.items; created = b.created.items } };
}

impl Block {
    /// A block with copies of these lists.
    pub(crate) fn new(
        alloc: Global,
        hash: Hash32,
        seconds: u64,
        spent: &[Hash32],
        created: &[Coin],
    ) -> Result<Block, OutOfMemory>
        ensures { IfOk result (λ b. b ≡ record { hash = hash; seconds = seconds; spent = spent.now; created = created.now }) }
    {
        Ok(Block {
            hash,
            seconds,
            spent: spent.to_vec(alloc)?,
            created: created.to_vec(alloc)?,
        })
    }

    /// How many coins the block creates.
    pub(crate) fn created_count(&self) -> usize
        ensures { result ≡ length self.now.created }
    {
        self.created.as_slice().len()
    }
}
