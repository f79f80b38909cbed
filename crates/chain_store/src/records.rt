// The records of coins, hashed.
ghost use Rattle.std.specs.Prelude.{◌≡◌, ◌+◌, ◌≤◌, ◌<◌, [], ◌∷◌, ◌++◌, map, length, OnOk};
ghost use Rattle.std.specs.Option.{option_copied};
ghost use Rattle.coin_facts.specs.CoinId.{coin_id};
ghost use Rattle.chain_spec.specs.Chain.{made_at, with_block};
ghost use Rattle.chain_spec.specs.Soundness.{HasDistinctIds};
ghost use Rattle.chain_store.specs.RecordsView.{found_in, AreNew};
ghost use Rattle.chain_store.specs.Marks.{marked, without_last};
ghost use Rattle.chain_store.specs.Blocks.{without_block};
ghost use Rattle.chain_store.specs.Unspents.{unspent_among};

use crate::block::Block;
use crate::unspent::with_record;
use chain_spec::{Record, Unspent};
use coin_facts::{Coin, Hash32, OutOfMemory};
use indexmap::IndexMap;
use std::alloc::Global;
use std::marker::Model;

/// Records in the order in which they came. Each is found by its coin's id, and no two have one id.
#[derive(Debug, Drop)]
pub(crate) struct Records {
    by_id: IndexMap<Hash32, Record>,
}

impl Model for Records {
    ghost use Rattle.chain_store.specs.RecordsView.{RecordsView};

    ghost Value = { RecordsView };

    ghost use Rattle.chain_store.specs.RecordsInside.{view_of, IsHeld};

    ghost view = { view_of };

    ghost invariant = { IsHeld };
}

impl Records {
    pub(crate) fn new(alloc: Global) -> Records
        ensures { result.list ≡ [] }
    {
        Records {
            by_id: IndexMap::new(alloc),
        }
    }

    /// The record of the coin with this id, lent.
    pub(crate) fn get(&self, id: &Hash32) -> Option<&Record>
        ensures { option_copied result ≡ found_in self.now.list id.now }
    {
        self.by_id.get(id)
    }

    /// What there is among the unspent coins of this puzzle hash and amount, but for those of the excepted ids.
    pub(crate) fn unspent_of(&self, puzzle_hash: &Hash32, amount: u64, except: &[Hash32]) -> Unspent
        ensures { result ≡ unspent_among puzzle_hash.now amount except.now self.now.list }
    {
        let mut found = Unspent::None;
        for place in 0..self.by_id.len() {
            let (_, record) = self.by_id.get_index(place).unwrap();
            found = with_record(found, record, puzzle_hash, amount, except);
        }
        found
    }

    /// Makes room for so many records more.
    pub(crate) fn reserve(&mut self, more: usize) -> Result<(), OutOfMemory>
        ensures list { self.new.list ≡ self.old.list }
        ensures ok { OnOk result (more ≤ self.new.room) }
        ensures room { self.old.room ≤ self.new.room }
    {
        self.by_id.reserve(more)
    }

    /// Adds the record of a new coin. There has to be room for it.
    pub(crate) fn add(&mut self, height: u32, seconds: u64, coin: Coin)
        requires room { 0 < self.old.room }
        requires new { found_in self.old.list (coin_id coin) ≡ None }
        ensures list { self.new.list ≡ self.old.list ++ made_at height seconds coin ∷ [] }
        ensures room { self.old.room ≤ self.new.room + 1 }
    {
        let record = Record {
            coin,
            height,
            seconds,
            spent: None,
        };
        let _ = self.by_id.insert(coin.id(), record);
    }

    // Marks the coin with this id, where there is one, as spent at a height, or as unspent.
    fn mark(&mut self, id: &Hash32, spent: Option<u32>)
        ensures list { self.new.list ≡ map (marked spent (id.now ∷ [])) self.old.list }
        ensures room { self.old.room ≤ self.new.room }
    {
        let Some(record) = self.by_id.get_mut(id) else {
            return;
        };
        record.spent = spent;
    }

    fn mark_all(&mut self, ids: &[Hash32], spent: Option<u32>)
        ensures list { self.new.list ≡ map (marked spent ids.now) self.old.list }
        ensures room { self.old.room ≤ self.new.room }
    {
        for id in ids {
            self.mark(id, spent);
        }
    }

    fn add_all(&mut self, height: u32, seconds: u64, coins: &[Coin])
        requires room { length coins.now ≤ self.old.room }
        requires new { AreNew self.old.list coins.now }
        ensures list { self.new.list ≡ self.old.list ++ map (made_at height seconds) coins.now }
        ensures room { self.old.room ≤ self.new.room + length coins.now }
    {
        for coin in coins {
            self.add(height, seconds, *coin);
        }
    }

    fn remove_last(&mut self)
        ensures list { self.new.list ≡ without_last 1 self.old.list }
        ensures room { self.old.room ≤ self.new.room }
    {
        self.by_id.pop();
    }

    fn remove_all(&mut self, count: usize)
        ensures list { self.new.list ≡ without_last count self.old.list }
        ensures room { self.old.room ≤ self.new.room }
    {
        let mut left = count;
        while left > 0 {
            self.remove_last();
            left -= 1;
        }
    }

    /// Puts a block on, whose height this is. There has to be room for the coins that it creates.
    pub(crate) fn put_on(&mut self, height: u32, block: &Block)
        requires room { length block.now.created ≤ self.old.room }
        requires new { AreNew self.old.list block.now.created }
        ensures list { self.new.list ≡ with_block height block.now self.old.list }
        ensures room { self.old.room ≤ self.new.room + length block.now.created }
    {
        self.add_all(height, block.seconds, &block.created);
        self.mark_all(&block.spent, Some(height));
    }

    /// Takes a block off. The coins that it spent are unspent again, and the coins that it created are gone.
    pub(crate) fn take_off(&mut self, block: &Block)
        ensures list { self.new.list ≡ without_block block.now self.old.list }
        ensures room { self.old.room ≤ self.new.room }
    {
        self.mark_all(&block.spent, None);
        self.remove_all(block.created.len());
    }
}
