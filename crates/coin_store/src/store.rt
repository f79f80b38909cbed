ghost use Rattle.std.specs.Prelude.{◌≡◌, ◌↔◌, [], ◌∷◌, ◌++◌, IsTrue, OnOk, OnErr};
ghost use Rattle.std.specs.Option.{option_copied};
ghost use Rattle.coin_facts.specs.CoinId.{coin_id};
ghost use Rattle.chain_spec.specs.Chain.{look_up, peak_of, is_in_chain, ledger_of};
ghost use Rattle.coin_store.specs.DistinctIds.{HasDistinctIds};

use crate::Coins;
use chain_spec::{Peak, Record};
use coin_facts::{Coin, Hash32, OutOfMemory};
use indexmap::IndexMap;
use std::alloc::Global;
use std::marker::Model;

/// Why a start coin isn't added: a coin with its id is there, or there is no memory.
#[derive(Clone, Copy, Debug, PartialEq, Eq)]
pub enum StartFault {
    Exists,
    OutOfMemory,
}

/// The genesis data of a chain, its seconds, and its coins, whose ids are distinct. Each record is found by its id.
#[derive(Debug, Drop)]
pub struct Store {
    genesis: Hash32,
    seconds: u64,
    coins: Vec<Coin>,
    records: IndexMap<Hash32, Record>,
}

impl Model for Store {
    ghost use Rattle.chain_spec.specs.Chain.{Chain};

    ghost Value = { Chain };

    ghost use Rattle.coin_store.specs.Inside.{chain_of, IsHeld};

    ghost view = { chain_of };

    ghost invariant = { IsHeld };
}

impl Store {
    /// A chain with this genesis data, in Unix seconds, and no coin.
    pub fn new(alloc: Global, genesis: Hash32, seconds: u64) -> Store
        ensures { result ≡ record { genesis = genesis; seconds = seconds; coins = []; blocks = [] } }
    {
        Store {
            genesis,
            seconds,
            coins: Vec::new(alloc),
            records: IndexMap::new(alloc),
        }
    }

    /// Adds a coin with height 0 and the chain's seconds. `Exists` comes exactly where a coin with its id is there.
    /// After a fault the store stands as before.
    pub fn start_coin(&mut self, _alloc: Global, coin: Coin) -> Result<(), StartFault>
        ensures ok { OnOk result (self.new ≡ record self.old { coins = self.old.coins ++ coin ∷ [] }) }
        ensures exists { (result ≡ Err StartFault.Exists) ↔ IsTrue (is_in_chain (ledger_of self.old) (coin_id coin)) }
        ensures err { OnErr result (self.new ≡ self.old) }
    {
        let id = coin.id();
        if self.look_up(&id).is_some() {
            return Err(StartFault::Exists);
        }
        self.add(id, coin).map_err(|_| StartFault::OutOfMemory)
    }

    // Adds a coin with a new id. The room for its place in the order is taken before the record goes in, so that
    // nothing is to be taken back.
    fn add(&mut self, id: Hash32, coin: Coin) -> Result<(), OutOfMemory>
        requires id { id ≡ coin_id coin }
        requires new { look_up (ledger_of self.old) id ≡ None }
        ensures ok { OnOk result (self.new ≡ record self.old { coins = self.old.coins ++ coin ∷ [] }) }
        ensures err { OnErr result (self.new ≡ self.old) }
    {
        self.coins.reserve(1)?;
        let record = Record {
            coin,
            height: 0,
            seconds: self.seconds,
            spent: None,
        };
        self.records.insert(id, record)?;
        self.coins.push(coin)?;
        Ok(())
    }

    /// The coins, lent, in the order in which they were added.
    pub fn start_coins(&self) -> &[Coin]
        ensures value { result.now ≡ self.now.coins }
        ensures distinct { HasDistinctIds self.now }
    {
        self.coins.as_slice()
    }

    /// The genesis data.
    pub fn genesis(&self) -> Hash32
        ensures { result ≡ self.now.genesis }
    {
        self.genesis
    }

    /// The newest block. There is none yet, so the height is 0 and the hash is the genesis data.
    pub fn peak(&self) -> Peak
        ensures { result ≡ peak_of self.now }
    {
        Peak {
            height: 0,
            hash: self.genesis,
            seconds: self.seconds,
        }
    }

    /// The record of the coin with this id, lent, None exactly where there is none.
    pub fn look_up(&self, id: &Hash32) -> Option<&Record>
        ensures { option_copied result ≡ look_up (ledger_of self.now) id.now }
    {
        self.records.get(id)
    }
}

impl Coins for Store {
    ghost seen = { ledger_of };

    fn genesis(&self) -> Hash32 {
        self.genesis
    }

    fn peak(&self) -> Peak {
        let _ = &self.coins;
        Store::peak(self)
    }

    fn look_up(&self, id: &Hash32) -> Option<&Record> {
        Store::look_up(self, id)
    }
}

#[cfg(test)]
mod tests;
