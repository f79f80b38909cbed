ghost use Rattle.std.specs.Prelude.{◌≡◌, ◌↔◌, [], Some, None, IsTrue, IfOk, OnOk, OnErr, ◌≤◌, ◌∷◌, false, length, option_map};
ghost use Rattle.std.specs.Option.{unwrap_or};
ghost use Rattle.coin_facts.specs.CoinId.{coin_id};
ghost use Rattle.chain_spec.specs.Chain.{peak_of, is_in_chain, ledger_of};
ghost use Rattle.chain_spec.specs.Looks.{unspent_of};
ghost use Rattle.chain_spec.specs.Soundness.{HasDistinctIds, CanConnect};
ghost use Rattle.chain_spec.specs.StoreViews.{started, connected, undone, reverted};
ghost use Rattle.chain_spec.specs.ChangeLaws.{changed_since};
ghost use Rattle.chain_store.specs.Blocks.{block_with, back_to};

use crate::block::Block;
use crate::blocks::{add_touched, created_by, move_between, take_off_all, touched};
use crate::records::Records;
use chain_spec::{Peak, Record, Unspent};
use coin_facts::{Coin, Hash32, OutOfMemory};
use coin_store::{Coins, StartFault};
use std::alloc::{AllocError, Global};
use std::marker::Model;

// How many blocks and how many changes there were before the last connect or undo.
#[derive(Clone, Copy, Debug)]
struct Before {
    height: usize,
    changes: usize,
}

/// A chain of coins that grows by blocks and goes back by them, with the ids whose records changed.
#[derive(Debug, Drop)]
pub struct Store {
    genesis: Hash32,
    seconds: u64,
    coins: Vec<Coin>,
    // The blocks of the chain, and behind them those that the last call took off.
    blocks: Vec<Block>,
    height: usize,
    records: Records,
    changes: Vec<Hash32>,
    before: Option<Before>,
}

impl Model for Store {
    ghost use Rattle.chain_spec.specs.StoreViews.{StoreView};

    ghost Value = { StoreView };

    ghost use Rattle.chain_store.specs.Inside.{view_of, IsHeld};

    ghost view = { view_of };

    ghost invariant = { IsHeld };
}

impl Store {
    /// A chain with this genesis data, in Unix seconds, and no coin.
    pub fn new(alloc: Global, genesis: Hash32, seconds: u64) -> Store
        ensures chain { result.chain ≡ record { genesis = genesis; seconds = seconds; coins = []; blocks = [] } }
        ensures changes { result.changes ≡ [] }
        ensures before { result.before ≡ None }
    {
        Store {
            genesis,
            seconds,
            coins: Vec::new(alloc),
            blocks: Vec::new(alloc),
            height: 0,
            records: Records::new(alloc),
            changes: Vec::new(alloc),
            before: None,
        }
    }

    /// Adds a coin with height 0 and the chain's seconds, as long as there is no block. `Exists` comes exactly where a
    /// coin with its id is there. After a fault the store stands as before.
    pub fn start_coin(&mut self, _alloc: Global, coin: Coin) -> Result<(), StartFault>
        requires first { self.old.chain.blocks ≡ [] }
        ensures ok { OnOk result (self.new ≡ started coin self.old) }
        ensures exists { (result ≡ Err StartFault.Exists) ↔ IsTrue (is_in_chain (ledger_of self.old.chain) (coin_id coin)) }
        ensures err { OnErr result (self.new ≡ self.old) }
    {
        if self.look_up(&coin.id()).is_some() {
            return Err(StartFault::Exists);
        }
        self.add(coin).map_err(|_| StartFault::OutOfMemory)
    }

    // Adds a coin with a new id. All room is taken first.
    fn add(&mut self, coin: Coin) -> Result<(), OutOfMemory>
        requires first { self.old.chain.blocks ≡ [] }
        requires new { is_in_chain (ledger_of self.old.chain) (coin_id coin) ≡ false }
        ensures ok { OnOk result (self.new ≡ started coin self.old) }
        ensures err { OnErr result (self.new ≡ self.old) }
    {
        self.records.reserve(1)?;
        self.coins.reserve(1)?;
        self.blocks.clear();
        self.before = None;
        self.records.add(0, self.seconds, coin);
        let _ = self.coins.push(coin);
        Ok(())
    }

    /// The coins that the chain begins with, lent, in the order in which they were added.
    pub fn start_coins(&self) -> &[Coin]
        ensures value { result.now ≡ self.now.chain.coins }
        ensures distinct { HasDistinctIds self.now.chain.coins }
    {
        self.coins.as_slice()
    }

    /// Connects a block, which spends the coins with these ids and creates these coins. The ids are distinct, and each
    /// is that of an unspent coin or of a created one; the created coins have distinct new ids; the height is below
    /// 2^32 - 1. Without memory the store stands as before.
    pub fn connect(
        &mut self,
        alloc: Global,
        hash: Hash32,
        seconds: u64,
        spent: &[Hash32],
        created: &[Coin],
    ) -> Result<(), OutOfMemory>
        requires { CanConnect (ledger_of self.old.chain) (block_with hash seconds spent.now created.now) }
        ensures ok { OnOk result (self.new ≡ connected (block_with hash seconds spent.now created.now) self.old) }
        ensures err { OnErr result (self.new ≡ self.old) }
    {
        let block = Block::new(alloc, hash, seconds, spent, created)?;
        self.enter(alloc, block)
    }

    // Connects a block. All room is taken first.
    fn enter(&mut self, alloc: Global, block: Block) -> Result<(), OutOfMemory>
        requires { CanConnect (ledger_of self.old.chain) block }
        ensures ok { OnOk result (self.new ≡ connected block self.old) }
        ensures err { OnErr result (self.new ≡ self.old) }
    {
        let mut ids = Vec::new(alloc);
        add_touched(&mut ids, &block)?;
        self.changes.reserve(ids.len())?;
        self.blocks.reserve(1)?;
        self.records.reserve(block.created_count())?;
        self.before = Some(Before {
            height: self.height,
            changes: self.changes.len(),
        });
        self.blocks.truncate(self.height);
        self.height += 1;
        self.records.put_on(self.height as u32, &block);
        let _ = self.blocks.push(block);
        let _ = self.changes.append(&mut ids);
        Ok(())
    }

    /// Takes the last blocks off, and answers the peak that is left; None exactly where there are fewer. Without memory
    /// the store stands as before.
    pub fn undo(&mut self, alloc: Global, blocks: u32) -> Result<Option<Peak>, OutOfMemory>
        ensures peak { IfOk result (λ peak. peak ≡ option_map (λ view. peak_of view.chain) (undone blocks self.old)) }
        ensures ok { OnOk result (self.new ≡ unwrap_or (undone blocks self.old) self.old) }
        ensures err { OnErr result (self.new ≡ self.old) }
    {
        let Some(kept) = self.height.checked_sub(blocks as usize) else {
            return Ok(None);
        };
        self.go_back(alloc, kept)?;
        Ok(Some(self.peak()))
    }

    // Goes back to this height. All room is taken first.
    fn go_back(&mut self, alloc: Global, kept: usize) -> Result<(), OutOfMemory>
        requires { kept ≤ length self.old.chain.blocks }
        ensures ok { OnOk result (self.new ≡ back_to kept self.old) }
        ensures err { OnErr result (self.new ≡ self.old) }
    {
        let undone = &self.blocks[kept..self.height];
        let mut ids = touched(alloc, undone)?;
        let room = created_by(undone).ok_or(AllocError)?;
        self.changes.reserve(ids.len())?;
        self.records.reserve(room)?;
        take_off_all(&mut self.records, &self.blocks[kept..self.height]);
        self.before = Some(Before {
            height: self.height,
            changes: self.changes.len(),
        });
        self.blocks.truncate(self.height);
        self.height = kept;
        let _ = self.changes.append(&mut ids);
        Ok(())
    }

    /// Takes the last connect or undo back, with the changes that it added, where no other changing call came since.
    pub fn revert(&mut self)
        ensures { self.new ≡ reverted self.old }
    {
        let Some(before) = self.before else {
            return;
        };
        move_between(&mut self.records, &self.blocks, self.height, before.height);
        self.height = before.height;
        self.blocks.truncate(before.height);
        self.changes.truncate(before.changes);
        self.before = None;
    }

    /// What there is of unspent coins of this puzzle hash and amount, but for those of the excepted ids.
    pub fn unspent_of(&self, puzzle_hash: &Hash32, amount: u64, except: &[Hash32]) -> Unspent
        ensures { result ≡ unspent_of (ledger_of self.now.chain) puzzle_hash.now amount except.now }
    {
        self.records.unspent_of(puzzle_hash, amount, except)
    }

    /// How many changes there were.
    pub fn generation(&self) -> u64
        ensures { result ≡ length self.now.changes }
    {
        self.changes.len() as u64
    }

    /// The changes since there were so many, lent.
    pub fn changed_since(&self, generation: u64) -> &[Hash32]
        ensures { result.now ≡ changed_since generation self.now }
    {
        let changes = self.changes.as_slice();
        &changes[changes.len().min(generation as usize)..]
    }
}

impl Coins for Store {
    ghost seen = { λ view. ledger_of view.chain };

    fn genesis(&self) -> Hash32 {
        self.genesis
    }

    fn peak(&self) -> Peak {
        if self.height == 0 {
            return Peak {
                height: 0,
                hash: self.genesis,
                seconds: self.seconds,
            };
        }
        let last = &self.blocks[self.height - 1];
        Peak {
            height: self.height as u32,
            hash: last.hash,
            seconds: last.seconds,
        }
    }

    fn look_up(&self, id: &Hash32) -> Option<&Record> {
        self.records.get(id)
    }
}

#[cfg(test)]
mod tests;
