// Several blocks put on the records, or taken off.
ghost use Rattle.std.specs.Prelude.{◌≡◌, ◌+◌, ◌≤◌, ◌<◌, ◌^◌, ◌++◌, reverse, drop, slice_range, length, IfOk, IfSome, OnOk};
ghost use Rattle.std.specs.List.{flat_map, sum_by};
ghost use Rattle.chain_spec.specs.Chain.{touched_by};
ghost use Rattle.chain_store.specs.Blocks.{created_count, with_blocks, without_blocks, moved, AreNewInTurn};

use crate::block::Block;
use crate::records::Records;
use coin_facts::{Hash32, OutOfMemory};
use std::alloc::Global;

/// Puts blocks on, whose heights follow on this one. There has to be room for the coins that they create.
pub(crate) fn put_on_all(records: &mut Records, below: usize, blocks: &[Block])
    requires height { below + length blocks.now < 2 ^ 32 }
    requires room { sum_by created_count blocks.now ≤ records.old.room }
    requires new { AreNewInTurn below records.old.list blocks.now }
    ensures list { records.new.list ≡ with_blocks below blocks.now records.old.list }
{
    for (place, block) in blocks.iter().enumerate() {
        records.put_on((below + place + 1) as u32, block);
    }
}

/// Takes blocks off, the last one first.
pub(crate) fn take_off_all(records: &mut Records, blocks: &[Block])
    ensures list { records.new.list ≡ without_blocks blocks.now records.old.list }
    ensures room { records.old.room ≤ records.new.room }
{
    let mut left = blocks;
    while let Some((last, others)) = left.split_last() {
        records.take_off(last);
        left = others;
    }
}

/// Goes from the records at one height to those at another, by these blocks.
pub(crate) fn move_between(records: &mut Records, blocks: &[Block], from: usize, to: usize)
    requires from { from ≤ length blocks.now }
    requires to { to ≤ length blocks.now }
    requires few { length blocks.now < 2 ^ 32 }
    requires room { sum_by created_count (drop from blocks.now) ≤ records.old.room }
    requires new { from ≤ to → AreNewInTurn from records.old.list (slice_range blocks.now from to) }
    ensures list { records.new.list ≡ moved from to blocks.now records.old.list }
{
    if to < from {
        take_off_all(records, &blocks[to..from]);
    } else {
        put_on_all(records, from, &blocks[from..to]);
    }
}

/// How many coins these blocks create, where a number holds it.
pub(crate) fn created_by(blocks: &[Block]) -> Option<usize>
    ensures { IfSome result (λ count. count ≡ sum_by created_count blocks.now) }
{
    let mut count: usize = 0;
    for block in blocks {
        count = count.checked_add(block.created.len())?;
    }
    Some(count)
}

/// Adds the ids whose records a block makes or alters.
pub(crate) fn add_touched(ids: &mut Vec<Hash32>, block: &Block) -> Result<(), OutOfMemory>
    ensures { OnOk result (ids.new.items ≡ ids.old.items ++ touched_by block.now) }
{
    ids.extend_from_slice(&block.spent)?;
    for coin in &block.created {
        ids.push(coin.id())?;
    }
    Ok(())
}

/// The ids whose records these blocks make or alter, those of the last block first.
pub(crate) fn touched(alloc: Global, blocks: &[Block]) -> Result<Vec<Hash32>, OutOfMemory>
    ensures { IfOk result (λ ids. ids.items ≡ flat_map touched_by (reverse blocks.now)) }
{
    let mut ids = Vec::new(alloc);
    let mut left = blocks;
    while let Some((last, others)) = left.split_last() {
        add_touched(&mut ids, last)?;
        left = others;
    }
    Ok(ids)
}
