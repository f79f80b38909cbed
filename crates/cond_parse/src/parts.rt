//! The operands of messages: mode, text, and what the mode names of the other side.

ghost use Rattle.std.specs.Prelude.{◌≡◌, ◌<◌};
ghost use Rattle.coin_facts.specs.Atoms.{hash_of, amount_of};
ghost use Rattle.cond_spec.specs.Parties.{sender_side, receiver_side, is_by_id, names, part, party, message};
ghost use Rattle.cond_parse.specs.Readings.{Takes, ReadsOne, ReadsMessage};
ghost use Rattle.clvm_tree.specs.Nodes.{tree_at, IsKnown};

use crate::fault::Flaw;
use crate::operands::{amount, hash, mode, text};
use clvm_tree::{Node, Trees};
use coin_facts::{Bytes, Hash32};
use cond_spec::Party;
use std::alloc::Global;

/// The side that names its coin by the id alone.
const BY_ID: u8 = 7;

/// The bits of a side that name a part of its coin.
const PARENT: u8 = 4;

const PUZZLE_HASH: u8 = 2;

const AMOUNT: u8 = 1;

// Whether a side names the part of this bit.
fn names(bit: u8, side: u8) -> bool
    requires { 0 < bit }
    ensures { result ≡ names bit side }
{
    side != BY_ID && side / bit % 2 == 1
}

// An id where it alone is named.
fn id_part(trees: &Trees, side: u8, operands: &mut Node) -> Result<Option<Hash32>, Flaw>
    requires { IsKnown trees.now operands.old.0 }
    ensures known { IsKnown trees.now operands.new.0 }
    ensures takes { Takes (part (is_by_id side) hash_of (tree_at trees.now operands.old.0)) result (tree_at trees.now operands.new.0) }
{
    let is_by_id = side == BY_ID;
    if is_by_id {
        let id = hash(trees, operands)?;
        Ok(Some(id))
    } else {
        Ok(None)
    }
}

// A hash where the side names it.
fn hash_part(trees: &Trees, bit: u8, side: u8, operands: &mut Node) -> Result<Option<Hash32>, Flaw>
    requires bit { 0 < bit }
    requires known { IsKnown trees.now operands.old.0 }
    ensures known { IsKnown trees.now operands.new.0 }
    ensures takes { Takes (part (names bit side) hash_of (tree_at trees.now operands.old.0)) result (tree_at trees.now operands.new.0) }
{
    let is_named = names(bit, side);
    if is_named {
        let hash = hash(trees, operands)?;
        Ok(Some(hash))
    } else {
        Ok(None)
    }
}

// The amount where the side names it.
fn amount_part(trees: &Trees, side: u8, operands: &mut Node) -> Result<Option<u64>, Flaw>
    requires { IsKnown trees.now operands.old.0 }
    ensures known { IsKnown trees.now operands.new.0 }
    ensures takes { Takes (part (names AMOUNT side) amount_of (tree_at trees.now operands.old.0)) result (tree_at trees.now operands.new.0) }
{
    let is_named = names(AMOUNT, side);
    if is_named {
        let amount = amount(trees, operands)?;
        Ok(Some(amount))
    } else {
        Ok(None)
    }
}

// What operands tell of a side.
fn party(trees: &Trees, side: u8, operands: Node) -> Result<Party, Flaw>
    requires { IsKnown trees.now operands.0 }
    ensures { ReadsOne (party side (tree_at trees.now operands.0)) result }
{
    let mut operands = operands;
    let id = id_part(trees, side, &mut operands)?;
    let parent = hash_part(trees, PARENT, side, &mut operands)?;
    let puzzle_hash = hash_part(trees, PUZZLE_HASH, side, &mut operands)?;
    let amount = amount_part(trees, side, &mut operands)?;
    Ok(Party {
        id,
        parent,
        puzzle_hash,
        amount,
    })
}

/// Mode, text and receiver of a message that is sent.
pub(crate) fn message_to(
    alloc: Global,
    trees: &Trees,
    operands: Node,
) -> Result<(u8, Bytes, Party), Flaw>
    requires { IsKnown trees.now operands.0 }
    ensures { ReadsMessage (λ make. message receiver_side make (tree_at trees.now operands.0)) result }
{
    let mut operands = operands;
    let mode = mode(trees, &mut operands)?;
    let text = text(alloc, trees, &mut operands)?;
    let receiver = party(trees, mode % 8, operands)?;
    Ok((mode, text, receiver))
}

/// Mode, text and sender of a message that is received.
pub(crate) fn message_from(
    alloc: Global,
    trees: &Trees,
    operands: Node,
) -> Result<(u8, Bytes, Party), Flaw>
    requires { IsKnown trees.now operands.0 }
    ensures { ReadsMessage (λ make. message sender_side make (tree_at trees.now operands.0)) result }
{
    let mut operands = operands;
    let mode = mode(trees, &mut operands)?;
    let text = text(alloc, trees, &mut operands)?;
    let sender = party(trees, mode / 8, operands)?;
    Ok((mode, text, sender))
}
