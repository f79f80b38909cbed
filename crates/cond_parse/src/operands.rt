//! The operands of a condition, read from the front. `operands` is what is left of them.

ghost use Rattle.std.specs.Prelude.{◌≡◌, Some, None, IfOk, IfErr, OnErr};
ghost use Rattle.coin_facts.specs.Atoms.{hash_of, key_of, amount_of};
ghost use Rattle.cond_spec.specs.Operands.{text_of, moment_of, mode_of, operand, one, two};
ghost use Rattle.cond_parse.specs.Readings.{first_atom, Takes, ReadsOne, ReadsTwo};
ghost use Rattle.clvm_tree.specs.Nodes.{tree_at, IsKnown};

use crate::fault::Flaw;
use crate::forms;
use clvm_tree::{Node, Trees};
use coin_facts::{Bytes, Hash32, KEY_BYTES};
use cond_spec::limits::MOST_TEXT;
use std::alloc::Global;

// The bytes of the next operand, which is an atom.
fn atom<'a>(trees: &'a Trees, operands: &mut Node) -> Result<&'a [u8], Flaw>
    requires { IsKnown trees.now operands.old.0 }
    ensures known { IsKnown trees.now operands.new.0 }
    ensures ok { IfOk result (λ bytes. first_atom (tree_at trees.now operands.old.0) ≡ Some (bytes.now, tree_at trees.now operands.new.0)) }
    ensures none { OnErr result (first_atom (tree_at trees.now operands.old.0) ≡ None) }
    ensures err { IfErr result (λ flaw. flaw ≡ Flaw.Malformed) }
{
    let Some((first, rest)) = trees.as_pair(*operands) else {
        return Err(Flaw::Malformed);
    };
    let Some(bytes) = trees.bytes_of(first) else {
        return Err(Flaw::Malformed);
    };
    *operands = rest;
    Ok(bytes)
}

/// A hash.
pub(crate) fn hash(trees: &Trees, operands: &mut Node) -> Result<Hash32, Flaw>
    requires { IsKnown trees.now operands.old.0 }
    ensures known { IsKnown trees.now operands.new.0 }
    ensures takes { Takes (operand hash_of (tree_at trees.now operands.old.0)) result (tree_at trees.now operands.new.0) }
{
    let bytes = atom(trees, operands)?;
    match forms::hash_of(bytes) {
        Some(hash) => Ok(hash),
        None => Err(Flaw::Malformed),
    }
}

/// An amount.
pub(crate) fn amount(trees: &Trees, operands: &mut Node) -> Result<u64, Flaw>
    requires { IsKnown trees.now operands.old.0 }
    ensures known { IsKnown trees.now operands.new.0 }
    ensures takes { Takes (operand amount_of (tree_at trees.now operands.old.0)) result (tree_at trees.now operands.new.0) }
{
    let bytes = atom(trees, operands)?;
    match forms::amount_of(bytes) {
        Some(amount) => Ok(amount),
        None => Err(Flaw::Malformed),
    }
}

/// A mode.
pub(crate) fn mode(trees: &Trees, operands: &mut Node) -> Result<u8, Flaw>
    requires { IsKnown trees.now operands.old.0 }
    ensures known { IsKnown trees.now operands.new.0 }
    ensures takes { Takes (operand mode_of (tree_at trees.now operands.old.0)) result (tree_at trees.now operands.new.0) }
{
    let bytes = atom(trees, operands)?;
    match forms::mode_of(bytes) {
        Some(mode) => Ok(mode),
        None => Err(Flaw::Malformed),
    }
}

/// A text, copied.
pub(crate) fn text(alloc: Global, trees: &Trees, operands: &mut Node) -> Result<Bytes, Flaw>
    requires { IsKnown trees.now operands.old.0 }
    ensures known { IsKnown trees.now operands.new.0 }
    ensures takes { Takes (operand text_of (tree_at trees.now operands.old.0)) result (tree_at trees.now operands.new.0) }
{
    let bytes = atom(trees, operands)?;
    if bytes.len() > MOST_TEXT {
        return Err(Flaw::Malformed);
    }
    Ok(Bytes::from_slice(alloc, bytes)?)
}

// A key, copied.
fn key(alloc: Global, trees: &Trees, operands: &mut Node) -> Result<Bytes, Flaw>
    requires { IsKnown trees.now operands.old.0 }
    ensures known { IsKnown trees.now operands.new.0 }
    ensures takes { Takes (operand key_of (tree_at trees.now operands.old.0)) result (tree_at trees.now operands.new.0) }
{
    let bytes = atom(trees, operands)?;
    if bytes.len() != KEY_BYTES {
        return Err(Flaw::Malformed);
    }
    Ok(Bytes::from_slice(alloc, bytes)?)
}

/// A moment alone.
pub(crate) fn one_moment(trees: &Trees, operands: Node) -> Result<i128, Flaw>
    requires { IsKnown trees.now operands.0 }
    ensures { ReadsOne (λ make. one moment_of make (tree_at trees.now operands.0)) result }
{
    let mut operands = operands;
    let bytes = atom(trees, &mut operands)?;
    match forms::moment_of(bytes) {
        Some(moment) => Ok(moment),
        None => Err(Flaw::Malformed),
    }
}

/// A hash alone.
pub(crate) fn one_hash(trees: &Trees, operands: Node) -> Result<Hash32, Flaw>
    requires { IsKnown trees.now operands.0 }
    ensures { ReadsOne (λ make. one hash_of make (tree_at trees.now operands.0)) result }
{
    let mut operands = operands;
    hash(trees, &mut operands)
}

/// An amount alone.
pub(crate) fn one_amount(trees: &Trees, operands: Node) -> Result<u64, Flaw>
    requires { IsKnown trees.now operands.0 }
    ensures { ReadsOne (λ make. one amount_of make (tree_at trees.now operands.0)) result }
{
    let mut operands = operands;
    amount(trees, &mut operands)
}

/// A text alone.
pub(crate) fn one_text(alloc: Global, trees: &Trees, operands: Node) -> Result<Bytes, Flaw>
    requires { IsKnown trees.now operands.0 }
    ensures { ReadsOne (λ make. one text_of make (tree_at trees.now operands.0)) result }
{
    let mut operands = operands;
    text(alloc, trees, &mut operands)
}

/// A key and a text.
pub(crate) fn key_and_text(
    alloc: Global,
    trees: &Trees,
    operands: Node,
) -> Result<(Bytes, Bytes), Flaw>
    requires { IsKnown trees.now operands.0 }
    ensures { ReadsTwo (λ make. two key_of text_of make (tree_at trees.now operands.0)) result }
{
    let mut operands = operands;
    let key = key(alloc, trees, &mut operands)?;
    let text = text(alloc, trees, &mut operands)?;
    Ok((key, text))
}

/// A hash and an amount.
pub(crate) fn hash_and_amount(trees: &Trees, operands: Node) -> Result<(Hash32, u64), Flaw>
    requires { IsKnown trees.now operands.0 }
    ensures { ReadsTwo (λ make. two hash_of amount_of make (tree_at trees.now operands.0)) result }
{
    let mut operands = operands;
    let hash = hash(trees, &mut operands)?;
    let amount = amount(trees, &mut operands)?;
    Ok((hash, amount))
}
