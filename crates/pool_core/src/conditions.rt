//! The conditions of a payment: a proper list of (51 HASH AMOUNT).
ghost use Rattle.std.specs.Prelude.{◌≡◌, ℕ, false, ◌∷◌, [], option_map, IfOk, MatchOption};
ghost use Rattle.std.specs.Prelude.{Some, None};
ghost use Rattle.clvm_spec.specs.Tree.{list_tree};
ghost use Rattle.clvm_spec.specs.Evaluation.{is_code};
ghost use Rattle.clvm_spec.specs.Operators.{is_nil};
ghost use Rattle.clvm_tree.specs.Nodes.{tree_at, IsKnown};
ghost use Rattle.coin_facts.specs.Atoms.{hash_of, amount_of};
ghost use Rattle.pool_spec.specs.Payment.{is_triple};
ghost use Rattle.pool_core.specs.Payments.{paid_coin, paid_coins};
ghost use Rattle.pool_core.specs.Triples.{IsTripleOf};

use crate::operands::{amount_of, hash_of};
use clvm_tree::{Node, Trees};
use coin_facts::{Coin, Hash32, OutOfMemory};
use cond_spec::codes::CREATE_COIN;
use small_lists::ShortList;
use std::alloc::Global;

// Whether a node is the atom of this one byte.
pub(crate) fn is_code(trees: &Trees, node: Node, code: u8) -> bool
    requires { IsKnown trees.now node.0 }
    ensures { result ≡ is_code code (tree_at trees.now node.0) }
{
    match trees.bytes_of(node) {
        Some(bytes) => bytes == [code].as_slice(),
        None => false,
    }
}

fn hash_at(trees: &Trees, node: Node) -> Option<Hash32>
    requires { IsKnown trees.now node.0 }
    ensures { result ≡ hash_of (tree_at trees.now node.0) }
{
    match trees.bytes_of(node) {
        Some(bytes) => hash_of(bytes),
        None => None,
    }
}

fn amount_at(trees: &Trees, node: Node) -> Option<u64>
    requires { IsKnown trees.now node.0 }
    ensures { result ≡ amount_of (tree_at trees.now node.0) }
{
    match trees.bytes_of(node) {
        Some(bytes) => amount_of(bytes),
        None => None,
    }
}

fn is_nil(trees: &Trees, node: Node) -> bool
    requires { IsKnown trees.now node.0 }
    ensures { result ≡ is_nil (tree_at trees.now node.0) }
{
    match trees.bytes_of(node) {
        Some(bytes) => bytes.is_empty(),
        None => false,
    }
}

// The three elements of a proper list of three.
fn triple(trees: &Trees, node: Node) -> Option<(Node, Node, Node)>
    requires { IsKnown trees.now node.0 }
    ensures { MatchOption result (is_triple (tree_at trees.now node.0) ≡ false) (λ t. IsTripleOf trees.now node.0 t.0.0 t.1.0 t.2.0) }
{
    let (first, rest) = trees.as_pair(node)?;
    let (second, rest) = trees.as_pair(rest)?;
    let (third, rest) = trees.as_pair(rest)?;
    if is_nil(trees, rest) {
        Some((first, second, third))
    } else {
        None
    }
}

// The coin that one (51 HASH AMOUNT) makes.
fn coin(trees: &Trees, condition: Node, parent: Hash32) -> Option<Coin>
    requires { IsKnown trees.now condition.0 }
    ensures { result ≡ paid_coin parent (tree_at trees.now condition.0) }
{
    let (code, hash, amount) = triple(trees, condition)?;
    if !is_code(trees, code, CREATE_COIN) {
        return None;
    }
    Some(Coin {
        parent,
        puzzle_hash: hash_at(trees, hash)?,
        amount: amount_at(trees, amount)?,
    })
}

/// The coins of a proper list of payments' conditions, from the first; None where the node is no such list.
pub(crate) fn coins(
    alloc: Global,
    trees: &Trees,
    value: Node,
    parent: Hash32,
) -> Result<Option<ShortList<Coin>>, OutOfMemory>
    requires { IsKnown trees.now value.0 }
    ensures { IfOk result (λ found. found ≡ paid_coins parent (tree_at trees.now value.0)) }
{
    let mut coins = ShortList::new(alloc);
    let mut rest = value;
    while let Some((condition, next)) = trees.as_pair(rest) {
        let Some(coin) = coin(trees, condition, parent) else {
            return Ok(None);
        };
        coins.push(alloc, coin)?;
        rest = next;
    }
    if is_nil(trees, rest) {
        Ok(Some(coins))
    } else {
        Ok(None)
    }
}
