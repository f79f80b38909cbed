//! What the atoms of a puzzle and of a solution stand for.

ghost use Rattle.std.specs.Prelude.{◌≡◌, ◌<◌, ◌≤◌, ◌^◌, IfSome};
ghost use Rattle.clvm_spec.specs.Tree.{Atom};
ghost use Rattle.clvm_spec.specs.Evaluation.{is_code};
ghost use Rattle.clvm_spec.specs.Operators.{is_nil};
ghost use Rattle.clvm_tree.specs.Nodes.{tree_at, IsKnown};
ghost use Rattle.coin_facts.specs.Atoms.{hash_of, number_below, amount_of};

use clvm_spec::limits::NUMBER_BYTES;
use clvm_spec::shortest_bytes;
use clvm_tree::{Node, Trees, unsigned};
use coin_facts::{HASH_BYTES, Hash32};

/// Whether a node is the atom of this one byte.
pub(crate) fn is_code(trees: &Trees, node: Node, code: u8) -> bool
    requires { IsKnown trees.now node.0 }
    ensures { result ≡ is_code code (tree_at trees.now node.0) }
{
    matches!(trees.bytes_of(node), Some([byte]) if *byte == code)
}

/// Whether a node is the empty atom.
pub(crate) fn is_nil(trees: &Trees, node: Node) -> bool
    requires { IsKnown trees.now node.0 }
    ensures { result ≡ is_nil (tree_at trees.now node.0) }
{
    matches!(trees.bytes_of(node), Some([]))
}

// The hash of bytes, which are 32.
fn hash_of(bytes: &[u8]) -> Option<Hash32>
    ensures { result ≡ hash_of (Atom bytes.now) }
{
    if bytes.len() != HASH_BYTES {
        return None;
    }
    let mut hash = [0; HASH_BYTES];
    hash.copy_from_slice(bytes);
    Some(Hash32 { bytes: hash })
}

// A whole number below a limit, of its shortest atom.
fn number_below(bytes: &[u8], limit: u128) -> Option<u128>
    requires { limit ≤ 2 ^ 64 }
    ensures value { result ≡ number_below limit (Atom bytes.now) }
    ensures below { IfSome result (λ value. value < limit) }
{
    if bytes.len() > NUMBER_BYTES {
        return None;
    }
    let value = unsigned(bytes);
    let digits = value.to_be_bytes();
    if value < limit && bytes == shortest_bytes(digits.as_slice()) {
        Some(value)
    } else {
        None
    }
}

// An amount, of the shortest atom of 0 to 2^64 - 1.
fn amount_of(bytes: &[u8]) -> Option<u64>
    ensures { result ≡ amount_of (Atom bytes.now) }
{
    let amount = number_below(bytes, 1 << 64)?;
    Some(amount as u64)
}

/// The hash that a node is, which is an atom of 32 bytes.
pub(crate) fn hash_at(trees: &Trees, node: Node) -> Option<Hash32>
    requires { IsKnown trees.now node.0 }
    ensures { result ≡ hash_of (tree_at trees.now node.0) }
{
    hash_of(trees.bytes_of(node)?)
}

/// The amount that a node is, which is the shortest atom of 0 to 2^64 - 1.
pub(crate) fn amount_at(trees: &Trees, node: Node) -> Option<u64>
    requires { IsKnown trees.now node.0 }
    ensures { result ≡ amount_of (tree_at trees.now node.0) }
{
    amount_of(trees.bytes_of(node)?)
}
