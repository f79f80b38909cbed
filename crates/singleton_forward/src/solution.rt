//! What the solution of a singleton's spend says.

ghost use Rattle.std.specs.Prelude.{◌≡◌, MatchOption, None, option_map};
ghost use Rattle.clvm_tree.specs.Nodes.{tree_at, IsKnown};
ghost use Rattle.pool_spec.specs.Shape.{proof_of};
ghost use Rattle.singleton_forward.specs.Solutions.{AreThree, AreNotThree, proof_seen, solution_in, HasProof};

use crate::atoms::{amount_at, hash_at, is_nil};
use clvm_tree::{Node, Trees};
use coin_facts::Hash32;

/// The lineage proof: the parent of the coin's parent, the hash of its inner puzzle, and its amount.
#[derive(Clone, Copy, Debug, PartialEq, Eq)]
pub(crate) struct Proof {
    pub(crate) parent: Hash32,
    pub(crate) inner: Hash32,
    pub(crate) amount: u64,
}

// The elements of a proper list of three, None for every other tree.
fn three(trees: &Trees, list: Node) -> Option<[Node; 3]>
    requires { IsKnown trees.now list.0 }
    ensures { MatchOption result (AreNotThree (tree_at trees.now list.0)) (AreThree trees.now (tree_at trees.now list.0)) }
{
    let (first, behind) = trees.as_pair(list)?;
    let (second, behind) = trees.as_pair(behind)?;
    let (third, end) = trees.as_pair(behind)?;
    if is_nil(trees, end) {
        Some([first, second, third])
    } else {
        None
    }
}

fn proof_of(trees: &Trees, node: Node) -> Option<Proof>
    requires { IsKnown trees.now node.0 }
    ensures { option_map proof_seen result ≡ proof_of (tree_at trees.now node.0) }
{
    let [parent, inner, amount] = three(trees, node)?;
    Some(Proof {
        parent: hash_at(trees, parent)?,
        inner: hash_at(trees, inner)?,
        amount: amount_at(trees, amount)?,
    })
}

/// The proof in the solution of a coin of this amount, None where the solution isn't of the form `(PROOF AMOUNT LAST)`.
pub(crate) fn proof_in(trees: &Trees, solution: Node, own: u64) -> Option<Proof>
    requires { IsKnown trees.now solution.0 }
    ensures { MatchOption result (solution_in own (tree_at trees.now solution.0) ≡ None)
        (HasProof (solution_in own (tree_at trees.now solution.0))) }
{
    let [proof, amount, _] = three(trees, solution)?;
    let proof = proof_of(trees, proof)?;
    if amount_at(trees, amount)? == own {
        Some(proof)
    } else {
        None
    }
}
