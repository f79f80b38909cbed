//! The outermost layer of a singleton's puzzle.

ghost use Rattle.std.specs.Prelude.{◌≡◌, ◌<◌, MatchOption, None};
ghost use Rattle.clvm_tree.specs.Nodes.{tree_at, IsKnown};
ghost use Rattle.coin_facts.specs.Atoms.{hash_of};
ghost use Rattle.pool_spec.specs.Shape.{layer_of, is_struct_of};
ghost use Rattle.singleton_forward.specs.Forms.{form_parts, HasFormParts};
ghost use Rattle.singleton_forward.specs.Layers.{IsLayer};

use crate::atoms::{hash_at, is_code, is_nil};
use clvm_spec::op_codes::{APPLY, NEW_PAIR, QUOTE};
use clvm_tree::{Node, Trees};
use coin_facts::Hash32;

/// The path to the whole environment, with which the list of a curried program's arguments ends.
const WHOLE_PATH: u8 = 1;

/// A program that is curried with a singleton's struct and its inner puzzle.
#[derive(Clone, Copy, Debug)]
pub(crate) struct Layer {
    pub(crate) program: Node,
    pub(crate) singleton_struct: Node,
    pub(crate) inner: Node,
}

// The quoted tree and the last operand of `(OPERATOR (q . QUOTED) LAST)`, None for every other tree.
fn form_parts(trees: &Trees, node: Node, operator: u8) -> Option<(Node, Node)>
    requires { IsKnown trees.now node.0 }
    ensures { MatchOption result (form_parts operator (tree_at trees.now node.0) ≡ None)
        (λ parts. HasFormParts trees.now operator node.0 parts.0.0 parts.1.0) }
{
    let (head, operands) = trees.as_pair(node)?;
    let (quote, behind) = trees.as_pair(operands)?;
    let (q, quoted) = trees.as_pair(quote)?;
    let (last, end) = trees.as_pair(behind)?;
    if is_code(trees, head, operator) && is_code(trees, q, QUOTE) && is_nil(trees, end) {
        Some((quoted, last))
    } else {
        None
    }
}

/// The parts of a puzzle that is curried with exactly two arguments, None for every other.
pub(crate) fn layer_of(trees: &Trees, puzzle: Node) -> Option<Layer>
    requires { IsKnown trees.now puzzle.0 }
    ensures { MatchOption result (layer_of (tree_at trees.now puzzle.0) ≡ None)
        (IsLayer trees.now (layer_of (tree_at trees.now puzzle.0))) }
{
    let (program, environment) = form_parts(trees, puzzle, APPLY)?;
    let (singleton_struct, behind) = form_parts(trees, environment, NEW_PAIR)?;
    let (inner, end) = form_parts(trees, behind, NEW_PAIR)?;
    if is_code(trees, end, WHOLE_PATH) {
        Some(Layer {
            program,
            singleton_struct,
            inner,
        })
    } else {
        None
    }
}

/// Whether a node is the struct of a singleton with this hash.
pub(crate) fn is_struct_of(trees: &Trees, node: Node, singleton: &Hash32) -> bool
    requires { IsKnown trees.now node.0 }
    ensures { result ≡ is_struct_of singleton.now (tree_at trees.now node.0) }
{
    let Some((top, rest)) = trees.as_pair(node) else {
        return false;
    };
    let Some((launcher, launcher_puzzle)) = trees.as_pair(rest) else {
        return false;
    };
    let Some(top) = trees.bytes_of(top) else {
        return false;
    };
    top == singleton.bytes.as_slice()
        && hash_at(trees, launcher).is_some()
        && hash_at(trees, launcher_puzzle).is_some()
}
