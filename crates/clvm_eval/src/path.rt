//! An atom as a path into an environment.

ghost use Rattle.std.specs.Prelude.{◌≡◌, ℕ, ◌+◌, ◌<◌, ◌≤◌, ◌^◌, [], ◌∷◌, MatchOption};
ghost use Rattle.clvm_spec.specs.Path.{Astray, path_value, path_cost};
ghost use Rattle.clvm_tree.specs.Nodes.{tree_at, IsKnown};
ghost use Rattle.clvm_eval.specs.Paths.{IsStep, IsNoStep, IsFollowed, IsAstray, IsReached};

use clvm_spec::arithmetic::leading_zero_bytes;
use clvm_spec::costs::{PATH_COST, PATH_STEP_COST, PATH_ZERO_COST};
use clvm_tree::{Node, Trees};

/// Where a path leads.
#[derive(Clone, Copy, Debug, PartialEq, Eq)]
pub struct Place {
    /// The node that the path ends at.
    pub node: Node,
    /// How many steps lead to it from the environment.
    pub steps: u32,
}

// One step on, by a bit: 0 to the first, 1 to the rest. None at an atom.
#[inline(always)]
fn step(trees: &Trees, from: Place, bit: u32) -> Option<Place>
    requires known { IsKnown trees.now from.node.0 }
    requires few { from.node.0 + from.steps < 2 ^ 32 }
    ensures { MatchOption result (IsNoStep trees.now from bit) (IsStep trees.now from bit) }
{
    let (first, rest) = trees.as_pair(from.node)?;
    let node = if bit == 0 { first } else { rest };
    Some(Place {
        node,
        steps: from.steps + 1,
    })
}

// Follows the bits below the highest set one, from the lowest up.
#[inline(always)]
fn descend(trees: &Trees, from: Place, bits: u32) -> Option<Place>
    requires known { IsKnown trees.now from.node.0 }
    requires few { from.node.0 + from.steps < 2 ^ 32 }
    ensures { MatchOption result (IsAstray trees.now from bits) (IsFollowed trees.now from bits) }
{
    let mut at = from;
    let mut left = bits;
    'bits: while left > 1 {
        at = step(trees, at, left % 2)?;
        left /= 2;
    }
    Some(at)
}

/// Where a path leads in an environment. Its bits are followed from the lowest up, so its last byte comes first; a
/// path of zero bytes alone, or of none, leads to nil. None where it steps into an atom.
pub fn follow(trees: &Trees, path: &[u8], env: Node) -> Option<Place>
    requires { IsKnown trees.now env.0 }
    ensures { MatchOption result (path_value path.now (tree_at trees.now env.0) ≡ Astray) (IsReached trees.now path.now (tree_at trees.now env.0)) }
{
    let zeros = leading_zero_bytes(path);
    if zeros == path.len() {
        return Some(Place {
            node: trees.nil(),
            steps: 0,
        });
    }
    let mut at = Place {
        node: env,
        steps: 0,
    };
    let mut end = path.len();
    'bytes: while end > zeros + 1 {
        end -= 1;
        at = descend(trees, at, 0x100 + path[end] as u32)?;
    }
    descend(trees, at, path[zeros] as u32)
}

/// Where a path of one byte leads.
#[inline(always)]
pub(crate) fn follow_byte(trees: &Trees, path: u8, env: Node) -> Option<Place>
    requires { IsKnown trees.now env.0 }
    ensures { MatchOption result (path_value (path ∷ []) (tree_at trees.now env.0) ≡ Astray) (IsReached trees.now (path ∷ []) (tree_at trees.now env.0)) }
{
    if path == 0 {
        return Some(Place {
            node: trees.nil(),
            steps: 0,
        });
    }
    let from = Place {
        node: env,
        steps: 0,
    };
    descend(trees, from, path as u32)
}

/// What it costs to follow a path by so many steps: 44, 4 for each zero byte that it begins with, and 4 for each step.
pub fn cost_of_path(path: &[u8], steps: u32) -> u128
    ensures { result ≡ path_cost path.now steps }
{
    let zeros = leading_zero_bytes(path);
    PATH_COST as u128
        + PATH_ZERO_COST as u128 * zeros as u128
        + PATH_STEP_COST as u128 * steps as u128
}

/// What it costs to follow a path of one byte.
#[inline(always)]
pub(crate) fn cost_of_byte(path: u8, steps: u32) -> u64
    ensures { result ≡ path_cost (path ∷ []) steps }
{
    let zeros = if path == 0 { 1 } else { 0 };
    PATH_COST as u64 + PATH_ZERO_COST as u64 * zeros + PATH_STEP_COST as u64 * steps as u64
}
