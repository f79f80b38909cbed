//! Commands on the one tree that an input spells.

ghost use Rattle.std.specs.Prelude.{◌≡◌, ℕ, ◌≤◌, ◌^◌, List, length, IfOk, string_bytes};
ghost use Rattle.clvm_spec.specs.declared.limits.TheConstants.{MOST_SPELLED};
ghost use Rattle.clvm_spec.specs.Tree.{Tree};
ghost use Rattle.clvm_tree.specs.Nodes.{tree_at, IsKnown};
ghost use Rattle.clvm_input.specs.Tools.{IsLineFor};

use crate::{InputFault, read_input};
use clvm_tree::{Node, OutOfMemory, Trees};
use std::alloc::Global;

/// A command on one tree, which writes a line for it.
pub trait Tool {
    ghost line: { Self → Tree → List ℕ };

    /// The line, with its line feed. The trees may get further nodes.
    fn line(&self, alloc: Global, trees: &mut Trees, tree: Node) -> Result<String, OutOfMemory>
        requires known { IsKnown trees.old tree.0 }
        requires fits { length trees.old ≤ 2 ^ 27 }
        ensures { IfOk result (λ text. string_bytes text ≡ line self.now (tree_at trees.old tree.0)) };
}

/// The line that a command writes for the tree that an input spells.
///
/// # Errors
///
/// The input's first fault, or want of memory.
pub fn line_for<T: Tool>(alloc: Global, tool: &T, input: Vec<u8>) -> Result<String, InputFault>
    requires { length input.items ≤ MOST_SPELLED }
    ensures { IsLineFor (T.line tool.now) input.items result }
{
    let mut trees = Trees::new(alloc);
    let tree = read_input(alloc, &mut trees, input)?;
    Ok(tool.line(alloc, &mut trees, tree)?)
}
