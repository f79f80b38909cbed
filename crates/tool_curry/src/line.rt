//! The line of a curried program.

ghost use Rattle.std.specs.Prelude.{◌≡◌, ◌+◌, ◌<◌, ◌≤◌, ◌^◌, length, map, sum_by, IfOk, string_bytes};
ghost use Rattle.clvm_spec.specs.declared.limits.TheConstants.{MOST_SPELLED};
ghost use Rattle.clvm_spec.specs.Spelled.{spelled_tree};
ghost use Rattle.clvm_tree.specs.Nodes.{tree_at, IsKnown, AreKnown, Grows};
ghost use Rattle.clvm_tree.specs.Operators.{trees_at};
ghost use Rattle.tool_curry.specs.Lines.{line_of, curry_line};

use clvm_input::{Tool, Word, Words};
use clvm_tree::{Node, OutOfMemory, Trees};
use lisp_library::curry;
use std::alloc::Global;
use tool_eval::{Style, write_tree};

/// The code of a program curried with the trees that words stand for, in hexadecimal.
#[derive(Clone, Copy, Debug)]
pub struct Curry<'a> {
    pub arguments: &'a Words,
}

// The trees that words stand for.
fn read_arguments(
    alloc: Global,
    trees: &mut Trees,
    words: &[Word],
) -> Result<Vec<Node>, OutOfMemory>
    requires { length trees.old + sum_by length words.now + MOST_SPELLED < 2 ^ 31 }
    ensures grows { Grows trees.old trees.new }
    ensures few { length trees.new ≤ length trees.old + sum_by length words.now }
    ensures count { IfOk result (λ nodes. length nodes.items ≡ length words.now) }
    ensures known { IfOk result (λ nodes. AreKnown trees.new nodes.items) }
    ensures stand { IfOk result (λ nodes. trees_at trees.new nodes.items ≡ map spelled_tree words.now) }
{
    let mut nodes = Vec::new(alloc);
    for word in words {
        nodes.push(word.read(alloc, trees)?)?;
    }
    Ok(nodes)
}

fn line_of(alloc: Global, trees: &Trees, code: Node) -> Result<String, OutOfMemory>
    requires { IsKnown trees.now code.0 }
    ensures { IfOk result (λ line. string_bytes line ≡ line_of (tree_at trees.now code.0)) }
{
    let mut line = String::new(alloc);
    write_tree(alloc, &mut line, trees, code, Style::Hexadecimal)?;
    line.push('\n')?;
    Ok(line)
}

impl<'a> Tool for Curry<'a> {
    ghost line = { λ tool program. curry_line program (map spelled_tree tool.arguments.now) };

    fn line(&self, alloc: Global, trees: &mut Trees, program: Node) -> Result<String, OutOfMemory> {
        let nodes = read_arguments(alloc, trees, self.arguments.as_slice())?;
        let code = curry(alloc, trees, program, &nodes)?;
        line_of(alloc, trees, code)
    }
}
