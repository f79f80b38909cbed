//! Pieces of code, made of nodes that are there. Earlier nodes stand, whatever the answer.

ghost use Rattle.std.specs.Prelude.{◌≡◌, ℕ, ◌+◌, ◌<◌, ◌^◌, [], ◌∷◌, length, IfOk, OnErr};
ghost use Rattle.clvm_spec.specs.Tree.{Atom, Pair, nil};
ghost use Rattle.clvm_tree.specs.Nodes.{tree_at, IsKnown, Grows};
ghost use Rattle.clvm_spec.specs.Currying.{quote_of};
ghost use Rattle.lisp_code.specs.Pieces.{operator_code, path_code, failing, pair_code, if_code};
ghost use Rattle.lisp_compile.specs.Pieces.{Makes};

use clvm_spec::op_codes::{APPLY, CHOICE, RAISE};
use clvm_tree::{Node, Trees};
use lisp_read::OutOfMemory;
use std::alloc::Global;

/// The form of an operator on a list of operands.
pub(crate) fn form_of_list(
    alloc: Global,
    trees: &mut Trees,
    code: u8,
    operands: Node,
) -> Result<Node, OutOfMemory>
    requires fits { length trees.old + 2 < 2 ^ 31 }
    requires known { IsKnown trees.old operands.0 }
    ensures grows { Grows trees.old trees.new }
    ensures ok { IfOk result (λ node. Makes trees.old trees.new node.0 (Pair (Atom (code ∷ [])) (tree_at trees.old operands.0)) 2) }
{
    let head = trees.atom(alloc, &[code])?;
    trees.pair(alloc, head, operands)
}

/// `(x)`: code that always fails.
pub(crate) fn fail(alloc: Global, trees: &mut Trees) -> Result<Node, OutOfMemory>
    requires { length trees.old + 2 < 2 ^ 31 }
    ensures grows { Grows trees.old trees.new }
    ensures ok { IfOk result (λ node. Makes trees.old trees.new node.0 failing 2) }
{
    let nil = trees.nil();
    form_of_list(alloc, trees, RAISE, nil)
}

/// `(q . TREE)`.
pub(crate) fn quote(alloc: Global, trees: &mut Trees, tree: Node) -> Result<Node, OutOfMemory>
    requires fits { length trees.old + 1 < 2 ^ 31 }
    requires known { IsKnown trees.old tree.0 }
    ensures grows { Grows trees.old trees.new }
    ensures ok { IfOk result (λ node. Makes trees.old trees.new node.0 (quote_of (tree_at trees.old tree.0)) 1) }
{
    let one = trees.one();
    trees.pair(alloc, one, tree)
}

/// `(q . BYTES)`.
pub(crate) fn quote_atom(
    alloc: Global,
    trees: &mut Trees,
    bytes: &[u8],
) -> Result<Node, OutOfMemory>
    requires { length trees.old + 2 < 2 ^ 31 }
    ensures grows { Grows trees.old trees.new }
    ensures ok { IfOk result (λ node. Makes trees.old trees.new node.0 (quote_of (Atom bytes.now)) 2) }
{
    let atom = trees.atom(alloc, bytes)?;
    quote(alloc, trees, atom)
}

/// The form of an operator on one operand.
pub(crate) fn form_of_one(
    alloc: Global,
    trees: &mut Trees,
    code: u8,
    operand: Node,
) -> Result<Node, OutOfMemory>
    requires fits { length trees.old + 3 < 2 ^ 31 }
    requires known { IsKnown trees.old operand.0 }
    ensures grows { Grows trees.old trees.new }
    ensures ok { IfOk result (λ node. Makes trees.old trees.new node.0 (operator_code code (tree_at trees.old operand.0 ∷ [])) 3) }
{
    let nil = trees.nil();
    let list = trees.pair(alloc, operand, nil)?;
    form_of_list(alloc, trees, code, list)
}

/// The form of an operator on two operands.
pub(crate) fn form_of_two(
    alloc: Global,
    trees: &mut Trees,
    code: u8,
    first: Node,
    second: Node,
) -> Result<Node, OutOfMemory>
    requires fits { length trees.old + 4 < 2 ^ 31 }
    requires first_known { IsKnown trees.old first.0 }
    requires second_known { IsKnown trees.old second.0 }
    ensures grows { Grows trees.old trees.new }
    ensures ok { IfOk result (λ node. Makes trees.old trees.new node.0 (operator_code code (tree_at trees.old first.0 ∷ tree_at trees.old second.0 ∷ [])) 4) }
{
    let nil = trees.nil();
    let rest = trees.pair(alloc, second, nil)?;
    let list = trees.pair(alloc, first, rest)?;
    form_of_list(alloc, trees, code, list)
}

/// The form of an operator on three operands.
fn form_of_three(
    alloc: Global,
    trees: &mut Trees,
    code: u8,
    first: Node,
    second: Node,
    third: Node,
) -> Result<Node, OutOfMemory>
    requires fits { length trees.old + 5 < 2 ^ 31 }
    requires first_known { IsKnown trees.old first.0 }
    requires second_known { IsKnown trees.old second.0 }
    requires third_known { IsKnown trees.old third.0 }
    ensures grows { Grows trees.old trees.new }
    ensures ok { IfOk result (λ node. Makes trees.old trees.new node.0 (operator_code code (tree_at trees.old first.0 ∷ tree_at trees.old second.0 ∷ tree_at trees.old third.0 ∷ [])) 5) }
{
    let nil = trees.nil();
    let last = trees.pair(alloc, third, nil)?;
    let rest = trees.pair(alloc, second, last)?;
    let list = trees.pair(alloc, first, rest)?;
    form_of_list(alloc, trees, code, list)
}

/// `(a (i TEST (q . THEN) (q . ELSE)) 1)`: only one of the two is run.
pub(crate) fn choice(
    alloc: Global,
    trees: &mut Trees,
    test: Node,
    then_part: Node,
    else_part: Node,
) -> Result<Node, OutOfMemory>
    requires fits { length trees.old + 11 < 2 ^ 31 }
    requires test_known { IsKnown trees.old test.0 }
    requires then_known { IsKnown trees.old then_part.0 }
    requires else_known { IsKnown trees.old else_part.0 }
    ensures grows { Grows trees.old trees.new }
    ensures ok { IfOk result (λ node. Makes trees.old trees.new node.0 (if_code (tree_at trees.old test.0) (quote_of (tree_at trees.old then_part.0)) (quote_of (tree_at trees.old else_part.0))) 11) }
{
    let then_part = quote(alloc, trees, then_part)?;
    let else_part = quote(alloc, trees, else_part)?;
    let chosen = form_of_three(alloc, trees, CHOICE, test, then_part, else_part)?;
    let environment = trees.one();
    form_of_two(alloc, trees, APPLY, chosen, environment)
}
