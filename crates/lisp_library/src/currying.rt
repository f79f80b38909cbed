ghost use Rattle.std.specs.Prelude.{◌≡◌, ◌+◌, ◌*◌, ◌<◌, ◌≤◌, ◌^◌, length, IfOk};
ghost use Rattle.clvm_spec.specs.Tree.{Pair, nil};
ghost use Rattle.clvm_tree.specs.Nodes.{tree_at, IsKnown, AreKnown, Grows};
ghost use Rattle.clvm_tree.specs.Operators.{trees_at};
ghost use Rattle.clvm_spec.specs.Currying.{quote_of, curried, quote_hash, form_hash, curried_hash};

use clvm_spec::op_codes::{APPLY, NEW_PAIR, QUOTE};
use clvm_tree::{Hash, Node, OutOfMemory, Trees, atom_hash, pair_hash};
use std::alloc::Global;

// `(OPERATOR (q . QUOTED) LAST)`.
fn form(
    alloc: Global,
    trees: &mut Trees,
    operator: Node,
    quoted: Node,
    last: Node,
) -> Result<Node, OutOfMemory>
    requires operator_known { IsKnown trees.old operator.0 }
    requires quoted_known { IsKnown trees.old quoted.0 }
    requires last_known { IsKnown trees.old last.0 }
    requires fits { length trees.old + 4 < 2 ^ 31 }
    ensures grows { Grows trees.old trees.new }
    ensures few { length trees.new ≤ length trees.old + 4 }
    ensures known { IfOk result (λ node. IsKnown trees.new node.0) }
    ensures stands { IfOk result (λ node. tree_at trees.new node.0
        ≡ Pair (tree_at trees.old operator.0) (Pair (quote_of (tree_at trees.old quoted.0)) (Pair (tree_at trees.old last.0) nil))) }
{
    let quote = trees.pair(alloc, trees.one(), quoted)?;
    let end = trees.pair(alloc, last, trees.nil())?;
    let operands = trees.pair(alloc, quote, end)?;
    trees.pair(alloc, operator, operands)
}

/// A program with its first arguments given: `(a (q . PROGRAM) (c (q . A1) (c (q . A2) .. 1)))`. Earlier nodes stand,
/// whatever the answer; without memory there may be further nodes.
pub fn curry(
    alloc: Global,
    trees: &mut Trees,
    program: Node,
    arguments: &[Node],
) -> Result<Node, OutOfMemory>
    requires program_known { IsKnown trees.old program.0 }
    requires arguments_known { AreKnown trees.old arguments.now }
    requires fits { length trees.old + 4 * length arguments.now + 6 < 2 ^ 31 }
    ensures grows { Grows trees.old trees.new }
    ensures few { length trees.new ≤ length trees.old + 4 * length arguments.now + 6 }
    ensures known { IfOk result (λ node. IsKnown trees.new node.0) }
    ensures stands { IfOk result (λ node. tree_at trees.new node.0
        ≡ curried (tree_at trees.old program.0) (trees_at trees.old arguments.now)) }
{
    let apply = trees.atom(alloc, &[APPLY])?;
    let cons = trees.atom(alloc, &[NEW_PAIR])?;
    let mut environment = trees.one();
    for place in (0..arguments.len()).rev() {
        environment = form(alloc, trees, cons, arguments[place], environment)?;
    }
    form(alloc, trees, apply, program, environment)
}

fn quote_hash(hash: &Hash) -> Hash
    ensures { result ≡ quote_hash hash.now }
{
    pair_hash(&atom_hash(&[QUOTE]), hash)
}

// The hash of `(OPERATOR (q . QUOTED) LAST)`.
fn form_hash(operator: u8, quoted: &Hash, last: &Hash) -> Hash
    ensures { result ≡ form_hash operator (quote_hash quoted.now) last.now }
{
    let end = pair_hash(last, &atom_hash(&[]));
    let operands = pair_hash(&quote_hash(quoted), &end);
    pair_hash(&atom_hash(&[operator]), &operands)
}

/// The tree hash of a curried program, from the hashes of the program and of its arguments.
pub fn curried_hash(program: &Hash, arguments: &[Hash]) -> Hash
    ensures { result ≡ curried_hash program.now arguments.now }
{
    let mut environment = atom_hash(&[1]);
    for place in (0..arguments.len()).rev() {
        environment = form_hash(NEW_PAIR, &arguments[place], &environment);
    }
    form_hash(APPLY, program, &environment)
}
