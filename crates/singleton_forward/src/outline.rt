//! The checks 1 to 7, which look at the bytes of a spend and not at its run.

ghost use Rattle.std.specs.Prelude.{◌≡◌, ◌+◌, ◌*◌, ◌≤◌, ◌^◌, Ok, length, IsTrue, IfOk, IfErr, OnOk};
ghost use Rattle.clvm_spec.specs.Spelled.{is_spelled, spelled_tree, most_spelled};
ghost use Rattle.clvm_tree.specs.Nodes.{tree_at, IsKnown, Grows};
ghost use Rattle.pool_spec.specs.Shape.{solution_of, is_child};
ghost use Rattle.singleton_forward.specs.Checks.{layer_checked, solution_checked, proof_checked, outlined};
ghost use Rattle.singleton_forward.specs.Faults.{IsBroken};
ghost use Rattle.singleton_forward.specs.Layers.{layer_at, IsLayerFound};
ghost use Rattle.singleton_forward.specs.Solutions.{proof_seen, IsSolutionFound, IsOutline};

use crate::ShapeFault;
use crate::layer::{Layer, is_struct_of, layer_of};
use crate::outputs::is_odd;
use crate::solution::{Proof, proof_in};
use block_form::Spend;
use clvm_tree::{Node, ReadFault, Trees};
use coin_facts::{Coin, Hash32, OutOfMemory};
use pool_spec::limits::MOST_FORWARD_SOLUTION;
use std::alloc::Global;

/// A spend of which the checks 1 to 7 hold: its puzzle, its solution, and the proof in the solution.
#[derive(Clone, Copy, Debug)]
pub(crate) struct Outline {
    pub(crate) puzzle: Node,
    pub(crate) solution: Node,
    pub(crate) proof: Proof,
}

// The solution of a spend, and the proof in it.
#[derive(Clone, Copy, Debug)]
struct Found {
    solution: Node,
    proof: Proof,
}

// The tree that the bytes spell.
fn node_of(alloc: Global, trees: &mut Trees, bytes: &[u8]) -> Result<Node, OutOfMemory>
    requires spelled { IsTrue (is_spelled bytes.now) }
    requires room { length trees.old ≤ 2 ^ 28 }
    ensures grows { Grows trees.old trees.new }
    ensures few { length trees.new ≤ length trees.old + most_spelled }
    ensures known { IfOk result (λ node. IsKnown trees.new node.0) }
    ensures stands { IfOk result (λ node. tree_at trees.new node.0 ≡ spelled_tree bytes.now) }
{
    match trees.read_whole(alloc, bytes) {
        Ok(node) => Ok(node),
        Err(fault) => match fault {
            ReadFault::OutOfMemory => Err(OutOfMemory),
            _ => unreachable!(),
        },
    }
}

// Asks the checks 1 to 3.
fn checked_layer(
    alloc: Global,
    trees: &Trees,
    puzzle: Node,
    singleton: &Hash32,
) -> Result<Layer, ShapeFault>
    requires { IsKnown trees.now puzzle.0 }
    ensures ok { IfOk result (IsLayerFound trees.now (layer_checked singleton.now (tree_at trees.now puzzle.0))) }
    ensures err { IfErr result (IsBroken (layer_checked singleton.now (tree_at trees.now puzzle.0))) }
{
    let Some(layer) = layer_of(trees, puzzle) else {
        return Err(ShapeFault::Broken(1));
    };
    if trees.hash(alloc, layer.program)? != singleton.bytes {
        return Err(ShapeFault::Broken(2));
    }
    if !is_struct_of(trees, layer.singleton_struct, singleton) {
        return Err(ShapeFault::Broken(3));
    }
    Ok(layer)
}

// Asks check 4.
fn checked_solution(alloc: Global, trees: &mut Trees, spend: &Spend) -> Result<Found, ShapeFault>
    requires room { length trees.old ≤ 2 ^ 28 }
    ensures grows { Grows trees.old trees.new }
    ensures few { length trees.new ≤ length trees.old + most_spelled }
    ensures ok { IfOk result (IsSolutionFound trees.new spend.now) }
    ensures err { IfErr result (IsBroken (solution_checked spend.now)) }
{
    let bytes = spend.solution.as_slice();
    if bytes.len() > MOST_FORWARD_SOLUTION {
        return Err(ShapeFault::Broken(4));
    }
    let solution = node_of(alloc, trees, bytes)?;
    match proof_in(trees, solution, spend.coin.amount) {
        Some(proof) => Ok(Found { solution, proof }),
        None => Err(ShapeFault::Broken(4)),
    }
}

// Whether the coin's parent is the coin of the proof.
fn is_child(coin: &Coin, proof: &Proof) -> bool
    ensures { result ≡ is_child coin.now (proof_seen proof.now) }
{
    let parent = Coin {
        parent: proof.parent,
        puzzle_hash: coin.puzzle_hash,
        amount: proof.amount,
    };
    coin.parent == parent.id()
}

// Asks the checks 5 to 7.
fn check_proof(
    alloc: Global,
    trees: &Trees,
    layer: &Layer,
    coin: &Coin,
    proof: &Proof,
) -> Result<(), ShapeFault>
    requires { IsKnown trees.now layer.now.inner.0 }
    ensures ok { OnOk result (proof_checked coin.now (layer_at trees.now layer.now) (proof_seen proof.now) ≡ Ok (proof_seen proof.now)) }
    ensures err { IfErr result (IsBroken (proof_checked coin.now (layer_at trees.now layer.now) (proof_seen proof.now))) }
{
    if proof.inner.bytes != trees.hash(alloc, layer.inner)? {
        return Err(ShapeFault::Broken(5));
    }
    if !is_odd(coin.amount) || !is_odd(proof.amount) {
        return Err(ShapeFault::Broken(6));
    }
    if !is_child(coin, proof) {
        return Err(ShapeFault::Broken(7));
    }
    Ok(())
}

/// Asks the checks 1 to 7.
pub(crate) fn outline_of(
    alloc: Global,
    trees: &mut Trees,
    spend: &Spend,
    singleton: &Hash32,
) -> Result<Outline, ShapeFault>
    requires room { length trees.old ≤ 2 ^ 27 }
    ensures few { length trees.new ≤ length trees.old + 2 * most_spelled }
    ensures ok { IfOk result (IsOutline trees.new singleton.now spend.now) }
    ensures err { IfErr result (IsBroken (outlined singleton.now spend.now)) }
{
    let puzzle = node_of(alloc, trees, spend.puzzle.as_slice())?;
    let layer = checked_layer(alloc, trees, puzzle, singleton)?;
    let Found { solution, proof } = checked_solution(alloc, trees, spend)?;
    check_proof(alloc, trees, &layer, &spend.coin, &proof)?;
    Ok(Outline {
        puzzle,
        solution,
        proof,
    })
}
