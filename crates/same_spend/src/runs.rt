//! What the run of a spend says of its class.
ghost use Rattle.std.specs.Prelude.{◌≡◌, ℕ, ◌+◌, ◌≤◌, ◌^◌, length, Some, IfOk, IsTrue};
ghost use Rattle.std.specs.List.{list_any};
ghost use Rattle.clvm_spec.specs.Evaluation.{fuel_of, run_outcome};
ghost use Rattle.clvm_spec.specs.Spelled.{is_spelled, spelled_tree, most_spelled};
ghost use Rattle.clvm_tree.specs.Nodes.{tree_at, IsKnown, Grows};
ghost use Rattle.cond_spec.specs.Conditions.{conditions_of};
ghost use Rattle.pool_spec.specs.Classes.{wants_signature, class_by_run};
ghost use Rattle.pool_spec.specs.Shape.{listed, conditions_in, run_conditions};

use block_form::Spend;
use clvm_eval::{RunFault, run};
use clvm_ops::CoreOps;
use clvm_spec::limits::{MOST_BYTES, MOST_DEPTH, MOST_PAIRS};
use clvm_tree::{Fuel, Node, ReadFault, Trees};
use coin_facts::OutOfMemory;
use cond_parse::{CondFault, Condition, Conditions, conditions};
use spend_run::Class;
use std::alloc::Global;

// A run's fuel with this cost.
fn fuel_of(cost: u64) -> Fuel
    ensures { result ≡ fuel_of cost }
{
    Fuel {
        cost,
        pairs: MOST_PAIRS,
        bytes: MOST_BYTES,
        depth: MOST_DEPTH,
    }
}

// The tree that the bytes spell.
fn node_of(alloc: Global, trees: &mut Trees, bytes: &[u8]) -> Result<Node, OutOfMemory>
    requires spelled { IsTrue (is_spelled bytes.now) }
    requires room { length trees.old ≤ 2 ^ 28 }
    ensures grows { Grows trees.old trees.new }
    ensures few { length trees.new ≤ length trees.old + most_spelled }
    ensures known { IfOk result (λ node. IsKnown trees.new node.0) }
    ensures stands { IfOk result (λ node. tree_at trees.new node.0 ≡ spelled_tree bytes.now) }
{
    match trees.read_whole(alloc, bytes) {
        Ok(node) => Ok(node),
        Err(fault) => match fault {
            ReadFault::OutOfMemory => Err(OutOfMemory),
            _ => unreachable!(),
        },
    }
}

// The conditions of a value, where none is malformed or unknown.
fn listed(alloc: Global, trees: &Trees, value: Node) -> Result<Option<Conditions>, OutOfMemory>
    requires { IsKnown trees.now value.0 }
    ensures { IfOk result (λ found. found ≡ listed (conditions_of (tree_at trees.now value.0))) }
{
    match conditions(alloc, trees, value) {
        Ok(list) => Ok(Some(list)),
        Err(fault) => match fault {
            CondFault::OutOfMemory => Err(OutOfMemory),
            CondFault::Malformed(_) => Ok(None),
            CondFault::Unknown(_) => Ok(None),
        },
    }
}

// Runs a puzzle on a solution, with the limit as its cost. The conditions, where the run gives any.
fn conditions_in(
    alloc: Global,
    trees: &mut Trees,
    puzzle: Node,
    solution: Node,
    limit: u64,
) -> Result<Option<Conditions>, OutOfMemory>
    requires puzzle { IsKnown trees.old puzzle.0 }
    requires solution { IsKnown trees.old solution.0 }
    requires nodes { length trees.old ≤ 2 ^ 29 }
    ensures { IfOk result (λ found. found ≡ conditions_in (run_outcome (tree_at trees.old puzzle.0) (tree_at trees.old solution.0) (fuel_of limit))) }
{
    match run(alloc, trees, &CoreOps, puzzle, solution, fuel_of(limit)) {
        Ok(done) => listed(alloc, trees, done.value),
        Err(fault) => match fault {
            RunFault::OutOfMemory => Err(OutOfMemory),
            RunFault::Failed(_, _) => Ok(None),
            RunFault::Spent(_) => Ok(None),
            RunFault::Wide => Ok(None),
        },
    }
}

// The conditions of a spend's run, over trees that live no longer.
fn run_conditions(
    alloc: Global,
    spend: &Spend,
    limit: u64,
) -> Result<Option<Conditions>, OutOfMemory>
    ensures { IfOk result (λ found. found ≡ run_conditions limit spend.now) }
{
    let mut trees = Trees::new(alloc);
    let puzzle = node_of(alloc, &mut trees, spend.puzzle.as_slice())?;
    let solution = node_of(alloc, &mut trees, spend.solution.as_slice())?;
    conditions_in(alloc, &mut trees, puzzle, solution, limit)
}

// Whether a condition asks for a signature.
fn wants_signature(condition: &Condition) -> bool
    ensures { result ≡ wants_signature condition.now }
{
    matches!(
        condition,
        Condition::AggSigParent { .. }
            | Condition::AggSigPuzzle { .. }
            | Condition::AggSigAmount { .. }
            | Condition::AggSigPuzzleAmount { .. }
            | Condition::AggSigParentAmount { .. }
            | Condition::AggSigParentPuzzle { .. }
            | Condition::AggSigUnsafe { .. }
            | Condition::AggSigMe { .. }
    )
}

// Whether one of several conditions does.
fn want_signature(conditions: &[Condition]) -> bool
    ensures { result ≡ list_any wants_signature conditions.now }
{
    conditions
        .iter()
        .any(|condition| wants_signature(condition))
}

/// The class of a spend that isn't Forward and whose run gives these conditions.
pub(crate) fn class_by_conditions(conditions: &Conditions) -> Class
    ensures { result ≡ class_by_run (Some conditions.now) }
{
    if want_signature(conditions.as_slice()) {
        Class::Plain
    } else {
        Class::Same
    }
}

/// The class of a spend that isn't Forward, by its run with the limit as its cost.
pub(crate) fn class_by_run(alloc: Global, spend: &Spend, limit: u64) -> Result<Class, OutOfMemory>
    ensures { IfOk result (λ class. class ≡ class_by_run (run_conditions limit spend.now)) }
{
    match run_conditions(alloc, spend, limit)? {
        Some(conditions) => Ok(class_by_conditions(&conditions)),
        None => Ok(Class::Plain),
    }
}
