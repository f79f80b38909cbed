//! The nine checks of the Forward shape.

ghost use Rattle.std.specs.Prelude.{◌≡◌, ◌≤◌, ◌^◌, true, false, Some, None, Ok, length, IfOk, IfErr};
ghost use Rattle.clvm_spec.specs.Evaluation.{run_outcome, fuel_of};
ghost use Rattle.clvm_tree.specs.Nodes.{tree_at, IsKnown};
ghost use Rattle.judge_spec.specs.declared.limits.TheConstants.{GREATEST_MAX_COST};
ghost use Rattle.judge_spec.specs.Facts.{facts_of};
ghost use Rattle.pool_spec.specs.Shape.{run_conditions, shape_of};
ghost use Rattle.singleton_forward.specs.Checks.{run_checked};
ghost use Rattle.singleton_forward.specs.Faults.{IsBroken};

use crate::fault::RUN_CHECK;
use crate::found::shape_with;
use crate::outline::outline_of;
use crate::outputs::check_conditions;
use crate::{Shape, ShapeFault};
use block_form::Spend;
use clvm_eval::run;
use clvm_ops::CoreOps;
use clvm_spec::limits::{MOST_BYTES, MOST_DEPTH, MOST_PAIRS};
use clvm_tree::{Fuel, Node, Trees};
use coin_facts::Hash32;
use cond_parse::{Conditions, conditions, conditions_cost};
use spend_run::Facts;
use std::alloc::Global;

// A run's fuel with this cost.
fn fuel_of(cost: u64) -> Fuel
    ensures { result ≡ fuel_of cost }
{
    Fuel {
        cost,
        pairs: MOST_PAIRS,
        bytes: MOST_BYTES,
        depth: MOST_DEPTH,
    }
}

// The conditions of a puzzle's run on a solution, with the limit as its cost.
fn run_conditions(
    alloc: Global,
    trees: &mut Trees,
    puzzle: Node,
    solution: Node,
    limit: u64,
) -> Result<Conditions, ShapeFault>
    requires puzzle { IsKnown trees.old puzzle.0 }
    requires solution { IsKnown trees.old solution.0 }
    requires nodes { length trees.old ≤ 2 ^ 29 }
    ensures ok { IfOk result (λ list. run_checked (run_outcome (tree_at trees.old puzzle.0) (tree_at trees.old solution.0) (fuel_of limit)) ≡ Ok list) }
    ensures err { IfErr result (IsBroken (run_checked (run_outcome (tree_at trees.old puzzle.0) (tree_at trees.old solution.0) (fuel_of limit)))) }
{
    let done = run(alloc, trees, &CoreOps, puzzle, solution, fuel_of(limit))?;
    let list = conditions(alloc, trees, done.value)?;
    Ok(list)
}

/// The Forward shape of a spend, or which of its nine checks is broken first. `singleton` is the tree hash of the
/// singleton's outermost layer, uncurried. The puzzle is run on the solution with the limit as the run's cost.
pub fn shape(
    alloc: Global,
    spend: &Spend,
    limit: u64,
    singleton: &Hash32,
) -> Result<Shape, ShapeFault>
    ensures ok { IfOk result (λ shape. shape_of limit singleton.now spend.now ≡ Ok shape) }
    ensures err { IfErr result (IsBroken (shape_of limit singleton.now spend.now)) }
{
    let mut trees = Trees::new(alloc);
    let found = outline_of(alloc, &mut trees, spend, singleton)?;
    let made = run_conditions(alloc, &mut trees, found.puzzle, found.solution, limit)?;
    check_conditions(&spend.coin, made.as_slice())?;
    Ok(shape_with(alloc, spend, found.proof)?)
}

// Whether a spend's run costs at most the limit.
fn is_run_within(facts: &Facts, limit: u64) -> bool
    requires { facts_of GREATEST_MAX_COST facts.now.spend ≡ Ok facts.now }
    ensures kept { result ≡ true → run_conditions limit facts.now.spend ≡ Some facts.now.conditions }
    ensures spent { result ≡ false → run_conditions limit facts.now.spend ≡ None }
{
    facts.cost() - conditions_cost(facts.conditions()) <= limit
}

/// The same of a spend whose facts are found already, without a run.
pub fn shape_of_facts(
    alloc: Global,
    facts: &Facts,
    limit: u64,
    singleton: &Hash32,
) -> Result<Shape, ShapeFault>
    ensures ok { IfOk result (λ shape. shape_of limit singleton.now facts.now.spend ≡ Ok shape) }
    ensures err { IfErr result (IsBroken (shape_of limit singleton.now facts.now.spend)) }
{
    let spend = facts.spend();
    let mut trees = Trees::new(alloc);
    let found = outline_of(alloc, &mut trees, spend, singleton)?;
    if !is_run_within(facts, limit) {
        return Err(ShapeFault::Broken(RUN_CHECK));
    }
    check_conditions(&spend.coin, facts.conditions().as_slice())?;
    Ok(shape_with(alloc, spend, found.proof)?)
}
