ghost use Rattle.std.specs.Prelude.{◌≡◌, ℕ, ◌≤◌, ◌+◌, ◌^◌, Ok, length, IsTrue, IfOk, IfErr, OnOk};
ghost use Rattle.std.specs.Str.{bytes_eq};
ghost use Rattle.clvm_spec.specs.Hashing.{tree_hash};
ghost use Rattle.clvm_spec.specs.Spelled.{is_spelled, spelled_tree, most_spelled};
ghost use Rattle.clvm_spec.specs.Evaluation.{fuel_of, run_outcome};
ghost use Rattle.clvm_tree.specs.Nodes.{tree_at, IsKnown, Grows};
ghost use Rattle.cond_spec.specs.Conditions.{cost_of_conditions};
ghost use Rattle.judge_spec.specs.declared.limits.TheConstants.{GREATEST_MAX_COST};
ghost use Rattle.judge_spec.specs.Facts.{facts_of};
ghost use Rattle.spend_run.specs.Breaches.{IsBreach};
ghost use Rattle.spend_run.specs.Readings.{IsReadAt, IsBreachAt};
ghost use Rattle.spend_run.specs.Found.{facts_seen, asked};

use crate::copies::copy_spend;
use crate::fault::SpendFault;
use crate::found::Facts;
use crate::own_rules::{same_output, wrong_own_fact};
use block_form::Spend;
use clvm_eval::run;
use clvm_ops::CoreOps;
use clvm_spec::limits::{MOST_BYTES, MOST_DEPTH, MOST_PAIRS};
use clvm_tree::{Fuel, Node, ReadFault, Trees};
use coin_facts::{Coin, OutOfMemory};
use cond_parse::{Conditions, conditions, conditions_cost};
use std::alloc::Global;

// What is read of a spend: what its run and its conditions cost together, and the conditions.
struct Reading {
    cost: u64,
    conditions: Conditions,
}

// A run's fuel with this cost.
fn fuel_of(cost: u64) -> Fuel
    ensures { result ≡ fuel_of cost }
{
    Fuel {
        cost,
        pairs: MOST_PAIRS,
        bytes: MOST_BYTES,
        depth: MOST_DEPTH,
    }
}

// The tree that the bytes spell.
fn node_of(alloc: Global, trees: &mut Trees, bytes: &[u8]) -> Result<Node, OutOfMemory>
    requires spelled { IsTrue (is_spelled bytes.now) }
    requires room { length trees.old ≤ 2 ^ 28 }
    ensures grows { Grows trees.old trees.new }
    ensures few { length trees.new ≤ length trees.old + most_spelled }
    ensures known { IfOk result (λ node. IsKnown trees.new node.0) }
    ensures stands { IfOk result (λ node. tree_at trees.new node.0 ≡ spelled_tree bytes.now) }
{
    match trees.read_whole(alloc, bytes) {
        Ok(node) => Ok(node),
        Err(fault) => match fault {
            ReadFault::OutOfMemory => Err(OutOfMemory),
            _ => unreachable!(),
        },
    }
}

// What a run and its conditions cost together.
#[tactic(auto, using(crate::proofs::CostLaws::costs_most))]
fn whole_cost(run: u64, conditions: &Conditions) -> u64
    requires run { run ≤ GREATEST_MAX_COST }
    ensures { result ≡ run + cost_of_conditions conditions.now }
{
    let few = conditions.as_slice().len() <= u32::MAX as usize;
    prove!(few);
    let listed = conditions_cost(conditions);
    run + listed
}

// Whether a node is the puzzle of this coin.
fn is_puzzle_of(
    alloc: Global,
    trees: &Trees,
    puzzle: Node,
    coin: &Coin,
) -> Result<bool, OutOfMemory>
    requires { IsKnown trees.now puzzle.0 }
    ensures { IfOk result (λ b. b ≡ bytes_eq (tree_hash (tree_at trees.now puzzle.0)) coin.now.puzzle_hash.bytes) }
{
    let hash = trees.hash(alloc, puzzle)?;
    Ok(hash == coin.puzzle_hash.bytes)
}

// Runs a puzzle on a solution, with the limit as its cost, and reads the conditions.
fn read_run(
    alloc: Global,
    trees: &mut Trees,
    puzzle: Node,
    solution: Node,
    limit: u64,
) -> Result<Reading, SpendFault>
    requires limit { limit ≤ GREATEST_MAX_COST }
    requires puzzle { IsKnown trees.old puzzle.0 }
    requires solution { IsKnown trees.old solution.0 }
    requires nodes { length trees.old ≤ 2 ^ 29 }
    ensures ok { IfOk result (IsReadAt limit (run_outcome (tree_at trees.old puzzle.0) (tree_at trees.old solution.0) (fuel_of limit))) }
    ensures err { IfErr result (IsBreachAt limit (run_outcome (tree_at trees.old puzzle.0) (tree_at trees.old solution.0) (fuel_of limit))) }
{
    let done = run(alloc, trees, &CoreOps, puzzle, solution, fuel_of(limit))?;
    let conditions = conditions(alloc, trees, done.value)?;
    let cost = whole_cost(done.cost, &conditions);
    Ok(Reading { cost, conditions })
}

// Reads a spend, over trees that live no longer.
fn read_spend(alloc: Global, spend: &Spend, limit: u64) -> Result<Reading, SpendFault>
    requires limit { limit ≤ GREATEST_MAX_COST }
    ensures ok { IfOk result (λ reading. facts_of limit spend.now ≡ asked spend.now reading.cost reading.conditions) }
    ensures err { IfErr result (IsBreach (facts_of limit spend.now)) }
{
    let mut trees = Trees::new(alloc);
    let puzzle = node_of(alloc, &mut trees, spend.puzzle.as_slice())?;
    if !is_puzzle_of(alloc, &trees, puzzle, &spend.coin)? {
        return Err(SpendFault::PuzzleHash);
    }
    let solution = node_of(alloc, &mut trees, spend.solution.as_slice())?;
    read_run(alloc, &mut trees, puzzle, solution, limit)
}

// Asks the rules 9 and 10.
fn check_own_rules(alloc: Global, spend: &Spend, conditions: &Conditions) -> Result<(), SpendFault>
    ensures ok { OnOk result ((cost : ℕ) → asked spend.now cost conditions.now ≡ Ok (facts_seen spend.now cost conditions.now)) }
    ensures err { IfErr result (λ fault. (cost : ℕ) → IsBreach (asked spend.now cost conditions.now) fault) }
{
    if let Some(place) = same_output(alloc, conditions.as_slice())? {
        return Err(SpendFault::SameOutput(place as u32));
    }
    if let Some(place) = wrong_own_fact(&spend.coin, conditions.as_slice()) {
        return Err(SpendFault::OwnFact(place as u32));
    }
    Ok(())
}

/// The facts of a spend, or which of the rules 3 to 10 it breaks first. Its puzzle is run on its solution with the limit as
/// the run's cost. Puzzle, solution and what the run makes are let go before the answer.
pub fn facts(alloc: Global, spend: &Spend, limit: u64) -> Result<Facts, SpendFault>
    requires limit { limit ≤ GREATEST_MAX_COST }
    ensures ok { IfOk result (λ facts. facts_of limit spend.now ≡ Ok facts) }
    ensures err { IfErr result (IsBreach (facts_of limit spend.now)) }
{
    let Reading { cost, conditions } = read_spend(alloc, spend, limit)?;
    check_own_rules(alloc, spend, &conditions)?;
    let spend = copy_spend(alloc, spend)?;
    Ok(Facts {
        spend,
        cost,
        conditions,
    })
}
