//! The rules that are asked spend by spend, and the running cost of the list.
ghost use Rattle.std.specs.Prelude.{◌≡◌, ◌+◌, ◌*◌, ◌<◌, ◌≤◌, ◌^◌, [], length, nat_lt, Some, None, IfSome, IfNone, IfOk, IfErr};
ghost use Rattle.block_spec.specs.Added.{added_bytes};
ghost use Rattle.judge_spec.specs.declared.costs.TheConstants.{BYTE_COST};
ghost use Rattle.judge_spec.specs.declared.limits.TheConstants.{GREATEST_MAX_COST};
ghost use Rattle.judge_spec.specs.declared.rule.Rule.TheVariants.{TooCostly};
ghost use Rattle.judge_spec.specs.Rules.{number_of};
ghost use Rattle.judge_spec.specs.Judgement.{charged, cost_of, with_costs, with_facts};
ghost use Rattle.judge_spec.specs.Judgement as judging;
ghost use Rattle.judge_spec.specs.Facts.{facts_of};
ghost use Rattle.block_judge.specs.Costs.{added_cost, grown_cost, HasCost, IsStop, IsFoundWith, stop_of};
ghost use Rattle.block_judge.specs.Verdicts.{terms_within};
ghost use Rattle.block_judge.specs.declared.costs.Stop.TheVariants as the_stop;
ghost use Rattle.spend_run.specs.Breaches.{IsBreach};

use crate::verdict::Breach;
use block_form::{Spend, added_bytes};
use block_spec::EMPTY_GENERATOR_BYTES;
use coin_facts::OutOfMemory;
use coin_store::Peak;
use judge_spec::Rule;
use judge_spec::costs::BYTE_COST;
use spend_run::{FactList, Facts, SpendFault, facts};
use std::alloc::Global;

// What a list without spends costs: the bytes of its generator.
const BASE_COST: u64 = BYTE_COST * EMPTY_GENERATOR_BYTES;

/// Why a list is judged no further: it breaks a rule, or there is no memory.
#[derive(Clone, Copy, Debug)]
pub(crate) enum Stop {
    Broken(Breach),
    OutOfMemory,
}

impl From<OutOfMemory> for Stop {
    ghost from_gives = { λ _ stop. stop ≡ the_stop.OutOfMemory };

    fn from(_: OutOfMemory) -> Stop {
        Stop::OutOfMemory
    }
}

/// The facts of spends, and what these cost as a list.
#[derive(Debug, Drop)]
pub(crate) struct Found {
    pub(crate) list: FactList,
    pub(crate) cost: u64,
}

// What a spend's run and conditions are charged on a chain of this peak. This is the one place where they are.
fn charged(_peak: &Peak, facts: &Facts) -> u64
    ensures { result ≡ charged (terms_within 0) _peak.now facts.now }
{
    facts.cost()
}

// What a spend adds to the cost of its list.
fn added_cost(peak: &Peak, facts: &Facts) -> u128
    ensures value { result ≡ added_cost peak.now facts.now }
    ensures small { result < 2 ^ 65 }
{
    u128::from(BYTE_COST * added_bytes(facts.spend())) + u128::from(charged(peak, facts))
}

// The cost with one spend more, None exactly where that is over the limit.
fn grown_cost(peak: &Peak, facts: &Facts, cost: u64, limit: u64) -> Option<u64>
    ensures { result ≡ grown_cost limit peak.now cost facts.now }
{
    let grown = u128::from(cost) + added_cost(peak, facts);
    if grown > u128::from(limit) {
        None
    } else {
        Some(grown as u64)
    }
}

/// What facts cost as a list, or the place of the first one with which the list costs more than the limit.
pub(crate) fn cost_of_list(peak: &Peak, list: &[Facts], limit: u64) -> Result<u64, usize>
    ensures ok { IfOk result (HasCost limit peak.now list.now) }
    ensures err { IfErr result (λ place. (verdict : judging.Verdict) → with_costs (terms_within limit) peak.now [] list.now verdict ≡ judging.Broken (number_of TooCostly) place) }
    ensures within { IfErr result (λ place. place < length list.now) }
{
    let mut cost = BASE_COST;
    for (place, facts) in list.iter().enumerate() {
        match grown_cost(peak, facts, cost, limit) {
            Some(grown) => cost = grown,
            None => return Err(place),
        }
    }
    Ok(cost)
}

// The rule that a fault is of.
fn stopped_by(fault: SpendFault, place: usize) -> Stop
    requires { place < 2 ^ 32 }
    ensures { result ≡ stop_of fault place }
{
    let rule = match fault {
        SpendFault::PuzzleHash => Rule::WrongPuzzleHash,
        SpendFault::Failed => Rule::RunFails,
        SpendFault::Spent => Rule::TooCostly,
        SpendFault::Wide => Rule::RunIsWide,
        SpendFault::Malformed(_) => Rule::MalformedCondition,
        SpendFault::Unknown(_) => Rule::UnknownCondition,
        SpendFault::SameOutput(_) => Rule::SameOutput,
        SpendFault::OwnFact(_) => Rule::WrongOwnFact,
        SpendFault::OutOfMemory => return Stop::OutOfMemory,
    };
    Stop::Broken(Breach::new(rule, place))
}

/// The facts of spends and their cost as a list, or the first broken of the rules 3 to 10. Each puzzle is hashed and run
/// once.
pub(crate) fn facts_of_list(
    alloc: Global,
    peak: &Peak,
    spends: &[Spend],
    limit: u64,
) -> Result<Found, Stop>
    requires limit { limit ≤ GREATEST_MAX_COST }
    requires few { length spends.now < 2 ^ 32 }
    ensures ok { IfOk result (λ found. IsFoundWith limit peak.now spends.now found.list found.cost) }
    ensures err { IfErr result (IsStop (with_facts (terms_within limit) peak.now [] spends.now)) }
{
    let mut list = FactList::new(alloc);
    let mut cost = BASE_COST;
    for (place, spend) in spends.iter().enumerate() {
        let facts = match facts(alloc, spend, limit) {
            Ok(facts) => facts,
            Err(fault) => return Err(stopped_by(fault, place)),
        };
        match grown_cost(peak, &facts, cost, limit) {
            Some(grown) => cost = grown,
            None => return Err(Stop::Broken(Breach::new(Rule::TooCostly, place))),
        }
        list.push(alloc, facts)?;
    }
    Ok(Found { list, cost })
}
