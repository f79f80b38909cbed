ghost use Rattle.std.specs.Prelude.{◌≡◌, ◌<◌, ◌≤◌, ◌^◌, length, IfOk};
ghost use Rattle.judge_spec.specs.declared.limits.TheConstants.{GREATEST_MAX_COST};
ghost use Rattle.judge_spec.specs.Judgement.{cost_of, judged, judgement, judgement_of_facts};
ghost use Rattle.block_judge.specs.Breaches.{scene_on, breach_of};
ghost use Rattle.block_judge.specs.Costs.{IsToldBy};
ghost use Rattle.block_judge.specs.Verdicts.{told, terms_within};

use crate::costs::{Stop, cost_of_list, facts_of_list};
use crate::ids::{created_set, first_repeat, ids_of_facts, ids_of_spends};
use crate::new_coins::coin_exists;
use crate::records::breach_of_coins;
use crate::signing::unattested;
use crate::sums::{created_amounts, spent_amounts};
use crate::together::breach_together;
use crate::verdict::{Breach, Verdict};
use block_form::{Attested, Spends};
use coin_facts::OutOfMemory;
use coin_store::Coins;
use judge_spec::Rule;
use judge_spec::limits::GREATEST_MAX_COST;
use spend_run::{FactList, Facts};
use std::alloc::Global;

// The first broken of the rules 11 to 23.
fn breach_of<C: Coins>(
    alloc: Global,
    coins: &C,
    list: &[Facts],
    attested: &Attested,
) -> Result<Option<Breach>, OutOfMemory>
    requires { length list.now < 2 ^ 32 }
    ensures { IfOk result (λ breach. breach ≡ breach_of (scene_on (C.seen coins.now) list.now attested.now)) }
{
    let created = created_set(alloc, list)?;
    if let Some(breach) = breach_of_coins(coins, &created, list) {
        return Ok(Some(breach));
    }
    if let Some(breach) = breach_together(alloc, list)? {
        return Ok(Some(breach));
    }
    if let Some(place) = unattested(alloc, coins, list, attested)? {
        return Ok(Some(Breach::new(Rule::NotAttested, place)));
    }
    if let Some(place) = coin_exists(alloc, coins, list)? {
        return Ok(Some(Breach::new(Rule::CoinExists, place)));
    }
    Ok(None)
}

// The verdict by the rules 11 to 23 on a list of this cost.
fn judged<C: Coins>(
    alloc: Global,
    coins: &C,
    list: &[Facts],
    attested: &Attested,
    cost: u64,
) -> Result<Verdict, OutOfMemory>
    requires few { length list.now < 2 ^ 32 }
    requires cost { cost ≡ cost_of (terms_within 0) (C.seen coins.now).peak list.now }
    ensures { IfOk result (λ verdict. told verdict ≡ judged (scene_on (C.seen coins.now) list.now attested.now)) }
{
    if let Some(breach) = breach_of(alloc, coins, list, attested)? {
        return Ok(breach.verdict());
    }
    let fee = spent_amounts(list).saturating_sub(created_amounts(list));
    Ok(Verdict::Fine { cost, fee })
}

// The verdict of a stop, if there was memory.
fn verdict_by(stop: Stop) -> Result<Verdict, OutOfMemory>
    ensures { IfOk result (IsToldBy stop) }
{
    match stop {
        Stop::Broken(breach) => Ok(breach.verdict()),
        Stop::OutOfMemory => Err(OutOfMemory),
    }
}

/// The verdict on spends: the first rule that they break, of the rules 2 to 23, or their cost and fee. Each puzzle is
/// hashed and run once, with the limit as its run's cost. Places count the spends from 0.
pub fn judge<C: Coins>(
    alloc: Global,
    coins: &C,
    spends: &Spends,
    attested: &Attested,
    limit: u64,
) -> Result<Verdict, OutOfMemory>
    requires { limit ≤ GREATEST_MAX_COST }
    ensures { IfOk result (λ verdict. told verdict ≡ judgement (terms_within limit) (C.seen coins.now) spends.now attested.now) }
{
    let ids = ids_of_spends(alloc, spends.as_slice())?;
    match first_repeat(alloc, ids.as_slice())? {
        Some(place) => return Ok(Breach::new(Rule::SpentTwice, place).verdict()),
        None => {}
    }
    match facts_of_list(alloc, &coins.peak(), spends.as_slice(), limit) {
        Ok(found) => judged(alloc, coins, found.list.as_slice(), attested, found.cost),
        Err(stop) => verdict_by(stop),
    }
}

/// The verdict on spends whose facts were found before: as `judge`, without a run.
pub fn judge_facts<C: Coins>(
    alloc: Global,
    coins: &C,
    list: &FactList,
    attested: &Attested,
    limit: u64,
) -> Result<Verdict, OutOfMemory>
    requires { limit ≤ GREATEST_MAX_COST }
    ensures { IfOk result (λ verdict. told verdict ≡ judgement_of_facts (terms_within limit) (C.seen coins.now) list.now attested.now) }
{
    let facts = list.as_slice();
    let ids = ids_of_facts(alloc, facts)?;
    match first_repeat(alloc, ids.as_slice())? {
        Some(place) => return Ok(Breach::new(Rule::SpentTwice, place).verdict()),
        None => {}
    }
    match cost_of_list(&coins.peak(), facts, limit) {
        Ok(cost) => judged(alloc, coins, facts, attested, cost),
        Err(place) => Ok(Breach::new(Rule::TooCostly, place).verdict()),
    }
}
