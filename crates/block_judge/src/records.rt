//! The rules on the chain's records of the spent coins.
ghost use Rattle.std.specs.Prelude.{◌≡◌, ◌&&◌, ◌||◌, ◌<◌, ◌^◌, not, length, IfSome};
ghost use Rattle.std.specs.List.{list_any};
ghost use Rattle.chain_spec.specs.Chain.{look_up, is_in_chain};
ghost use Rattle.cond_spec.specs.Acts.{created_ids};
ghost use Rattle.cond_spec.specs.Locks.{looks_at_record};
ghost use Rattle.judge_spec.specs.Checks.{id_of, first_spend, is_unknown, is_spent, is_spent_in_chain, is_other_birth, has_other_birth, has_wrong_birth, acts_in};
ghost use Rattle.block_judge.specs.Breaches.{unsigned_on, breach_of_coins};
ghost use Rattle.block_judge.specs.IdSets.{has, HasIds};

use crate::locks::{too_early, too_late};
use crate::verdict::Breach;
use coin_facts::Hash32;
use coin_store::{Coins, Record};
use cond_parse::Condition;
use judge_spec::Rule;
use spend_run::Facts;
use std::collections::HashSet;

// Whether a spent coin is neither in the chain nor in the set.
fn is_unknown<C: Coins>(coins: &C, created: &HashSet<Hash32>, facts: &Facts) -> bool
    ensures { result ≡ not (is_in_chain (C.seen coins.now) (id_of facts.now) || has created.now (id_of facts.now)) }
{
    let id = facts.spend().coin.id();
    !(coins.look_up(&id).is_some() || created.contains(&id))
}

// The first spend of a coin that is neither in the chain nor created.
fn unknown_coin<C: Coins>(coins: &C, created: &HashSet<Hash32>, list: &[Facts]) -> Option<usize>
    requires { HasIds created.now (created_ids (acts_in (unsigned_on (C.seen coins.now) list.now))) }
    ensures value { result ≡ first_spend is_unknown (unsigned_on (C.seen coins.now) list.now) }
    ensures within { IfSome result (λ place. place < length list.now) }
{
    list.iter()
        .position(|facts| is_unknown(coins, created, facts))
}

fn is_spent_in_chain<C: Coins>(coins: &C, facts: &Facts) -> bool
    ensures { result ≡ is_spent (look_up (C.seen coins.now) (id_of facts.now)) }
{
    match coins.look_up(&facts.spend().coin.id()) {
        Some(record) => record.spent.is_some(),
        None => false,
    }
}

// The first spend of a coin that is spent in the chain.
fn spent_coin<C: Coins>(coins: &C, list: &[Facts]) -> Option<usize>
    ensures value { result ≡ first_spend is_spent_in_chain (unsigned_on (C.seen coins.now) list.now) }
    ensures within { IfSome result (λ place. place < length list.now) }
{
    list.iter()
        .position(|facts| is_spent_in_chain(coins, facts))
}

// Whether a condition says of the record's birth what it isn't.
fn is_other_birth(found: &Record, condition: &Condition) -> bool
    ensures { result ≡ is_other_birth found.now condition.now }
{
    match condition {
        Condition::AssertMyBirthSeconds(moment) => {
            let seconds = i128::from(found.seconds);
            !(*moment <= seconds && seconds <= *moment)
        }
        Condition::AssertMyBirthHeight(moment) => {
            let height = i128::from(found.height);
            !(*moment <= height && height <= *moment)
        }
        _ => false,
    }
}

fn is_any_other_birth(found: &Record, conditions: &[Condition]) -> bool
    ensures { result ≡ list_any (is_other_birth found.now) conditions.now }
{
    conditions
        .iter()
        .any(|condition| is_other_birth(found, condition))
}

// Whether a condition says of the birth of the coin with this id what its record doesn't.
fn has_other_birth<C: Coins>(coins: &C, id: &Hash32, conditions: &[Condition]) -> bool
    ensures { result ≡ has_other_birth (look_up (C.seen coins.now) id.now) conditions.now }
{
    match coins.look_up(id) {
        Some(record) => is_any_other_birth(record, conditions),
        None => false,
    }
}

// Whether a condition looks at its coin's record.
fn looks_at_record(condition: &Condition) -> bool
    ensures { result ≡ looks_at_record condition.now }
{
    matches!(
        condition,
        Condition::AssertMyBirthSeconds(_)
            | Condition::AssertMyBirthHeight(_)
            | Condition::AssertSecondsRelative(_)
            | Condition::AssertHeightRelative(_)
            | Condition::AssertBeforeSecondsRelative(_)
            | Condition::AssertBeforeHeightRelative(_)
    )
}

fn is_any_at_record(conditions: &[Condition]) -> bool
    ensures { result ≡ list_any looks_at_record conditions.now }
{
    conditions.iter().any(looks_at_record)
}

fn has_wrong_birth<C: Coins>(coins: &C, created: &HashSet<Hash32>, facts: &Facts) -> bool
    ensures { result ≡ (has_other_birth (look_up (C.seen coins.now) (id_of facts.now)) facts.now.conditions || (has created.now (id_of facts.now) && list_any looks_at_record facts.now.conditions)) }
{
    let id = facts.spend().coin.id();
    let conditions = facts.conditions().as_slice();
    has_other_birth(coins, &id, conditions) || created.contains(&id) && is_any_at_record(conditions)
}

// The first spend that says of its coin's birth what it isn't, or looks at the record of a created coin.
fn wrong_birth<C: Coins>(coins: &C, created: &HashSet<Hash32>, list: &[Facts]) -> Option<usize>
    requires { HasIds created.now (created_ids (acts_in (unsigned_on (C.seen coins.now) list.now))) }
    ensures value { result ≡ first_spend has_wrong_birth (unsigned_on (C.seen coins.now) list.now) }
    ensures within { IfSome result (λ place. place < length list.now) }
{
    list.iter()
        .position(|facts| has_wrong_birth(coins, created, facts))
}

/// The first broken of the rules on the records of spent coins. The set has the ids of the created ones.
pub(crate) fn breach_of_coins<C: Coins>(
    coins: &C,
    created: &HashSet<Hash32>,
    list: &[Facts],
) -> Option<Breach>
    requires created { HasIds created.now (created_ids (acts_in (unsigned_on (C.seen coins.now) list.now))) }
    requires few { length list.now < 2 ^ 32 }
    ensures { result ≡ breach_of_coins (unsigned_on (C.seen coins.now) list.now) }
{
    if let Some(place) = unknown_coin(coins, created, list) {
        return Some(Breach::new(Rule::UnknownCoin, place));
    }
    if let Some(place) = spent_coin(coins, list) {
        return Some(Breach::new(Rule::SpentInChain, place));
    }
    if let Some(place) = wrong_birth(coins, created, list) {
        return Some(Breach::new(Rule::WrongBirth, place));
    }
    if let Some(place) = too_early(coins, list) {
        return Some(Breach::new(Rule::TooEarly, place));
    }
    if let Some(place) = too_late(coins, list) {
        return Some(Breach::new(Rule::TooLate, place));
    }
    None
}
