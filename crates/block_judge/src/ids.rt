//! The ids of a list's coins, and sets of them found by their hash.
ghost use Rattle.std.specs.Prelude.{◌≡◌, ◌++◌, ◌<◌, [], map, length, IfOk, IfSome, OnOk};
ghost use Rattle.std.specs.List.{flat_map};
ghost use Rattle.coin_facts.specs.CoinId.{coin_id};
ghost use Rattle.coin_facts.specs.IdLists.{repeat_behind};
ghost use Rattle.cond_spec.specs.Acts.{of_spend, coin_made, created_ids};
ghost use Rattle.judge_spec.specs.Facts.{acts_of};
ghost use Rattle.judge_spec.specs.GrowthLaws.{ids_spent};
ghost use Rattle.judge_spec.specs.Judgement.{spends_in};
ghost use Rattle.block_judge.specs.IdSets.{HasIds, ids_made};

use block_form::Spend;
use coin_facts::{Coin, Hash32, OutOfMemory};
use cond_parse::Condition;
use spend_run::Facts;
use std::alloc::Global;
use std::collections::HashSet;

/// The ids of the spent coins.
pub(crate) fn ids_of_spends(alloc: Global, spends: &[Spend]) -> Result<Vec<Hash32>, OutOfMemory>
    ensures { IfOk result (λ ids. ids.items ≡ ids_spent spends.now) }
{
    let mut ids = Vec::with_capacity(alloc, spends.len())?;
    for spend in spends {
        ids.push(spend.coin.id())?;
    }
    Ok(ids)
}

/// The ids of the coins that these facts spend.
pub(crate) fn ids_of_facts(alloc: Global, list: &[Facts]) -> Result<Vec<Hash32>, OutOfMemory>
    ensures { IfOk result (λ ids. ids.items ≡ ids_spent (spends_in list.now)) }
{
    let mut ids = Vec::with_capacity(alloc, list.len())?;
    for facts in list {
        ids.push(facts.spend().coin.id())?;
    }
    Ok(ids)
}

/// The place of the first id that stands at an earlier place too.
pub(crate) fn first_repeat(alloc: Global, ids: &[Hash32]) -> Result<Option<usize>, OutOfMemory>
    ensures value { IfOk result (λ place. place ≡ repeat_behind [] 0 ids.now) }
    ensures within { IfOk result (λ place. IfSome place (λ p. p < length ids.now)) }
{
    let mut earlier = HashSet::new(alloc);
    for (place, id) in ids.iter().enumerate() {
        if !earlier.insert(*id)? {
            return Ok(Some(place));
        }
    }
    Ok(None)
}

// Adds the id of the coin that a condition makes.
fn push_made(ids: &mut Vec<Hash32>, coin: &Coin, condition: &Condition) -> Result<(), OutOfMemory>
    ensures { OnOk result (ids.new.items ≡ ids.old.items ++ ids_made coin.now condition.now) }
{
    match condition {
        Condition::CreateCoin {
            puzzle_hash,
            amount,
        } => {
            let made = Coin {
                parent: coin.id(),
                puzzle_hash: *puzzle_hash,
                amount: *amount,
            };
            ids.push(made.id())?;
            Ok(())
        }
        _ => Ok(()),
    }
}

/// Adds the ids of the coins that a spend creates.
pub(crate) fn push_created(ids: &mut Vec<Hash32>, facts: &Facts) -> Result<(), OutOfMemory>
    ensures { OnOk result (ids.new.items ≡ ids.old.items ++ map coin_id (of_spend coin_made (acts_of facts.now))) }
{
    let coin = facts.spend().coin;
    for condition in facts.conditions().as_slice() {
        push_made(ids, &coin, condition)?;
    }
    Ok(())
}

// The ids of the created coins.
fn created_ids(alloc: Global, list: &[Facts]) -> Result<Vec<Hash32>, OutOfMemory>
    ensures { IfOk result (λ ids. ids.items ≡ created_ids (map acts_of list.now)) }
{
    let mut ids = Vec::new(alloc);
    for facts in list {
        push_created(&mut ids, facts)?;
    }
    Ok(ids)
}

// The set of these ids.
fn id_set(alloc: Global, ids: &[Hash32]) -> Result<HashSet<Hash32>, OutOfMemory>
    ensures { IfOk result (λ set. HasIds set ids.now) }
{
    let mut set = HashSet::new(alloc);
    for id in ids {
        set.insert(*id)?;
    }
    Ok(set)
}

/// The set of the ids of the created coins.
pub(crate) fn created_set(alloc: Global, list: &[Facts]) -> Result<HashSet<Hash32>, OutOfMemory>
    ensures { IfOk result (λ set. HasIds set (created_ids (map acts_of list.now))) }
{
    let ids = created_ids(alloc, list)?;
    id_set(alloc, ids.as_slice())
}
