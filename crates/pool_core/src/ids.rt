//! Lists of ids, and sets of them found by their hash.
ghost use Rattle.std.specs.Prelude.{◌≡◌, ◌||◌, ◌++◌, [], map, not, position, length, ◌<◌, IfOk, IfSome, OnOk};
ghost use Rattle.std.specs.List.{list_all};
ghost use Rattle.std.specs.HashSet.{contains};
ghost use Rattle.coin_facts.specs.CoinId.{coin_id};
ghost use Rattle.chain_spec.specs.Chain.{is_in_chain, ledger_of};
ghost use Rattle.coin_facts.specs.IdLists.{is_same_id};
ghost use Rattle.pool_spec.specs.FirstJudgement.{spent_ids};
ghost use Rattle.coin_facts.specs.IdLists.{is_among, repeat_behind};
ghost use Rattle.pool_core.specs.IdSets.{HasIds};
ghost use Rattle.pool_core.specs.PaymentSums.{paid_ids};

use crate::payment::Payment;
use block_form::Spend;
use coin_facts::{Coin, Hash32, OutOfMemory};
use coin_store::Store;
use std::alloc::Global;
use std::collections::HashSet;

// The place of the first id that stands at an earlier place too.
pub(crate) fn first_repeat(alloc: Global, ids: &[Hash32]) -> Result<Option<usize>, OutOfMemory>
    ensures value { IfOk result (λ place. place ≡ repeat_behind [] 0 ids.now) }
    ensures within { IfOk result (λ place. IfSome place (λ p. p < length ids.now)) }
{
    let mut earlier = HashSet::new(alloc);
    for (place, id) in ids.iter().enumerate() {
        if !earlier.insert(*id)? {
            return Ok(Some(place));
        }
    }
    Ok(None)
}

// The set of these ids.
pub(crate) fn id_set(alloc: Global, ids: &[Hash32]) -> Result<HashSet<Hash32>, OutOfMemory>
    ensures { IfOk result (λ set. HasIds set ids.now) }
{
    let mut set = HashSet::new(alloc);
    for id in ids {
        set.insert(*id)?;
    }
    Ok(set)
}

/// The ids of the spent coins.
pub(crate) fn spent_ids(alloc: Global, spends: &[Spend]) -> Result<Vec<Hash32>, OutOfMemory>
    ensures { IfOk result (λ ids. ids.items ≡ spent_ids spends.now) }
{
    let mut ids = Vec::with_capacity(alloc, spends.len())?;
    for spend in spends {
        ids.push(spend.coin.id())?;
    }
    Ok(ids)
}

fn push_ids(ids: &mut Vec<Hash32>, coins: &[Coin]) -> Result<(), OutOfMemory>
    ensures { OnOk result (ids.new.items ≡ ids.old.items ++ map coin_id coins.now) }
{
    for coin in coins {
        ids.push(coin.id())?;
    }
    Ok(())
}

/// The ids of the coins that payments make.
pub(crate) fn created_ids(alloc: Global, payments: &[Payment]) -> Result<Vec<Hash32>, OutOfMemory>
    ensures { IfOk result (λ ids. ids.items ≡ paid_ids payments.now) }
{
    let mut ids = Vec::new(alloc);
    for payment in payments {
        push_ids(&mut ids, payment.created.as_slice())?;
    }
    Ok(ids)
}

/// Whether none of these ids is in the chain.
pub(crate) fn are_new(store: &Store, ids: &[Hash32]) -> bool
    ensures { result ≡ list_all (λ id. not (is_in_chain (ledger_of store.now) id)) ids.now }
{
    ids.iter().all(|id| store.look_up(id).is_none())
}

// Whether an id is in the chain or in the set.
fn is_known(store: &Store, created: &HashSet<Hash32>, id: &Hash32) -> bool
    ensures { result ≡ (is_in_chain (ledger_of store.now) id.now || contains is_same_id created.now id.now) }
{
    store.look_up(id).is_some() || created.contains(id)
}

// The place of the first id that is neither in the chain nor in the set.
fn first_outside(store: &Store, created: &HashSet<Hash32>, ids: &[Hash32]) -> Option<usize>
    ensures value { result ≡ position (λ id. not (is_in_chain (ledger_of store.now) id || contains is_same_id created.now id)) ids.now }
    ensures within { IfSome result (λ p. p < length ids.now) }
{
    ids.iter().position(|id| !is_known(store, created, id))
}

/// The place of the first id that is neither in the chain nor among the created ones.
pub(crate) fn first_unknown(
    alloc: Global,
    store: &Store,
    ids: &[Hash32],
    created: &[Hash32],
) -> Result<Option<usize>, OutOfMemory>
    ensures value { IfOk result (λ place. place ≡ position (λ id. not (is_in_chain (ledger_of store.now) id || is_among created.now id)) ids.now) }
    ensures within { IfOk result (λ place. IfSome place (λ p. p < length ids.now)) }
{
    let created = id_set(alloc, created)?;
    Ok(first_outside(store, &created, ids))
}
