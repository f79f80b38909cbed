//! The rule that created coins are new.
ghost use Rattle.std.specs.Prelude.{◌≡◌, ◌<◌, map, length, IfOk, IfSome};
ghost use Rattle.coin_facts.specs.CoinId.{coin_id};
ghost use Rattle.chain_spec.specs.Chain.{is_in_chain};
ghost use Rattle.cond_spec.specs.Acts.{of_spend, coin_made};
ghost use Rattle.judge_spec.specs.Facts.{acts_of};
ghost use Rattle.judge_spec.specs.Checks.{coin_exists};
ghost use Rattle.block_judge.specs.Breaches.{unsigned_on};
ghost use Rattle.block_judge.specs.NewCoins.{IsOldId, HasOldId};

use crate::ids::push_created;
use coin_facts::{Hash32, OutOfMemory};
use coin_store::Coins;
use spend_run::Facts;
use std::alloc::Global;
use std::collections::HashSet;

// Whether an id is in the chain or among the earlier ones, to which it goes where it isn't.
fn is_old_id<C: Coins>(
    coins: &C,
    earlier: &mut HashSet<Hash32>,
    id: Hash32,
) -> Result<bool, OutOfMemory>
    ensures { IfOk result (IsOldId (is_in_chain (C.seen coins.now)) earlier.old earlier.new id) }
{
    Ok(coins.look_up(&id).is_some() || !earlier.insert(id)?)
}

// Whether one of the ids is in the chain or among those before it. They go to the earlier ones where none is.
fn has_old_id<C: Coins>(
    coins: &C,
    earlier: &mut HashSet<Hash32>,
    ids: &[Hash32],
) -> Result<bool, OutOfMemory>
    ensures { IfOk result (HasOldId (is_in_chain (C.seen coins.now)) earlier.old earlier.new ids.now) }
{
    for id in ids {
        if is_old_id(coins, earlier, *id)? {
            return Ok(true);
        }
    }
    Ok(false)
}

fn creates_old<C: Coins>(
    alloc: Global,
    coins: &C,
    earlier: &mut HashSet<Hash32>,
    facts: &Facts,
) -> Result<bool, OutOfMemory>
    ensures { IfOk result (HasOldId (is_in_chain (C.seen coins.now)) earlier.old earlier.new (map coin_id (of_spend coin_made (acts_of facts.now)))) }
{
    let mut ids = Vec::new(alloc);
    push_created(&mut ids, facts)?;
    has_old_id(coins, earlier, ids.as_slice())
}

/// The first spend that creates a coin whose id is in the chain, or is that of an earlier created coin.
pub(crate) fn coin_exists<C: Coins>(
    alloc: Global,
    coins: &C,
    list: &[Facts],
) -> Result<Option<usize>, OutOfMemory>
    ensures value { IfOk result (λ place. place ≡ coin_exists (unsigned_on (C.seen coins.now) list.now)) }
    ensures within { IfOk result (λ place. IfSome place (λ p. p < length list.now)) }
{
    let mut earlier = HashSet::new(alloc);
    for (place, facts) in list.iter().enumerate() {
        if creates_old(alloc, coins, &mut earlier, facts)? {
            return Ok(Some(place));
        }
    }
    Ok(None)
}
