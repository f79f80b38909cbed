//! The time locks of spends.
ghost use Rattle.std.specs.Prelude.{◌≡◌, ◌+ℤ◌, ◌<◌, pos, int_le, not, length, IfSome};
ghost use Rattle.std.specs.List.{list_all};
ghost use Rattle.coin_facts.specs.CoinId.{coin_id};
ghost use Rattle.cond_spec.specs.Acts.{of_spend};
ghost use Rattle.cond_spec.specs.Locks.{Seconds, Height, Birth, to_reach, to_precede};
ghost use Rattle.judge_spec.specs.Locked.{counts_from, holds_from, is_reached, is_ahead};
ghost use Rattle.judge_spec.specs.Facts.{acts_of};
ghost use Rattle.judge_spec.specs.Checks.{first_spend, is_too_early, is_too_late};
ghost use Rattle.block_judge.specs.Breaches.{unsigned_on};

use coin_facts::Coin;
use coin_store::Coins;
use cond_parse::Condition;
use spend_run::Facts;

// The seconds of a coin's record.
fn born_at_seconds<C: Coins>(coins: &C, coin: &Coin) -> Option<u64>
    ensures { result ≡ counts_from (C.seen coins.now) Seconds (Birth (coin_id coin.now)) }
{
    match coins.look_up(&coin.id()) {
        Some(record) => Some(record.seconds),
        None => None,
    }
}

// The height of a coin's record.
fn born_at_height<C: Coins>(coins: &C, coin: &Coin) -> Option<u64>
    ensures { result ≡ counts_from (C.seen coins.now) Height (Birth (coin_id coin.now)) }
{
    match coins.look_up(&coin.id()) {
        Some(record) => Some(u64::from(record.height)),
        None => None,
    }
}

// Whether it is so late, counted from a start. A moment of either sign may be far out, so it isn't added to.
fn is_past(from: u64, moment: i128, now: u64) -> bool
    ensures { result ≡ int_le (pos from +ℤ moment) (pos now) }
{
    moment <= i128::from(now) - i128::from(from)
}

// Whether it is so late, where there is a start.
fn is_reached_from(from: Option<u64>, moment: i128, now: u64) -> bool
    ensures { result ≡ holds_from (λ start. int_le (pos start +ℤ moment) (pos now)) from }
{
    match from {
        Some(from) => is_past(from, moment, now),
        None => true,
    }
}

// Whether it isn't so late yet, where there is a start.
fn is_ahead_from(from: Option<u64>, moment: i128, now: u64) -> bool
    ensures { result ≡ holds_from (λ start. not (int_le (pos start +ℤ moment) (pos now))) from }
{
    match from {
        Some(from) => !is_past(from, moment, now),
        None => true,
    }
}

// Whether the moment is reached that a condition wants to be.
fn is_reached<C: Coins>(coins: &C, coin: &Coin, condition: &Condition) -> bool
    ensures { result ≡ list_all (is_reached (C.seen coins.now)) (to_reach coin.now condition.now) }
{
    match condition {
        Condition::AssertSecondsRelative(moment) => {
            is_reached_from(born_at_seconds(coins, coin), *moment, coins.peak().seconds)
        }
        Condition::AssertSecondsAbsolute(moment) => {
            is_reached_from(Some(0), *moment, coins.peak().seconds)
        }
        Condition::AssertHeightRelative(moment) => is_reached_from(
            born_at_height(coins, coin),
            *moment,
            u64::from(coins.peak().height),
        ),
        Condition::AssertHeightAbsolute(moment) => {
            is_reached_from(Some(0), *moment, u64::from(coins.peak().height))
        }
        _ => true,
    }
}

// Whether the moment is ahead that a condition wants to be.
fn is_ahead<C: Coins>(coins: &C, coin: &Coin, condition: &Condition) -> bool
    ensures { result ≡ list_all (is_ahead (C.seen coins.now)) (to_precede coin.now condition.now) }
{
    match condition {
        Condition::AssertBeforeSecondsRelative(moment) => {
            is_ahead_from(born_at_seconds(coins, coin), *moment, coins.peak().seconds)
        }
        Condition::AssertBeforeSecondsAbsolute(moment) => {
            is_ahead_from(Some(0), *moment, coins.peak().seconds)
        }
        Condition::AssertBeforeHeightRelative(moment) => is_ahead_from(
            born_at_height(coins, coin),
            *moment,
            u64::from(coins.peak().height),
        ),
        Condition::AssertBeforeHeightAbsolute(moment) => {
            is_ahead_from(Some(0), *moment, u64::from(coins.peak().height))
        }
        _ => true,
    }
}

fn are_reached<C: Coins>(coins: &C, coin: &Coin, conditions: &[Condition]) -> bool
    ensures { result ≡ list_all (λ condition. list_all (is_reached (C.seen coins.now)) (to_reach coin.now condition)) conditions.now }
{
    conditions
        .iter()
        .all(|condition| is_reached(coins, coin, condition))
}

fn are_ahead<C: Coins>(coins: &C, coin: &Coin, conditions: &[Condition]) -> bool
    ensures { result ≡ list_all (λ condition. list_all (is_ahead (C.seen coins.now)) (to_precede coin.now condition)) conditions.now }
{
    conditions
        .iter()
        .all(|condition| is_ahead(coins, coin, condition))
}

fn is_too_early<C: Coins>(coins: &C, facts: &Facts) -> bool
    ensures { result ≡ not (list_all (is_reached (C.seen coins.now)) (of_spend to_reach (acts_of facts.now))) }
{
    !are_reached(coins, &facts.spend().coin, facts.conditions().as_slice())
}

fn is_too_late<C: Coins>(coins: &C, facts: &Facts) -> bool
    ensures { result ≡ not (list_all (is_ahead (C.seen coins.now)) (of_spend to_precede (acts_of facts.now))) }
{
    !are_ahead(coins, &facts.spend().coin, facts.conditions().as_slice())
}

/// The first spend with a moment that has to be reached and isn't.
pub(crate) fn too_early<C: Coins>(coins: &C, list: &[Facts]) -> Option<usize>
    ensures value { result ≡ first_spend is_too_early (unsigned_on (C.seen coins.now) list.now) }
    ensures within { IfSome result (λ place. place < length list.now) }
{
    list.iter().position(|facts| is_too_early(coins, facts))
}

/// The first spend with a moment that has to be ahead and isn't.
pub(crate) fn too_late<C: Coins>(coins: &C, list: &[Facts]) -> Option<usize>
    ensures value { result ≡ first_spend is_too_late (unsigned_on (C.seen coins.now) list.now) }
    ensures within { IfSome result (λ place. place < length list.now) }
{
    list.iter().position(|facts| is_too_late(coins, facts))
}
