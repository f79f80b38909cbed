//! The rules 9 and 10, which speak of one spend and its conditions.
ghost use Rattle.std.specs.Prelude.{◌≡◌, ◌<◌, [], length, position, IfOk, IfSome};
ghost use Rattle.cond_spec.specs.ActRules.{is_same_output, differs_from};
ghost use Rattle.coin_facts.specs.IdLists.{repeat_by};
ghost use Rattle.spend_run.specs.Outputs.{output_of, IsRepeat};

use coin_facts::{Coin, Hash32, OutOfMemory};
use cond_parse::Condition;
use std::alloc::Global;
use std::collections::HashSet;

/// What tells the created coins of one spend apart.
#[derive(Clone, Copy, Debug, PartialEq, Eq, Hash)]
pub(crate) struct Output {
    pub(crate) puzzle_hash: Hash32,
    pub(crate) amount: u64,
}

// The output of a condition that creates a coin.
fn created_output(condition: &Condition) -> Option<Output>
    ensures { result ≡ output_of condition.now }
{
    match condition {
        Condition::CreateCoin {
            puzzle_hash,
            amount,
        } => Some(Output {
            puzzle_hash: *puzzle_hash,
            amount: *amount,
        }),
        _ => None,
    }
}

// Whether a condition creates a coin as an earlier one does. Its output goes to the earlier ones.
fn is_repeat(earlier: &mut HashSet<Output>, condition: &Condition) -> Result<bool, OutOfMemory>
    ensures { IfOk result (IsRepeat earlier.old earlier.new condition.now) }
{
    match created_output(condition) {
        Some(output) => Ok(!earlier.insert(output)?),
        None => Ok(false),
    }
}

/// The place of the first condition that creates a coin as an earlier one does.
pub(crate) fn same_output(
    alloc: Global,
    conditions: &[Condition],
) -> Result<Option<usize>, OutOfMemory>
    ensures value { IfOk result (λ place. place ≡ repeat_by is_same_output [] 0 conditions.now) }
    ensures within { IfOk result (λ place. IfSome place (λ p. p < length conditions.now)) }
{
    let mut earlier = HashSet::new(alloc);
    for (place, condition) in conditions.iter().enumerate() {
        if is_repeat(&mut earlier, condition)? {
            return Ok(Some(place));
        }
    }
    Ok(None)
}

// Whether a condition says of the coin what it isn't.
fn differs(coin: &Coin, condition: &Condition) -> bool
    ensures { result ≡ differs_from coin.now condition.now }
{
    match condition {
        Condition::AssertMyCoinId(id) => *id != coin.id(),
        Condition::AssertMyParentId(id) => *id != coin.parent,
        Condition::AssertMyPuzzleHash(hash) => *hash != coin.puzzle_hash,
        Condition::AssertMyAmount(amount) => *amount != coin.amount,
        _ => false,
    }
}

/// The place of the first condition that says of the coin what it isn't.
pub(crate) fn wrong_own_fact(coin: &Coin, conditions: &[Condition]) -> Option<usize>
    ensures value { result ≡ position (differs_from coin.now) conditions.now }
    ensures within { IfSome result (λ p. p < length conditions.now) }
{
    conditions
        .iter()
        .position(|condition| differs(coin, condition))
}
