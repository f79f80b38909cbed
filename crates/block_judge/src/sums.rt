//! What a list's coins are worth.
ghost use Rattle.std.specs.Prelude.{◌≡◌, ◌<◌, ◌^◌, map, length};
ghost use Rattle.std.specs.List.{sum_by};
ghost use Rattle.cond_spec.specs.Acts.{spent_amounts, created_amounts};
ghost use Rattle.judge_spec.specs.Facts.{acts_of};
ghost use Rattle.block_judge.specs.Amounts.{created_amount, created_by};

use cond_parse::Condition;
use spend_run::Facts;

/// What the spent coins are worth together, in mojos.
pub(crate) fn spent_amounts(list: &[Facts]) -> u128
    requires { length list.now < 2 ^ 32 }
    ensures value { result ≡ spent_amounts (map acts_of list.now) }
    ensures small { result < 2 ^ 96 }
{
    let mut amount = 0;
    for facts in list {
        amount += u128::from(facts.spend().coin.amount);
    }
    amount
}

// What a created coin is worth.
fn created_amount(condition: &Condition) -> u64
    ensures { result ≡ created_amount condition.now }
{
    match condition {
        Condition::CreateCoin { amount, .. } => *amount,
        _ => 0,
    }
}

// What the coins that a spend creates are worth together.
fn created_by(facts: &Facts) -> u128
    ensures value { result ≡ created_by facts.now }
    ensures small { result < 2 ^ 96 }
{
    let conditions = facts.conditions().as_slice();
    let mut amount = 0;
    for condition in conditions {
        amount += u128::from(created_amount(condition));
    }
    amount
}

/// What the created coins are worth together, in mojos.
pub(crate) fn created_amounts(list: &[Facts]) -> u128
    requires { length list.now < 2 ^ 32 }
    ensures { result ≡ created_amounts (map acts_of list.now) }
{
    let mut amount = 0;
    for facts in list {
        amount += created_by(facts);
    }
    amount
}
