//! What the run of a singleton's spend may and may not do.

ghost use Rattle.std.specs.Prelude.{◌≡◌, Ok, count_by, IfErr, OnOk};
ghost use Rattle.std.specs.List.{list_any};
ghost use Rattle.pool_spec.specs.Shape.{is_odd, binds_to_coin};
ghost use Rattle.singleton_forward.specs.Checks.{conditions_checked};
ghost use Rattle.singleton_forward.specs.Faults.{IsBroken};
ghost use Rattle.singleton_forward.specs.Outputs.{makes_odd, makes_again, is_made_again};

use crate::ShapeFault;
use coin_facts::Coin;
use cond_parse::Condition;

pub(crate) fn is_odd(amount: u64) -> bool
    ensures { result ≡ is_odd amount }
{
    amount % 2 == 1
}

// Whether a condition makes a coin of an odd amount.
#[tactic(auto, unfolding(crate::specs::Outputs::makes_odd))]
fn makes_odd(condition: &Condition) -> bool
    ensures { result ≡ makes_odd condition.now }
{
    match condition {
        Condition::CreateCoin { amount, .. } => is_odd(*amount),
        _ => false,
    }
}

// Whether a condition makes a coin of an odd amount, which is this coin's, with this coin's puzzle hash.
#[tactic(auto, unfolding(crate::specs::Outputs::makes_again))]
fn makes_again(coin: &Coin, condition: &Condition) -> bool
    ensures { result ≡ makes_again coin.now condition.now }
{
    match condition {
        Condition::CreateCoin {
            puzzle_hash,
            amount,
        } => is_odd(*amount) && *puzzle_hash == coin.puzzle_hash && *amount == coin.amount,
        _ => false,
    }
}

// How many coins of an odd amount are made.
#[tactic(auto, using(std::proofs::lemmas::List::Sums::count_by_more_yes, std::proofs::lemmas::List::Sums::count_by_more_no))]
fn odd_count(conditions: &[Condition]) -> usize
    ensures { result ≡ count_by makes_odd conditions.now }
{
    let mut count = 0;
    for condition in conditions {
        if makes_odd(condition) {
            count += 1;
        }
    }
    count
}

// Whether some condition makes the coin again.
fn makes_again_in(coin: &Coin, conditions: &[Condition]) -> bool
    ensures { result ≡ list_any (makes_again coin.now) conditions.now }
{
    conditions
        .iter()
        .any(|condition| makes_again(coin, condition))
}

// Whether of the coins that are made exactly one has an odd amount, which has the coin's puzzle hash and amount.
fn makes_itself(coin: &Coin, conditions: &[Condition]) -> bool
    ensures { result ≡ is_made_again coin.now conditions.now }
{
    odd_count(conditions) == 1 && makes_again_in(coin, conditions)
}

// Whether a condition holds of this coin alone.
fn binds_to_coin(condition: &Condition) -> bool
    ensures { result ≡ binds_to_coin condition.now }
{
    matches!(
        condition,
        Condition::AggSigParent { .. }
            | Condition::AggSigParentAmount { .. }
            | Condition::AggSigParentPuzzle { .. }
            | Condition::AggSigMe { .. }
            | Condition::AssertMyCoinId(_)
            | Condition::AssertMyBirthSeconds(_)
            | Condition::AssertMyBirthHeight(_)
            | Condition::AssertEphemeral
    )
}

// Whether some condition holds of this coin alone.
fn binds_in(conditions: &[Condition]) -> bool
    ensures { result ≡ list_any binds_to_coin conditions.now }
{
    conditions.iter().any(|condition| binds_to_coin(condition))
}

/// Asks what check 8 says of the conditions, and check 9.
pub(crate) fn check_conditions(coin: &Coin, conditions: &[Condition]) -> Result<(), ShapeFault>
    ensures ok { OnOk result (conditions_checked coin.now conditions.now ≡ Ok conditions.now) }
    ensures err { IfErr result (IsBroken (conditions_checked coin.now conditions.now)) }
{
    if !makes_itself(coin, conditions) {
        return Err(ShapeFault::Broken(8));
    }
    if binds_in(conditions) {
        return Err(ShapeFault::Broken(9));
    }
    Ok(())
}
