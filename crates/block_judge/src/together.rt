//! The rules on what spends make and ask of each other.
ghost use Rattle.std.specs.Prelude.{◌≡◌, ◌<◌, ◌^◌, map, length, nat_lt, IfOk};
ghost use Rattle.cond_spec.specs.Acts.{spent_amounts, created_amounts};
ghost use Rattle.cond_rules.specs.Tallies.{IsTallyOf};
ghost use Rattle.judge_spec.specs.Facts.{acts_of};
ghost use Rattle.block_judge.specs.Breaches.{with_creation, breach_together};

use crate::sums::{created_amounts, spent_amounts};
use crate::verdict::Breach;
use coin_facts::OutOfMemory;
use cond_rules::Tally;
use judge_spec::Rule;
use spend_run::Facts;
use std::alloc::Global;

// The tally of the spends.
fn tally_of(alloc: Global, list: &[Facts]) -> Result<Tally, OutOfMemory>
    requires { length list.now < 2 ^ 32 }
    ensures { IfOk result (λ tally. IsTallyOf tally (map acts_of list.now)) }
{
    let mut tally = Tally::new(alloc);
    for (place, facts) in list.iter().enumerate() {
        let coin = facts.spend().coin;
        tally.add(alloc, place as u32, &coin, facts.conditions())?;
    }
    Ok(tally)
}

// Whether the created amounts are more than the spent ones.
fn creates_too_much(list: &[Facts]) -> bool
    requires { length list.now < 2 ^ 32 }
    ensures { result ≡ nat_lt (spent_amounts (map acts_of list.now)) (created_amounts (map acts_of list.now)) }
{
    spent_amounts(list) < created_amounts(list)
}

// What a tally answers, with the rule on created amounts in its place.
fn with_creation(creates_too_much: bool, broken: Option<(u8, u32)>) -> Option<Breach>
    ensures { result ≡ with_creation creates_too_much broken }
{
    match broken {
        Some((rule, place)) => {
            let is_creation = rule == Rule::LacksReservedFee.number() && creates_too_much;
            let rule = if is_creation {
                Rule::CreatesTooMuch.number()
            } else {
                rule
            };
            Some(Breach { rule, place })
        }
        None => None,
    }
}

/// The first broken of the rules on what spends make and ask of each other.
#[tactic(auto, using(crate::proofs::TogetherLaws::told_together))]
pub(crate) fn breach_together(alloc: Global, list: &[Facts]) -> Result<Option<Breach>, OutOfMemory>
    requires { length list.now < 2 ^ 32 }
    ensures { IfOk result (λ breach. breach ≡ breach_together (map acts_of list.now)) }
{
    let tally = tally_of(alloc, list)?;
    Ok(with_creation(creates_too_much(list), tally.first_broken()))
}
