ghost use Rattle.std.specs.Prelude.{◌≡◌, ◌+◌, ◌<◌, ◌≤◌, ◌^◌, true, [], length, IfOk, IfErr, IfSome};
ghost use Rattle.std.specs.List.{list_all};
ghost use Rattle.chain_spec.specs.Chain.{look_up, ledger_of};
ghost use Rattle.judge_spec.specs.Checks.{is_spent};
ghost use Rattle.judge_spec.specs.Judgement.{judgement, terms_of};
ghost use Rattle.pool_spec.specs.Payment.{is_payment};
ghost use Rattle.pool_spec.specs.FirstJudgement.{Verdict, Broken, payment_verdict, spent_coin, spend_by_spend};
ghost use Rattle.pool_spec.specs.FirstJudgement as judged;
ghost use Rattle.judge_spec.specs.Rules.{number_of};
ghost use Rattle.pool_core.specs.SpendPayments.{is_paying, payment_of, ArePayments};
ghost use Rattle.pool_core.specs.Costs.{added_cost, grown_cost, HasCost};
ghost use Rattle.pool_core.specs.Verdicts.{IsRefusal};
ghost use Rattle.pool_core.specs.declared.fault.AdmitFault.TheVariants as admit_fault;

use crate::fault::AdmitFault;
use crate::ids::{created_ids, first_repeat, first_unknown, spent_ids};
use crate::payment::{Payment, payments};
use crate::sums::{created_amount, spent_amount};
use block_form::{Bundle, Spend, added_bytes};
use block_spec::EMPTY_GENERATOR_BYTES;
use clvm_spec::costs::QUOTE_COST;
use coin_facts::Hash32;
use coin_store::Store;
use cond_spec::costs::CREATE_COIN_COST;
use judge_spec::Rule;
use judge_spec::costs::BYTE_COST;
use judge_spec::limits::GREATEST_MAX_COST;
use pool_spec::Limits;
use std::alloc::Global;

// What a list without spends costs: the bytes of its generator.
const BASE_COST: u64 = BYTE_COST * EMPTY_GENERATOR_BYTES;

/// What a list of spends costs, and the fee that it leaves.
#[derive(Clone, Copy, Debug)]
pub(crate) struct Fine {
    pub(crate) cost: u64,
    pub(crate) fee: u128,
}

/// The rule that is broken, and at which spend.
#[derive(Clone, Copy, Debug)]
struct Breach {
    rule: Rule,
    place: u32,
}

impl From<Breach> for AdmitFault {
    ghost from_gives = { λ breach fault. fault ≡ admit_fault.Refused (number_of breach.rule) breach.place };

    fn from(breach: Breach) -> AdmitFault {
        AdmitFault::Refused {
            rule: breach.rule.number(),
            place: breach.place,
        }
    }
}

// What a spend adds to the cost of its list.
fn added_cost(spend: &Spend, payment: &Payment) -> u64
    requires pays { is_paying spend.now ≡ true }
    requires payment { payment.now ≡ payment_of spend.now }
    ensures value { result ≡ added_cost spend.now }
    ensures small { result < 2 ^ 60 }
{
    let coins = payment.created.as_slice().len() as u64;
    BYTE_COST * added_bytes(spend) + (u64::from(QUOTE_COST) + CREATE_COIN_COST * coins)
}

// The cost with one spend more, or the rule that is broken at it.
fn grown_cost(spend: &Spend, payment: &Payment, cost: u64, limit: u64) -> Result<u64, Rule>
    requires pays { is_paying spend.now ≡ true }
    requires payment { payment.now ≡ payment_of spend.now }
    requires small { cost < 2 ^ 60 }
    ensures { result ≡ grown_cost limit cost spend.now }
{
    if payment.puzzle_hash != spend.coin.puzzle_hash {
        return Err(Rule::WrongPuzzleHash);
    }
    let grown = cost + added_cost(spend, payment);
    if grown > limit {
        Err(Rule::TooCostly)
    } else {
        Ok(grown)
    }
}

// The rules 3 and 5, spend by spend; the cost where neither is broken.
fn list_cost(spends: &[Spend], payments: &[Payment], limit: u64) -> Result<u64, Breach>
    requires limit { limit ≤ GREATEST_MAX_COST }
    requires few { length spends.now < 2 ^ 32 }
    requires payments { ArePayments spends.now payments.now }
    ensures ok { IfOk result (HasCost limit spends.now) }
    ensures err { IfErr result (λ breach. (after : Verdict) → spend_by_spend limit [] spends.now after ≡ Broken (number_of breach.rule) breach.place) }
{
    let mut cost = BASE_COST;
    for (place, spend) in spends.iter().enumerate() {
        match grown_cost(spend, &payments[place], cost, limit) {
            Ok(grown) => cost = grown,
            Err(rule) => {
                return Err(Breach {
                    rule,
                    place: place as u32,
                });
            }
        }
    }
    Ok(cost)
}

// What is found of spends whose puzzles all pay, before the chain is asked whether they are spent: their cost and fee, or
// the first broken rule with its place.
fn judge(alloc: Global, store: &Store, spends: &[Spend], limit: u64) -> Result<Fine, AdmitFault>
    requires limit { limit ≤ GREATEST_MAX_COST }
    requires few { length spends.now < 2 ^ 32 }
    requires pays { list_all is_paying spends.now ≡ true }
    ensures ok { IfOk result (λ fine. payment_verdict store.now spends.now limit ≡ judged.Fine fine.cost fine.fee) }
    ensures small { IfOk result (λ fine. fine.fee < 2 ^ 96) }
    ensures positive { IfOk result (λ fine. 1 ≤ fine.cost) }
    ensures err { IfErr result (IsRefusal (payment_verdict store.now spends.now limit)) }
{
    let spent = spent_ids(alloc, spends)?;
    if let Some(place) = first_repeat(alloc, &spent)? {
        return Err(AdmitFault::Refused {
            rule: Rule::SpentTwice.number(),
            place: place as u32,
        });
    }
    let Some(payments) = payments(alloc, spends)? else {
        unreachable!()
    };
    let cost = list_cost(spends, &payments, limit)?;
    let created = created_ids(alloc, &payments)?;
    if let Some(place) = first_unknown(alloc, store, &spent, &created)? {
        return Err(AdmitFault::Refused {
            rule: Rule::UnknownCoin.number(),
            place: place as u32,
        });
    }
    let fee = spent_amount(spends).saturating_sub(created_amount(&payments));
    Ok(Fine { cost, fee })
}

fn is_spent(store: &Store, id: &Hash32) -> bool
    ensures { result ≡ is_spent (look_up (ledger_of store.now) id.now) }
{
    match store.look_up(id) {
        Some(record) => record.spent.is_some(),
        None => false,
    }
}

// The first spend of a coin that is spent in the chain.
fn first_spent(store: &Store, spends: &[Spend]) -> Option<usize>
    ensures value { result ≡ spent_coin store.now spends.now }
    ensures within { IfSome result (λ p. p < length spends.now) }
{
    spends
        .iter()
        .position(|spend| is_spent(store, &spend.coin.id()))
}

/// The verdict on a payment: its cost and fee, or the first broken rule with its place.
pub(crate) fn judge_payment(
    alloc: Global,
    store: &Store,
    bundle: &Bundle,
    limits: &Limits,
) -> Result<Fine, AdmitFault>
    requires payment { is_payment store.now bundle.now ≡ true }
    ensures ok { IfOk result (λ fine. judgement (terms_of limits.now) (ledger_of store.now) bundle.now.spends bundle.now.attested ≡ judged.Fine fine.cost fine.fee) }
    ensures small { IfOk result (λ fine. fine.fee < 2 ^ 96) }
    ensures positive { IfOk result (λ fine. 1 ≤ fine.cost) }
    ensures err { IfErr result (IsRefusal (judgement (terms_of limits.now) (ledger_of store.now) bundle.now.spends bundle.now.attested)) }
{
    let spends = bundle.spends.as_slice();
    let fine = judge(alloc, store, spends, limits.max_cost)?;
    match first_spent(store, spends) {
        Some(place) => Err(AdmitFault::Refused {
            rule: Rule::SpentInChain.number(),
            place: place as u32,
        }),
        None => Ok(fine),
    }
}
