//! The rule on what is to be signed.
ghost use Rattle.std.specs.Prelude.{◌≡◌, ◌++◌, ◌∷◌, [], ◌<◌, length, not, position, IfOk, IfSome};
ghost use Rattle.std.specs.List.{list_all};
ghost use Rattle.sha2.specs.Sha256.{sha256};
ghost use Rattle.cond_spec.specs.Acts.{of_spend};
ghost use Rattle.cond_spec.specs.Signing.{amount_bytes, only, bound, to_sign};
ghost use Rattle.judge_spec.specs.Facts.{acts_of};
ghost use Rattle.judge_spec.specs.Checks.{first_spend, is_not_attested};
ghost use Rattle.block_judge.specs.Breaches.{scene_on};
ghost use Rattle.block_judge.specs.Signatures.{HasPairs, is_in, wanted};

use block_form::{Attested, Signed};
use clvm_spec::shortest_bytes;
use coin_facts::{Bytes, Coin, Hash32, OutOfMemory};
use coin_store::Coins;
use cond_parse::Condition;
use cond_spec::codes::{
    AGG_SIG_AMOUNT, AGG_SIG_PARENT, AGG_SIG_PARENT_AMOUNT, AGG_SIG_PARENT_PUZZLE, AGG_SIG_PUZZLE,
    AGG_SIG_PUZZLE_AMOUNT,
};
use sha2::{Digest, Sha256};
use spend_run::Facts;
use std::alloc::Global;
use std::collections::HashSet;

/// A message and the key that signs it.
#[derive(Debug, Drop, PartialEq, Eq, Hash)]
pub(crate) struct Pair {
    pub(crate) key: Bytes,
    pub(crate) message: Bytes,
}

// The set of the attested pairs.
fn pair_set(alloc: Global, attested: &[Signed]) -> Result<HashSet<Pair>, OutOfMemory>
    ensures { IfOk result (λ set. HasPairs set attested.now) }
{
    let mut set = HashSet::new(alloc);
    for signed in attested {
        let key = signed.key.copy(alloc)?;
        let message = signed.message.copy(alloc)?;
        set.insert(Pair { key, message })?;
    }
    Ok(set)
}

// The bytes of four parts, one behind another.
fn joined(
    alloc: Global,
    text: &[u8],
    first: &[u8],
    second: &[u8],
    last: &[u8],
) -> Result<Bytes, OutOfMemory>
    ensures { IfOk result (λ bytes. bytes ≡ (text.now ++ first.now ++ second.now) ++ last.now) }
{
    let mut bytes = Vec::from_slice(alloc, text)?;
    bytes.extend_from_slice(first)?;
    bytes.extend_from_slice(second)?;
    bytes.extend_from_slice(last)?;
    Ok(Bytes::from_vec(bytes))
}

// What binds a message of this code to a chain.
fn binding(genesis: &Hash32, code: u8) -> [u8; 32]
    ensures { result ≡ sha256 (genesis.now.bytes ++ code ∷ []) }
{
    let mut hasher = Sha256::new();
    hasher.update(genesis.bytes);
    hasher.update([code]);
    hasher.finalize()
}

// The pair of a key, and a text with two parts behind it and a last one.
fn with_key(
    alloc: Global,
    key: &Bytes,
    text: &Bytes,
    first: &[u8],
    second: &[u8],
    last: &[u8],
) -> Result<Option<Pair>, OutOfMemory>
    ensures { IfOk result (λ pair. wanted pair ≡ only key.now ((text.now ++ first.now ++ second.now) ++ last.now)) }
{
    let key = key.copy(alloc)?;
    let message = joined(alloc, text.as_slice(), first, second, last)?;
    Ok(Some(Pair { key, message }))
}

// The pair of a key, and a text with two parts behind it and what binds it to the chain.
fn bound(
    alloc: Global,
    genesis: &Hash32,
    code: u8,
    key: &Bytes,
    text: &Bytes,
    first: &[u8],
    second: &[u8],
) -> Result<Option<Pair>, OutOfMemory>
    ensures { IfOk result (λ pair. wanted pair ≡ bound genesis.now code key.now (text.now ++ first.now ++ second.now)) }
{
    let last = binding(genesis, code);
    with_key(alloc, key, text, first, second, last.as_slice())
}

// The same with one part and the coin's amount.
fn bound_amount(
    alloc: Global,
    genesis: &Hash32,
    code: u8,
    key: &Bytes,
    text: &Bytes,
    first: &[u8],
    coin: &Coin,
) -> Result<Option<Pair>, OutOfMemory>
    ensures { IfOk result (λ pair. wanted pair ≡ bound genesis.now code key.now (text.now ++ first.now ++ amount_bytes coin.now)) }
{
    let amount = u128::from(coin.amount).to_be_bytes();
    let amount = shortest_bytes(amount.as_slice());
    bound(alloc, genesis, code, key, text, first, amount)
}

// What a condition wants signed.
fn to_sign(
    alloc: Global,
    genesis: &Hash32,
    coin: &Coin,
    condition: &Condition,
) -> Result<Option<Pair>, OutOfMemory>
    ensures { IfOk result (λ pair. wanted pair ≡ to_sign genesis.now coin.now condition.now) }
{
    let parent = coin.parent.bytes.as_slice();
    let puzzle = coin.puzzle_hash.bytes.as_slice();
    match condition {
        Condition::AggSigParent { key, text } => {
            bound(alloc, genesis, AGG_SIG_PARENT, key, text, parent, &[])
        }
        Condition::AggSigPuzzle { key, text } => {
            bound(alloc, genesis, AGG_SIG_PUZZLE, key, text, puzzle, &[])
        }
        Condition::AggSigParentPuzzle { key, text } => bound(
            alloc,
            genesis,
            AGG_SIG_PARENT_PUZZLE,
            key,
            text,
            parent,
            puzzle,
        ),
        Condition::AggSigAmount { key, text } => {
            bound_amount(alloc, genesis, AGG_SIG_AMOUNT, key, text, &[], coin)
        }
        Condition::AggSigPuzzleAmount { key, text } => {
            bound_amount(
                alloc,
                genesis,
                AGG_SIG_PUZZLE_AMOUNT,
                key,
                text,
                puzzle,
                coin,
            )
        }
        Condition::AggSigParentAmount { key, text } => {
            bound_amount(
                alloc,
                genesis,
                AGG_SIG_PARENT_AMOUNT,
                key,
                text,
                parent,
                coin,
            )
        }
        Condition::AggSigUnsafe { key, text } => with_key(alloc, key, text, &[], &[], &[]),
        Condition::AggSigMe { key, text } => with_key(
            alloc,
            key,
            text,
            coin.id().bytes.as_slice(),
            genesis.bytes.as_slice(),
            &[],
        ),
        _ => Ok(None),
    }
}

// Whether what a condition wants signed is in the set.
fn is_signed(
    alloc: Global,
    genesis: &Hash32,
    attested: &HashSet<Pair>,
    coin: &Coin,
    condition: &Condition,
) -> Result<bool, OutOfMemory>
    ensures { IfOk result (λ signed. signed ≡ list_all (is_in attested.now) (to_sign genesis.now coin.now condition.now)) }
{
    match to_sign(alloc, genesis, coin, condition)? {
        Some(pair) => Ok(attested.contains(&pair)),
        None => Ok(true),
    }
}

// Whether all is in the set that a spend wants signed.
fn are_signed(
    alloc: Global,
    genesis: &Hash32,
    attested: &HashSet<Pair>,
    facts: &Facts,
) -> Result<bool, OutOfMemory>
    ensures { IfOk result (λ signed. signed ≡ list_all (is_in attested.now) (of_spend (to_sign genesis.now) (acts_of facts.now))) }
{
    let coin = facts.spend().coin;
    let conditions = facts.conditions().as_slice();
    for condition in conditions {
        if !is_signed(alloc, genesis, attested, &coin, condition)? {
            return Ok(false);
        }
    }
    Ok(true)
}

// The first spend that wants something signed that isn't in the set.
fn unsigned(
    alloc: Global,
    genesis: &Hash32,
    attested: &HashSet<Pair>,
    list: &[Facts],
) -> Result<Option<usize>, OutOfMemory>
    ensures value { IfOk result (λ place. place ≡ position (λ facts. not (list_all (is_in attested.now) (of_spend (to_sign genesis.now) (acts_of facts)))) list.now) }
    ensures within { IfOk result (λ place. IfSome place (λ p. p < length list.now)) }
{
    for (place, facts) in list.iter().enumerate() {
        if !are_signed(alloc, genesis, attested, facts)? {
            return Ok(Some(place));
        }
    }
    Ok(None)
}

/// The first spend that wants something signed that isn't attested, on a chain of this genesis data.
pub(crate) fn unattested<C: Coins>(
    alloc: Global,
    coins: &C,
    list: &[Facts],
    attested: &Attested,
) -> Result<Option<usize>, OutOfMemory>
    ensures value { IfOk result (λ place. place ≡ first_spend is_not_attested (scene_on (C.seen coins.now) list.now attested.now)) }
    ensures within { IfOk result (λ place. IfSome place (λ p. p < length list.now)) }
{
    let attested = pair_set(alloc, attested.as_slice())?;
    unsigned(alloc, &coins.genesis(), &attested, list)
}
