//! Expected ids and costs come from a program outside the repository.
ghost use Rattle.std.specs.Prelude.{◌≡◌, ◌≤◌, [], IfOk, IsTrue};
ghost use Rattle.clvm_spec.specs.Spelled.{is_spelled};

use super::*;
use block_form::{Attested, Signed, Spends};
use clvm_tree::Trees;
use coin_facts::{Bytes, Coin};
use judge_spec::limits::{
    DEFAULT_MAX_COST, DEFAULT_POOL_COST, GREATEST_MAX_COST, GREATEST_POOL_COST,
};
use std::test::Fail;

const ZERO: Hash32 = Hash32 { bytes: [0; 32] };

fn hash(high: u128, low: u128) -> Hash32 {
    let mut bytes = [0; 32];
    bytes[..16].copy_from_slice(high.to_be_bytes().as_slice());
    bytes[16..].copy_from_slice(low.to_be_bytes().as_slice());
    Hash32 { bytes }
}

// The tree hash of the atom 01.
fn one() -> Hash32 {
    hash(
        0x9dcf97a184f32623d11a73124ceb99a5,
        0x709b083721e878a16d78f596718ba7b2,
    )
}

// The tree hash of the puzzle that pays nobody.
fn nobody() -> Hash32 {
    hash(
        0xba4484b961b7a2369d948d06c55b64bd,
        0xbfaffb326bc13b490ab1215dd33d8d46,
    )
}

// The bytes of (q . X), where X pays amounts to a hash: the first, and so on up to the last, which it doesn't pay.
fn puzzle(alloc: Global, to: Hash32, first: u16, last: u16) -> Result<Vec<u8>, OutOfMemory> {
    let mut bytes = Vec::new(alloc);
    bytes.extend_from_slice(&[0xff, 0x01])?;
    for amount in first..last {
        bytes.extend_from_slice(&[0xff, 0xff, 0x33, 0xff, 0xa0])?;
        bytes.extend_from_slice(to.bytes.as_slice())?;
        bytes.push(0xff)?;
        let [high, low] = amount.to_be_bytes();
        if amount >= 0x80 {
            bytes.extend_from_slice(&[0x82, high])?;
        }
        bytes.push(low)?;
        bytes.push(0x80)?;
    }
    bytes.push(0x80)?;
    Ok(bytes)
}

fn coin(puzzle_hash: Hash32, amount: u64) -> Coin {
    Coin {
        parent: ZERO,
        puzzle_hash,
        amount,
    }
}

// A coin whose puzzle pays 900 to the hash of the atom 01.
fn payer() -> Coin {
    let puzzle_hash = hash(
        0x8009c552ce67831735d9e30ab7d2a637,
        0x572438a11365ca9ea008a894176e774f,
    );
    coin(puzzle_hash, 1000)
}

fn spelled(alloc: Global, bytes: &[u8]) -> Result<Bytes, Fail>
    ensures { IfOk result (λ b. IsTrue (is_spelled b)) }
{
    if bytes.len() > 1 << 20 {
        return Err(Fail::from(OutOfMemory));
    }
    Trees::new(alloc).read_whole(alloc, bytes)?;
    Ok(Bytes::from_vec(Vec::from_slice(alloc, bytes)?))
}

// A bundle that spends coins, each with its puzzle, and the solution 80.
fn bundle(alloc: Global, coins: &[(Coin, &[u8])]) -> Result<Bundle, Fail> {
    let mut spends = Spends::new(alloc);
    for (coin, puzzle) in coins {
        let spend = Spend {
            coin: *coin,
            puzzle: spelled(alloc, puzzle)?,
            solution: spelled(alloc, &[0x80])?,
        };
        if spends.as_slice().len() > 1000 {
            return Err(Fail::from(OutOfMemory));
        }
        spends.push(alloc, spend)?;
    }
    Ok(Bundle {
        spends,
        attested: Attested::new(alloc),
    })
}

fn limits(max_cost: u64, pool_cost: u64) -> Limits
    requires list { max_cost ≤ GREATEST_MAX_COST }
    requires pool { pool_cost ≤ GREATEST_POOL_COST }
{
    Limits {
        max_cost,
        pool_cost,
        reward: 0,
        singleton: ZERO,
    }
}

fn ample() -> Limits {
    limits(DEFAULT_MAX_COST, DEFAULT_POOL_COST)
}

// A pool on a chain with these coins.
fn pool(alloc: Global, coins: &[Coin], limits: Limits) -> Result<Pool, Fail>
    ensures { IfOk result (λ pool. pool.bundles ≡ []) }
{
    let mut store = Store::new(alloc, ZERO, 90);
    for coin in coins {
        store.start_coin(alloc, *coin)?;
    }
    Ok(Pool::new(alloc, store, limits))
}

// Whether these spends are a payment.
fn pays(alloc: Global, chain: &[Coin], coins: &[(Coin, &[u8])]) -> Result<bool, Fail> {
    let pool = pool(alloc, chain, ample())?;
    let bundle = bundle(alloc, coins)?;
    Ok(pool.is_payment(alloc, &bundle)?)
}

type Answer = Result<(Hash32, u128, u64), AdmitFault>;

// The answer to a payment. The pool then has its fee and cost, or nothing.
fn admit(
    alloc: Global,
    chain: &[Coin],
    coins: &[(Coin, &[u8])],
    limits: Limits,
) -> Result<Answer, Fail> {
    let mut pool = pool(alloc, chain, limits)?;
    let bundle = bundle(alloc, coins)?;
    if !pool.is_payment(alloc, &bundle)? {
        return Err(Fail::from(OutOfMemory));
    }
    let answer = match pool.admit(alloc, bundle) {
        Ok(admitted) => Ok((admitted.id, admitted.fee, admitted.cost)),
        Err(fault) => Err(fault),
    };
    let held = match pool.items() {
        [] => None,
        [item, ..] => Some((item.fee(), item.cost())),
    };
    if held != answer.ok().map(|(_, fee, cost)| (fee, cost)) {
        return Err(Fail::from(OutOfMemory));
    }
    Ok(answer)
}

fn refused(rule: u8, place: u32) -> Option<AdmitFault> {
    Some(AdmitFault::Refused { rule, place })
}

// How a payment is refused within each of these limits, None where it is admitted.
fn faults(
    alloc: Global,
    chain: &[Coin],
    coins: &[(Coin, &[u8])],
    limits_of: &[(u32, u32)],
) -> Result<Vec<Option<AdmitFault>>, Fail> {
    let mut found = Vec::new(alloc);
    for (max_cost, pool_cost) in limits_of {
        let within = limits(u64::from(*max_cost), u64::from(*pool_cost));
        let answer = admit(alloc, chain, coins, within)?;
        found.push(answer.err())?;
    }
    Ok(found)
}

#[test]
fn admits_payments_with_their_id_fee_and_cost(rt: HostRuntime) -> Result<(), Fail> {
    let alloc = rt.alloc();
    let pays = puzzle(alloc, one(), 900, 901)?;
    let no_pay = puzzle(alloc, one(), 0, 0)?;
    let one_spend = [(payer(), pays.as_slice())];
    let one_id = hash(
        0x0049f836c0a4eaf7a39ffe1bd3559fcc,
        0x34785a8b7df3a5a1075880f92c0bf39e,
    );
    let answer = admit(alloc, &[payer()], &one_spend, ample())?;
    assert_eq!(rt; answer, Ok((one_id, 100, 2_916_020)));

    let small = coin(nobody(), 7);
    let two_spends = [(payer(), pays.as_slice()), (small, no_pay.as_slice())];
    let two_id = hash(
        0x784a70babb2359ee72c41df2d5f105ec,
        0x37f71db8f1384dda22ae4668f06a5f27,
    );
    let answer = admit(alloc, &[small, payer()], &two_spends, ample())?;
    assert_eq!(rt; answer, Ok((two_id, 107, 3_444_040)));
    Ok(())
}

#[test]
fn admits_payments_of_many_coins(rt: HostRuntime) -> Result<(), Fail> {
    let alloc = rt.alloc();
    let pays_500_coins = hash(
        0xf60f261a0e6f509aec96f4631e896a54,
        0x79dedde90d894f11497150e74775536a,
    );
    let rich = coin(pays_500_coins, 200_000);
    let pays = puzzle(alloc, one(), 1, 501)?;
    let rich_id = hash(
        0x9e2cbdaf03632e8b83a59c91d688ae50,
        0xec02d71c762cee0c52dcc038fbca8e3a,
    );
    let answer = admit(alloc, &[rich], &[(rich, pays.as_slice())], ample())?;
    assert_eq!(rt; answer, Ok((rich_id, 74_750, 1_149_576_020)));

    let no_pay = puzzle(alloc, one(), 0, 0)?;
    let mut chain = Vec::new(alloc);
    let mut spends = Vec::new(alloc);
    for amount in 1000..1140 {
        chain.push(coin(nobody(), amount))?;
        spends.push((coin(nobody(), amount), no_pay.as_slice()))?;
    }
    let many_id = hash(
        0xe54457c3abda2e4aa2435c567097068d,
        0xc93ab8c58ead889f00447cfba8d3ec3b,
    );
    let answer = admit(alloc, &chain, &spends, ample())?;
    assert_eq!(rt; answer, Ok((many_id, 149_730, 77_342_800)));
    Ok(())
}

#[test]
fn a_coin_is_made_and_spent_in_one_bundle(rt: HostRuntime) -> Result<(), Fail> {
    let alloc = rt.alloc();
    let pays_900_on = hash(
        0x4d27f785332aefd7bb1707223e54673a,
        0xeb2a8e75b9a55e0aa906ab0741708967,
    );
    let maker = coin(pays_900_on, 1000);
    let made = Coin {
        parent: maker.id(),
        puzzle_hash: nobody(),
        amount: 900,
    };
    let pays = puzzle(alloc, nobody(), 900, 901)?;
    let no_pay = puzzle(alloc, nobody(), 0, 0)?;
    let forth = [(maker, pays.as_slice()), (made, no_pay.as_slice())];
    let forth_id = hash(
        0x3905a7554405d86b141792ce36866e40,
        0x9d53a6e15ea5b94e2c0d658025d145ff,
    );
    let answer = admit(alloc, &[maker], &forth, ample())?;
    assert_eq!(rt; answer, Ok((forth_id, 1000, 3_468_040)));
    let back = [(made, no_pay.as_slice()), (maker, pays.as_slice())];
    let back_id = hash(
        0x49533b58edfc9a372e668cdef0e94529,
        0xa5c12b941014c692b1f5879eaa705cb8,
    );
    let answer = admit(alloc, &[maker], &back, ample())?;
    assert_eq!(rt; answer, Ok((back_id, 1000, 3_468_040)));
    // The coin that makes it isn't spent.
    let answer = admit(alloc, &[maker], &[(made, no_pay.as_slice())], ample())?;
    assert_eq!(rt; answer, Err(AdmitFault::Refused { rule: 11, place: 0 }));
    Ok(())
}

#[test]
fn limits_are_met_at_the_cost(rt: HostRuntime) -> Result<(), Fail> {
    let alloc = rt.alloc();
    let pays = puzzle(alloc, one(), 900, 901)?;
    let no_pay = puzzle(alloc, one(), 0, 0)?;
    let small = coin(nobody(), 7);
    let one_spend = [(payer(), pays.as_slice())];
    let within = [
        (2_916_020, u32::MAX),
        (2_916_019, u32::MAX),
        (u32::MAX, 2_916_020),
        (u32::MAX, 2_916_019),
    ];
    let want = [None, refused(5, 0), None, refused(34, 0)];
    let found = faults(alloc, &[payer()], &one_spend, &within)?;
    assert_eq!(rt; found.as_slice(), want.as_slice());

    let two_spends = [(payer(), pays.as_slice()), (small, no_pay.as_slice())];
    let within = [
        (3_444_040, 3_444_040),
        (3_444_039, 3_444_039),
        (2_916_019, 3_444_039),
        (3_444_040, 3_444_039),
    ];
    let want = [None, refused(5, 1), refused(5, 0), refused(34, 0)];
    let found = faults(alloc, &[payer(), small], &two_spends, &within)?;
    assert_eq!(rt; found.as_slice(), want.as_slice());
    Ok(())
}

#[test]
fn refuses_by_the_first_broken_rule(rt: HostRuntime) -> Result<(), Fail> {
    let alloc = rt.alloc();
    let pays = puzzle(alloc, one(), 900, 901)?;
    let no_pay = puzzle(alloc, one(), 0, 0)?;
    let other = (coin(one(), 7), no_pay.as_slice());
    let unknown = (coin(nobody(), 7), no_pay.as_slice());
    let ample = (u32::MAX, u32::MAX);
    let chain = [payer()];

    let spent_twice = [other, other];
    let found = faults(alloc, &chain, &spent_twice, &[ample, (0, 0)])?;
    assert_eq!(rt; found.as_slice(), [refused(2, 1), refused(2, 1)].as_slice());
    let wrong_puzzle = [(payer(), no_pay.as_slice()), unknown];
    let found = faults(alloc, &chain, &wrong_puzzle, &[ample, (0, 0)])?;
    assert_eq!(rt; found.as_slice(), [refused(3, 0), refused(3, 0)].as_slice());
    let second_wrong = [(payer(), pays.as_slice()), other];
    let found = faults(
        alloc,
        &chain,
        &second_wrong,
        &[(2_916_019, 0), (2_916_020, 0)],
    )?;
    assert_eq!(rt; found.as_slice(), [refused(5, 0), refused(3, 1)].as_slice());
    let second_unknown = [(payer(), pays.as_slice()), unknown];
    let found = faults(
        alloc,
        &chain,
        &second_unknown,
        &[(3_444_039, 0), (3_444_040, 0)],
    )?;
    assert_eq!(rt;
        found.as_slice(),
        [refused(5, 1), refused(11, 1)].as_slice()
    );
    Ok(())
}

#[test]
fn other_bundles_are_no_payments(rt: HostRuntime) -> Result<(), Fail> {
    let alloc = rt.alloc();
    let puzzle = puzzle(alloc, one(), 900, 901)?;
    let made = Coin {
        parent: payer().id(),
        puzzle_hash: one(),
        amount: 900,
    };
    let spend = (payer(), puzzle.as_slice());
    let poor = (coin(payer().puzzle_hash, 899), puzzle.as_slice());
    let no_spend = pays(alloc, &[payer()], &[])?;
    let unquoted = pays(alloc, &[payer()], &[(payer(), &[0x01])])?;
    let made_already = pays(alloc, &[payer(), made], &[spend])?;
    let made_twice = pays(alloc, &[payer()], &[spend, spend])?;
    let too_poor = pays(alloc, &[], &[poor])?;
    assert!(rt; !no_spend && !unquoted && !made_already && !made_twice && !too_poor);
    let pool = pool(alloc, &[payer()], ample())?;
    let mut signed = bundle(alloc, &[spend])?;
    let key = Bytes::from_vec(vec![in alloc; 0; 48]?);
    let message = Bytes::from_vec(Vec::new(alloc));
    assert!(rt; key.as_slice().len() == 48 && message.as_slice().is_empty());
    assert!(rt; signed.attested.as_slice().is_empty());
    signed.attested.push(alloc, Signed { key, message })?;
    let pays = pool.is_payment(alloc, &signed)?;
    assert!(rt; !pays);
    assert_eq!(rt; pool.store().start_coins().len(), 1);
    assert_eq!(rt; pool.limits().max_cost, DEFAULT_MAX_COST);
    Ok(())
}
