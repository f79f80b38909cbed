// Lists of spends over a small chain.
ghost use Rattle.std.specs.Prelude.{IfOk, IsTrue};
ghost use Rattle.clvm_spec.specs.Spelled.{is_spelled};

use super::*;
use block_form::{Attested, Spend, Spends};
use clvm_tree::Trees;
use coin_facts::{Bytes, Coin, Hash32};
use coin_store::Store;
use judge_spec::limits::DEFAULT_MAX_COST;
use spend_run::{FactList, facts};
use std::alloc::Global;
use std::test::Fail;

// The puzzle that gives its solution, and its tree hash.
const SOLUTION: &[u8] = &[0x01];

const SOLUTION_HASH: Hash32 = Hash32 {
    bytes: [
        0x9d, 0xcf, 0x97, 0xa1, 0x84, 0xf3, 0x26, 0x23, 0xd1, 0x1a, 0x73, 0x12, 0x4c, 0xeb, 0x99,
        0xa5, 0x70, 0x9b, 0x08, 0x37, 0x21, 0xe8, 0x78, 0xa1, 0x6d, 0x78, 0xf5, 0x96, 0x71, 0x8b,
        0xa7, 0xb2,
    ],
};

const GENESIS: Hash32 = Hash32 { bytes: [0x11; 32] };

fn spelled(alloc: Global, bytes: &[u8]) -> Result<Bytes, Fail>
    ensures { IfOk result (λ b. IsTrue (is_spelled b)) }
{
    if bytes.len() > 1 << 20 {
        return Err(Fail::from(OutOfMemory));
    }
    Trees::new(alloc).read_whole(alloc, bytes)?;
    Ok(Bytes::from_vec(Vec::from_slice(alloc, bytes)?))
}

// A coin of the puzzle that gives its solution.
fn coin(parent: Hash32, amount: u64) -> Coin {
    Coin {
        parent,
        puzzle_hash: SOLUTION_HASH,
        amount,
    }
}

// The coin of 1000 mojos that the chain has from the start.
fn first_coin() -> Coin {
    coin(Hash32 { bytes: [0; 32] }, 1000)
}

/// The atom that a condition is about.
#[derive(Clone, Copy, Debug)]
enum Atom {
    None,
    PuzzleHash,
    Genesis,
    Key,
}

// The condition that has this atom between these bytes.
fn condition(alloc: Global, front: &[u8], atom: Atom, behind: &[u8]) -> Result<Vec<u8>, Fail> {
    let mut bytes = Vec::from_slice(alloc, front)?;
    match atom {
        Atom::None => {}
        Atom::PuzzleHash => bytes.extend_from_slice(&SOLUTION_HASH.bytes)?,
        Atom::Genesis => bytes.extend_from_slice(&GENESIS.bytes)?,
        Atom::Key => bytes.extend_from_slice(&[0x22; 48])?,
    }
    bytes.extend_from_slice(behind)?;
    Ok(bytes)
}

/// What a spend's solution asks for.
#[derive(Clone, Copy, Debug)]
enum Solution {
    Nothing,
    // a coin of 900 mojos
    Payment,
    // no second may have passed since the coin was made
    Lock,
}

fn solution_of(alloc: Global, solution: Solution) -> Result<Vec<u8>, Fail> {
    let mut bytes = match solution {
        Solution::Nothing => Vec::new(alloc),
        Solution::Payment => condition(
            alloc,
            &[0xff, 0xff, 0x33, 0xff, 0xa0],
            Atom::PuzzleHash,
            &[0xff, 0x82, 0x03, 0x84, 0x80],
        )?,
        Solution::Lock => Vec::from_slice(alloc, &[0xff, 0xff, 0x50, 0xff, 0x80, 0x80])?,
    };
    bytes.push(0x80)?;
    Ok(bytes)
}

fn spend(alloc: Global, coin: Coin, solution: &[u8]) -> Result<Spend, Fail> {
    Ok(Spend {
        coin,
        puzzle: spelled(alloc, SOLUTION)?,
        solution: spelled(alloc, solution)?,
    })
}

// The verdict on spends of these coins with these solutions, where the chain has these coins.
fn verdict(
    alloc: Global,
    chain: &[Coin],
    list: &[(Coin, Solution)],
    limit: u64,
) -> Result<Verdict, Fail> {
    let mut spends = Spends::new(alloc);
    for (coin, solution) in list {
        let solution = solution_of(alloc, *solution)?;
        let spend = spend(alloc, *coin, solution.as_slice())?;
        if spends.has_room() {
            spends.push(alloc, spend)?;
        }
    }
    judged(alloc, chain, &spends, limit)
}

fn judged(alloc: Global, chain: &[Coin], spends: &Spends, limit: u64) -> Result<Verdict, Fail> {
    let mut store = Store::new(alloc, GENESIS, 0);
    for coin in chain {
        let _ = store.start_coin(alloc, *coin);
    }
    let limit = limit.min(GREATEST_MAX_COST);
    Ok(judge(alloc, &store, spends, &Attested::new(alloc), limit)?)
}

#[test]
fn rules_that_one_condition_breaks(rt: HostRuntime) -> Result<(), Fail> {
    let alloc = rt.alloc();
    let rows: [(&[u8], Atom, &[u8], u8, u32); 13] = [
        // (51 ONE), (2), (73 1), (75 1), (83 1), (87 0)
        (
            &[0xff, 0xff, 0x33, 0xff, 0xa0],
            Atom::PuzzleHash,
            &[0x80],
            7,
            0,
        ),
        (&[0xff, 0xff, 0x02, 0x80], Atom::None, &[], 8, 0),
        (
            &[0xff, 0xff, 0x49, 0xff, 0x01, 0x80],
            Atom::None,
            &[],
            10,
            0,
        ),
        (
            &[0xff, 0xff, 0x4b, 0xff, 0x01, 0x80],
            Atom::None,
            &[],
            13,
            0,
        ),
        (
            &[0xff, 0xff, 0x53, 0xff, 0x01, 0x80],
            Atom::None,
            &[],
            14,
            0,
        ),
        (
            &[0xff, 0xff, 0x57, 0xff, 0x80, 0x80],
            Atom::None,
            &[],
            15,
            0,
        ),
        // (61 GENESIS), (64 GENESIS), (76), (66 63 0x68 GENESIS)
        (
            &[0xff, 0xff, 0x3d, 0xff, 0xa0],
            Atom::Genesis,
            &[0x80],
            16,
            0,
        ),
        (
            &[0xff, 0xff, 0x40, 0xff, 0xa0],
            Atom::Genesis,
            &[0x80],
            17,
            0,
        ),
        (&[0xff, 0xff, 0x4c, 0x80], Atom::None, &[], 18, 0),
        (
            &[0xff, 0xff, 0x42, 0xff, 0x3f, 0xff, 0x68, 0xff, 0xa0],
            Atom::Genesis,
            &[0x80],
            19,
            0,
        ),
        // (51 ONE 1001), (52 1001), (49 KEY 5)
        (
            &[0xff, 0xff, 0x33, 0xff, 0xa0],
            Atom::PuzzleHash,
            &[0xff, 0x82, 0x03, 0xe9, 0x80],
            20,
            1,
        ),
        (
            &[0xff, 0xff, 0x34, 0xff, 0x82, 0x03, 0xe9, 0x80],
            Atom::None,
            &[],
            21,
            1,
        ),
        (
            &[0xff, 0xff, 0x31, 0xff, 0xb0],
            Atom::Key,
            &[0xff, 0x05, 0x80],
            22,
            0,
        ),
    ];
    for (front, atom, behind, rule, place) in rows {
        let mut solution = condition(alloc, front, atom, behind)?;
        solution.push(0x80)?;
        let mut spends = Spends::new(alloc);
        spends.push(alloc, spend(alloc, first_coin(), solution.as_slice())?)?;
        let found = judged(alloc, &[first_coin()], &spends, DEFAULT_MAX_COST)?;
        assert_eq!(rt; found, Verdict::Broken { rule, place });
    }
    Ok(())
}

#[test]
fn rules_on_lists_and_chains(rt: HostRuntime) -> Result<(), Fail> {
    let alloc = rt.alloc();
    let first = first_coin();
    let created = coin(first.id(), 900);
    let paid = (first, Solution::Payment);
    let again = (created, Solution::Nothing);
    let most = DEFAULT_MAX_COST;
    let found = verdict(alloc, &[first], &[paid, paid], most)?;
    assert_eq!(rt; found, Verdict::Broken { rule: 2, place: 1 });
    let found = verdict(alloc, &[first], &[paid], 1_000_000)?;
    assert_eq!(rt; found, Verdict::Broken { rule: 5, place: 0 });
    let found = verdict(alloc, &[first], &[paid, again], 3_420_087)?;
    assert_eq!(rt; found, Verdict::Broken { rule: 5, place: 1 });
    let found = verdict(alloc, &[], &[paid], most)?;
    assert_eq!(rt; found, Verdict::Broken { rule: 11, place: 0 });
    let found = verdict(alloc, &[first], &[paid, (created, Solution::Lock)], most)?;
    assert_eq!(rt; found, Verdict::Broken { rule: 13, place: 1 });
    let found = verdict(alloc, &[first, created], &[paid], most)?;
    assert_eq!(rt; found, Verdict::Broken { rule: 23, place: 0 });
    Ok(())
}

#[test]
fn lists_that_break_no_rule(rt: HostRuntime) -> Result<(), Fail> {
    let alloc = rt.alloc();
    let first = first_coin();
    let created = coin(first.id(), 900);
    let paid = (first, Solution::Payment);
    let rows = [
        ((first, Solution::Nothing), 588_044, 1000),
        (paid, 2_892_044, 100),
    ];
    for (spend, cost, fee) in rows {
        let found = verdict(alloc, &[first], &[spend], cost)?;
        assert_eq!(rt; found, Verdict::Fine { cost, fee });
    }
    let fine = Verdict::Fine {
        cost: 3_420_088,
        fee: 1000,
    };
    let again = (created, Solution::Nothing);
    assert_eq!(rt;
        verdict(alloc, &[first], &[again, paid], DEFAULT_MAX_COST)?,
        fine
    );
    Ok(())
}

#[test]
fn facts_are_judged_like_their_spends(rt: HostRuntime) -> Result<(), Fail> {
    let alloc = rt.alloc();
    let mut store = Store::new(alloc, GENESIS, 0);
    let _ = store.start_coin(alloc, first_coin());
    let spend = spend(alloc, first_coin(), &[0x80])?;
    let mut list = FactList::new(alloc);
    if let Ok(found) = facts(alloc, &spend, DEFAULT_MAX_COST) {
        list.push(alloc, found)?;
    }
    let attested = Attested::new(alloc);
    let fine = Verdict::Fine {
        cost: 588_044,
        fee: 1000,
    };
    assert_eq!(rt;
        judge_facts(alloc, &store, &list, &attested, 588_044)?,
        fine
    );
    let costly = Verdict::Broken { rule: 5, place: 0 };
    assert_eq!(rt;
        judge_facts(alloc, &store, &list, &attested, 588_043)?,
        costly
    );
    Ok(())
}
