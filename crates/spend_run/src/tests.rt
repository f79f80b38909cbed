ghost use Rattle.std.specs.Prelude.{IfOk, IsTrue};
ghost use Rattle.clvm_spec.specs.Spelled.{is_spelled};

use super::*;
use block_form::Spend;
use clvm_tree::Trees;
use coin_facts::{Bytes, Coin, Hash32, OutOfMemory};
use judge_spec::limits::DEFAULT_MAX_COST;
use std::alloc::Global;
use std::test::Fail;

// The puzzle that gives its solution.
const SOLUTION: &[u8] = &[0x01];

const NOTHING: &[u8] = &[0x80];

fn spelled(alloc: Global, bytes: &[u8]) -> Result<Bytes, Fail>
    ensures { IfOk result (λ b. IsTrue (is_spelled b)) }
{
    if bytes.len() > 1 << 20 {
        return Err(Fail::from(OutOfMemory));
    }
    Trees::new(alloc).read_whole(alloc, bytes)?;
    Ok(Bytes::from_vec(Vec::from_slice(alloc, bytes)?))
}

fn hash_of(alloc: Global, puzzle: &[u8]) -> Result<Hash32, Fail> {
    if puzzle.len() > 1 << 20 {
        return Err(Fail::from(OutOfMemory));
    }
    let mut trees = Trees::new(alloc);
    let node = trees.read_whole(alloc, puzzle)?;
    Ok(Hash32 {
        bytes: trees.hash(alloc, node)?,
    })
}

// A spend of a coin of 1000 mojos.
fn spend(
    alloc: Global,
    puzzle_hash: Hash32,
    puzzle: &[u8],
    solution: &[u8],
) -> Result<Spend, Fail> {
    let parent = Hash32 { bytes: [0; 32] };
    Ok(Spend {
        coin: Coin {
            parent,
            puzzle_hash,
            amount: 1000,
        },
        puzzle: spelled(alloc, puzzle)?,
        solution: spelled(alloc, solution)?,
    })
}

#[test]
fn a_run_that_goes_wrong(rt: HostRuntime) -> Result<(), Fail> {
    let alloc = rt.alloc();
    let rows: [(&[u8], u64, SpendFault); 3] = [
        // (x)
        (&[0xff, 0x08, 0x80], DEFAULT_MAX_COST, SpendFault::Failed),
        // (lsh (q . 1) (q . 127))
        (
            &[
                0xff, 0x17, 0xff, 0xff, 0x01, 0x01, 0xff, 0xff, 0x01, 0x7f, 0x80,
            ],
            DEFAULT_MAX_COST,
            SpendFault::Wide,
        ),
        (SOLUTION, 43, SpendFault::Spent),
    ];
    for (puzzle, limit, fault) in rows {
        let spend = spend(alloc, hash_of(alloc, puzzle)?, puzzle, NOTHING)?;
        assert_eq!(rt; facts(alloc, &spend, limit).err(), Some(fault));
    }
    let other = Hash32 { bytes: [0; 32] };
    let spend = spend(alloc, other, SOLUTION, NOTHING)?;
    assert_eq!(rt;
        facts(alloc, &spend, DEFAULT_MAX_COST).err(),
        Some(SpendFault::PuzzleHash)
    );
    Ok(())
}

#[test]
fn conditions_that_go_wrong(rt: HostRuntime) -> Result<(), Fail> {
    let alloc = rt.alloc();
    let mut twice = Vec::new(alloc);
    for _ in 0..2 {
        twice.extend_from_slice(&[0xff, 0xff, 0x33, 0xff, 0xa0])?;
        twice.extend_from_slice(&[0x11; 32])?;
        twice.extend_from_slice(&[0xff, 0x05, 0x80])?;
    }
    twice.push(0x80)?;
    let rows: [(&[u8], SpendFault); 4] = [
        (&[0xff, 0xff, 0x33, 0x80, 0x80], SpendFault::Malformed(0)),
        (&[0xff, 0xff, 0x02, 0x80, 0x80], SpendFault::Unknown(0)),
        (
            &[0xff, 0xff, 0x49, 0xff, 0x01, 0x80, 0x80],
            SpendFault::OwnFact(0),
        ),
        (twice.as_slice(), SpendFault::SameOutput(1)),
    ];
    for (solution, fault) in rows {
        let spend = spend(alloc, hash_of(alloc, SOLUTION)?, SOLUTION, solution)?;
        assert_eq!(rt; facts(alloc, &spend, DEFAULT_MAX_COST).err(), Some(fault));
    }
    Ok(())
}

#[test]
fn the_facts_of_a_spend(rt: HostRuntime) -> Result<(), Fail> {
    let alloc = rt.alloc();
    let spend = spend(alloc, hash_of(alloc, SOLUTION)?, SOLUTION, NOTHING)?;
    match facts(alloc, &spend, 44) {
        Ok(found) => {
            assert_eq!(rt; found.cost(), 44);
            assert_eq!(rt; found.conditions().as_slice().len(), 0);
            assert_eq!(rt; found.spend().coin, spend.coin);
        }
        Err(fault) => assert_eq!(rt; fault, SpendFault::OutOfMemory),
    }
    Ok(())
}
