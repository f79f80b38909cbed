use crate::{CondFault, Condition, Conditions, conditions, conditions_cost};
use case_table::condition_table::{
    AMOUNT, HASH, HASH_AND_AMOUNT, KEY_AND_TEXT, MESSAGE_FROM, MESSAGE_TO, MOMENT, TEXT,
};
use clvm_tree::Trees;
use std::alloc::Global;
use std::test::Fail;

// An operand: so many bytes 07, these bytes, or a pair.
#[derive(Clone, Copy, Debug)]
enum Operand {
    Run(usize),
    Small(&'static [u8]),
    Nested,
}

use Operand::{Nested, Run, Small};

type Operands = &'static [Operand];

const A_HASH: Operand = Run(32);

const A_KEY: Operand = Run(48);

const ZERO: Operand = Small(&[]);

const MOST_AMOUNT: Operand = Small(&[0, 255, 255, 255, 255, 255, 255, 255, 255]);

const TOO_MUCH: Operand = Small(&[1, 0, 0, 0, 0, 0, 0, 0, 0]);

const ALL_OF_BOTH: Operand = Small(&[0x3f]);

// The good operands of a kind, and those with a fault each.
fn table(kind: u8) -> (&'static [Operands], &'static [Operands]) {
    match kind {
        KEY_AND_TEXT => (
            &[&[A_KEY, ZERO], &[A_KEY, Run(1_024), Nested]],
            &[
                &[A_KEY],
                &[Run(47), ZERO],
                &[Run(49), ZERO],
                &[Nested, ZERO],
                &[A_KEY, Run(1_025)],
                &[A_KEY, Nested],
            ],
        ),
        HASH_AND_AMOUNT => (
            &[&[A_HASH, ZERO], &[A_HASH, MOST_AMOUNT, Nested]],
            &[
                &[A_HASH],
                &[Run(31), ZERO],
                &[Run(33), ZERO],
                &[Nested, ZERO],
                &[A_HASH, TOO_MUCH],
                &[A_HASH, Nested],
            ],
        ),
        AMOUNT => (
            &[&[ZERO], &[Small(&[1])], &[MOST_AMOUNT, Nested]],
            &[
                &[],
                &[Small(&[0])],
                &[Small(&[0, 1])],
                &[Small(&[0x80])],
                &[TOO_MUCH],
                &[Run(17)],
                &[Nested],
            ],
        ),
        TEXT => (
            &[&[ZERO], &[Run(1_024), Nested]],
            &[&[], &[Run(1_025)], &[Nested]],
        ),
        HASH => (
            &[&[A_HASH], &[A_HASH, Nested]],
            &[&[], &[Run(31)], &[Run(33)], &[Nested]],
        ),
        MOMENT => (
            &[&[ZERO], &[Small(&[0x80])], &[Run(16), Nested]],
            &[
                &[],
                &[Small(&[0])],
                &[Small(&[255, 255])],
                &[Run(17)],
                &[Nested],
            ],
        ),
        MESSAGE_TO => (
            &[
                &[ZERO, ZERO],
                &[Small(&[0x38]), ZERO],
                &[ALL_OF_BOTH, ZERO, A_HASH],
                &[Small(&[6]), Run(1_024), A_HASH, A_HASH, Nested],
                &[Small(&[5]), ZERO, A_HASH, MOST_AMOUNT],
            ],
            &[
                &[],
                &[ZERO],
                &[Small(&[0x40]), ZERO],
                &[Small(&[0]), ZERO],
                &[Nested, ZERO],
                &[ZERO, Run(1_025)],
                &[ALL_OF_BOTH, ZERO],
                &[Small(&[6]), ZERO, A_HASH],
                &[Small(&[6]), ZERO, A_HASH, Run(31)],
                &[Small(&[1]), ZERO, TOO_MUCH],
            ],
        ),
        MESSAGE_FROM => (
            &[
                &[ZERO, ZERO],
                &[Small(&[7]), ZERO],
                &[ALL_OF_BOTH, ZERO, A_HASH],
                &[Small(&[0x30]), Run(1_024), A_HASH, A_HASH, Nested],
                &[Small(&[0x28]), ZERO, A_HASH, MOST_AMOUNT],
            ],
            &[
                &[],
                &[ZERO],
                &[ALL_OF_BOTH, ZERO],
                &[Small(&[0x30]), ZERO, A_HASH],
                &[Small(&[8]), ZERO, TOO_MUCH],
            ],
        ),
        _ => (&[&[], &[Nested]], &[]),
    }
}

// The spelling of an operand, behind that of a pair.
fn spell(into: &mut Vec<u8>, operand: Operand) -> Result<(), Fail> {
    into.push(0xff)?;
    match operand {
        Nested => into.extend_from_slice(&[0xff, 0x80, 0x80])?,
        Run(length) => {
            let length = length.min(2_000);
            if length < 64 {
                into.push(0x80 + length as u8)?;
            } else {
                into.push(0xc0 + (length / 256) as u8)?;
                into.push((length % 256) as u8)?;
            }
            for _ in 0..length {
                into.push(7)?;
            }
        }
        Small(bytes) => match bytes {
            [byte] if *byte < 0x80 => into.push(*byte)?,
            _ => {
                into.push(0x80 + bytes.len().min(16) as u8)?;
                into.extend_from_slice(bytes)?;
            }
        },
    }
    Ok(())
}

fn read(alloc: Global, bytes: &[u8]) -> Result<Result<Conditions, CondFault>, Fail> {
    if bytes.len() > 4_000 {
        return Err("a short value".into());
    }
    let mut trees = Trees::new(alloc);
    let value = trees.read_whole(alloc, bytes)?;
    Ok(conditions(alloc, &trees, value))
}

// What a list of this condition alone gives.
fn of_one(
    alloc: Global,
    code: u8,
    operands: Operands,
) -> Result<Result<Conditions, CondFault>, Fail> {
    let mut bytes = Vec::new(alloc);
    bytes.extend_from_slice(&[0xff, 0xff, code])?;
    for operand in operands {
        spell(&mut bytes, *operand)?;
    }
    bytes.extend_from_slice(&[0x80, 0x80])?;
    read(alloc, bytes.as_slice())
}

#[test]
fn good_forms_and_faults(rt: HostRuntime) -> Result<(), Fail> {
    for row in case_table::conditions() {
        let (good, faulty) = table(row.kind);
        for operands in good {
            let list = of_one(rt.alloc(), row.code, operands)?;
            let cost = list.map(|list| conditions_cost(&list));
            assert!(rt;
                cost == Ok(u64::from(row.cost)),
                "{} {operands:?}",
                row.name
            );
        }
        for operands in faulty {
            let list = of_one(rt.alloc(), row.code, operands)?;
            let cost = list.map(|list| conditions_cost(&list));
            assert!(rt;
                cost == Err(CondFault::Malformed(0)),
                "{} {operands:?}",
                row.name
            );
        }
    }
    Ok(())
}

#[test]
fn the_first_broken_one_is_told(rt: HostRuntime) -> Result<(), Fail> {
    for (bytes, fault) in [
        (b"\x01".as_slice(), CondFault::Malformed(0)),
        (b"\xff\xff\x01\x80\x01", CondFault::Malformed(1)),
        (b"\xff\x01\x80", CondFault::Malformed(0)),
        (b"\xff\xff\xff\x01\x80\x80\x80", CondFault::Malformed(0)),
        (b"\xff\xff\x5a\x80\x80", CondFault::Unknown(0)),
        (b"\xff\xff\x80\x80\x80", CondFault::Unknown(0)),
        (b"\xff\xff\x82\x01\x01\x80\x80", CondFault::Unknown(0)),
        (
            b"\xff\xff\x01\x80\xff\xff\x02\x80\xff\x01\x80",
            CondFault::Unknown(1),
        ),
        (
            b"\xff\xff\x01\x80\xff\x01\xff\xff\x02\x80\x80",
            CondFault::Malformed(1),
        ),
    ] {
        let found = read(rt.alloc(), bytes)?.map(|_| ());
        assert!(rt; found == Err(fault), "{bytes:?}");
    }
    Ok(())
}

#[test]
fn operands_are_kept(rt: HostRuntime) -> Result<(), Fail> {
    let list = read(
        rt.alloc(),
        b"\xff\xff\x42\xff\x29\xff\x82hi\xff\x05\x80\xff\xff\x52\xff\x81\x80\x80\x80",
    )?
    .ok()
    .ok_or("two conditions")?;
    let [message, moment] = list.as_slice() else {
        return Err("two conditions".into());
    };
    assert!(rt; matches!(moment, Condition::AssertHeightRelative(-128)));
    match message {
        Condition::SendMessage {
            mode,
            text,
            receiver,
        } => {
            assert!(rt; *mode == 0x29 && receiver.amount == Some(5) && receiver.parent == None);
            assert_eq!(rt; text.as_slice(), b"hi".as_slice());
        }
        _ => return Err("a message".into()),
    }
    Ok(())
}
