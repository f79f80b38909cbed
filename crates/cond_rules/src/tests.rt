use crate::Tally;
use coin_facts::{Bytes, Coin, Hash32, OutOfMemory};
use cond_parse::{Condition, Conditions, Party};
use sha2::{Digest, Sha256};
use std::alloc::Global;
use std::test::Fail;

// A condition of a row. A number tells a coin: the first, the second, which the first can create, or another one.
#[derive(Clone, Copy, Debug)]
enum Act {
    Announce,
    AnnounceAsPuzzle,
    AssertAnnounced(u8),
    AssertAnnouncedAsPuzzle(u8),
    AssertSpend(u8),
    AssertPuzzle(u8),
    Ephemeral,
    CreateSecond,
    Send,
    Receive,
    Create(u64),
    Reserve(u64),
}

use Act::{
    Announce, AnnounceAsPuzzle, AssertAnnounced, AssertAnnouncedAsPuzzle, AssertPuzzle,
    AssertSpend, Create, CreateSecond, Ephemeral, Receive, Reserve, Send,
};

// The mode of messages from a puzzle hash and an amount to the id of a coin.
const MODE: u8 = 0x1f;

fn coin(number: u8) -> Coin {
    let first = Coin {
        parent: Hash32 { bytes: [1; 32] },
        puzzle_hash: Hash32 { bytes: [2; 32] },
        amount: 100,
    };
    match number {
        1 => first,
        2 => Coin {
            parent: first.id(),
            puzzle_hash: Hash32 { bytes: [3; 32] },
            amount: 60,
        },
        _ => Coin {
            parent: Hash32 { bytes: [9; 32] },
            puzzle_hash: Hash32 { bytes: [9; 32] },
            amount: 9,
        },
    }
}

fn announced(by: Hash32) -> Hash32 {
    let mut hasher = Sha256::new();
    hasher.update(by.bytes);
    hasher.update([7u8]);
    Hash32 {
        bytes: hasher.finalize(),
    }
}

fn condition(alloc: Global, act: Act) -> Result<Condition, OutOfMemory> {
    let text = Bytes::from_slice(alloc, &[7])?;
    Ok(match act {
        Announce => Condition::CreateCoinAnnouncement(text),
        AnnounceAsPuzzle => Condition::CreatePuzzleAnnouncement(text),
        AssertAnnounced(by) => Condition::AssertCoinAnnouncement(announced(coin(by).id())),
        AssertAnnouncedAsPuzzle(by) => {
            Condition::AssertPuzzleAnnouncement(announced(coin(by).puzzle_hash))
        }
        AssertSpend(of) => Condition::AssertConcurrentSpend(coin(of).id()),
        AssertPuzzle(of) => Condition::AssertConcurrentPuzzle(coin(of).puzzle_hash),
        Ephemeral => Condition::AssertEphemeral,
        CreateSecond => Condition::CreateCoin {
            puzzle_hash: coin(2).puzzle_hash,
            amount: coin(2).amount,
        },
        Send => Condition::SendMessage {
            mode: MODE,
            text,
            receiver: Party {
                id: Some(coin(2).id()),
                parent: None,
                puzzle_hash: None,
                amount: None,
            },
        },
        Receive => Condition::ReceiveMessage {
            mode: MODE,
            text,
            sender: Party {
                id: None,
                parent: None,
                puzzle_hash: Some(coin(1).puzzle_hash),
                amount: Some(100),
            },
        },
        Create(amount) => Condition::CreateCoin {
            puzzle_hash: coin(9).puzzle_hash,
            amount,
        },
        Reserve(amount) => Condition::ReserveFee(amount),
    })
}

fn conditions(alloc: Global, acts: &[Act]) -> Result<Conditions, OutOfMemory> {
    let mut conditions = Conditions::new(alloc);
    for act in acts {
        if conditions.has_room() {
            conditions.push(alloc, condition(alloc, *act)?)?;
        }
    }
    Ok(conditions)
}

#[test]
fn first_broken_rules(rt: HostRuntime) -> Result<(), Fail> {
    let alloc = rt.alloc();
    let rows: [(&[Act], &[Act], Option<(u8, u32)>); 21] = [
        (&[], &[], None),
        (&[AssertAnnounced(2)], &[Announce], None),
        (&[AssertAnnounced(1)], &[Announce], Some((16, 0))),
        (
            &[Announce],
            &[AssertAnnounced(1), AssertAnnounced(9)],
            Some((16, 1)),
        ),
        (&[AssertAnnouncedAsPuzzle(2)], &[AnnounceAsPuzzle], None),
        (&[Announce], &[AssertAnnouncedAsPuzzle(1)], Some((16, 1))),
        (&[AssertSpend(2)], &[AssertSpend(1), AssertSpend(2)], None),
        (&[AssertPuzzle(2)], &[AssertPuzzle(1)], None),
        (&[], &[AssertSpend(9)], Some((17, 1))),
        (&[AssertPuzzle(9)], &[AssertAnnounced(9)], Some((16, 1))),
        (&[CreateSecond], &[Ephemeral], None),
        (&[CreateSecond, Ephemeral], &[], Some((18, 0))),
        (&[Create(60)], &[Ephemeral, AssertPuzzle(9)], Some((17, 1))),
        (&[Send], &[Receive], None),
        (&[Send, Send], &[Receive], Some((19, 0))),
        (&[Send, Send], &[Receive, Receive], None),
        (&[], &[Receive], Some((19, 1))),
        (&[Receive], &[Send], Some((19, 0))),
        (&[Create(100), Reserve(30)], &[Reserve(30)], None),
        (&[Create(100), Reserve(30)], &[Reserve(31)], Some((21, 2))),
        (&[Create(161)], &[Send], Some((19, 1))),
    ];
    for (first, second, broken) in rows {
        let mut tally = Tally::new(alloc);
        tally.add(alloc, 0, &coin(1), &conditions(alloc, first)?)?;
        tally.add(alloc, 1, &coin(2), &conditions(alloc, second)?)?;
        assert_eq!(rt; tally.first_broken(), broken, "{first:?} {second:?}");
    }
    Ok(())
}
