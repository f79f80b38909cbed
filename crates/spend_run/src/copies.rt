//! Copies of what has memory of its own.
ghost use Rattle.std.specs.Prelude.{◌≡◌, IfOk};

use block_form::Spend;
use coin_facts::OutOfMemory;
use cond_parse::{Condition, Conditions};
use std::alloc::Global;

/// An equal spend.
pub(crate) fn copy_spend(alloc: Global, spend: &Spend) -> Result<Spend, OutOfMemory>
    ensures { IfOk result (λ copy. copy ≡ spend.now) }
{
    let puzzle = spend.puzzle.copy(alloc)?;
    let solution = spend.solution.copy(alloc)?;
    Ok(Spend {
        coin: spend.coin,
        puzzle,
        solution,
    })
}

// Matches a condition with those of each form, and makes an equal one.
macro_rules! copy_of {
    (
        $alloc:expr, $condition:expr;
        signed $($signed:ident)*;
        told $($told:ident)*;
        plain $($plain:ident)*
    ) => {
        match $condition {
            $(Condition::$signed { key, text } => Ok(Condition::$signed {
                key: key.copy($alloc)?,
                text: text.copy($alloc)?,
            }),)*
            $(Condition::$told(text) => Ok(Condition::$told(text.copy($alloc)?)),)*
            $(Condition::$plain(value) => Ok(Condition::$plain(*value)),)*
            Condition::Remark => Ok(Condition::Remark),
            Condition::AssertEphemeral => Ok(Condition::AssertEphemeral),
            Condition::CreateCoin { puzzle_hash, amount } => Ok(Condition::CreateCoin {
                puzzle_hash: *puzzle_hash,
                amount: *amount,
            }),
            Condition::SendMessage { mode, text, receiver } => Ok(Condition::SendMessage {
                mode: *mode,
                text: text.copy($alloc)?,
                receiver: *receiver,
            }),
            Condition::ReceiveMessage { mode, text, sender } => Ok(Condition::ReceiveMessage {
                mode: *mode,
                text: text.copy($alloc)?,
                sender: *sender,
            }),
        }
    };
}

fn copy_condition(alloc: Global, condition: &Condition) -> Result<Condition, OutOfMemory>
    ensures { IfOk result (λ copy. copy ≡ condition.now) }
{
    copy_of!(
        alloc, condition;
        signed AggSigParent AggSigPuzzle AggSigAmount AggSigPuzzleAmount AggSigParentAmount AggSigParentPuzzle
            AggSigUnsafe AggSigMe;
        told CreateCoinAnnouncement CreatePuzzleAnnouncement;
        plain ReserveFee AssertCoinAnnouncement AssertPuzzleAnnouncement AssertConcurrentSpend AssertConcurrentPuzzle
            AssertMyCoinId AssertMyParentId AssertMyPuzzleHash AssertMyAmount AssertMyBirthSeconds AssertMyBirthHeight
            AssertSecondsRelative AssertSecondsAbsolute AssertHeightRelative AssertHeightAbsolute
            AssertBeforeSecondsRelative AssertBeforeSecondsAbsolute AssertBeforeHeightRelative AssertBeforeHeightAbsolute
    )
}

/// Equal conditions.
pub(crate) fn copy_conditions(
    alloc: Global,
    conditions: &Conditions,
) -> Result<Conditions, OutOfMemory>
    ensures { IfOk result (λ copy. copy ≡ conditions.now) }
{
    let mut copies = Conditions::new(alloc);
    for condition in conditions.as_slice() {
        copies.push(alloc, copy_condition(alloc, condition)?)?;
    }
    Ok(copies)
}
