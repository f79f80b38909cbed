//! What one condition of a spend gives to the list: it goes behind what the earlier ones gave.
ghost use Rattle.std.specs.Prelude.{◌≡◌, ◌+◌, ◌++◌, ◌<◌, ◌≤◌, ◌^◌, OnOk, vec_len};
ghost use Rattle.cond_spec.specs.Acts.{announcement};
ghost use Rattle.cond_rules.specs.Deeds.{announcement_asked, announcement_made, spend_asked, creation_asked, creation_made, letters_given, claim};

use crate::letter::{Letter, Way};
use crate::message::{Message, party_of};
use crate::want::Want;
use coin_facts::{Coin, Hash32, OutOfMemory};
use cond_parse::Condition;
use sha2::{Digest, Sha256};
use std::alloc::Global;

// The hash by which an announcement is asserted.
fn announcement(by: &Hash32, text: &[u8]) -> Hash32
    ensures { result ≡ announcement by.now text.now }
{
    let mut hasher = Sha256::new();
    hasher.update(by.bytes);
    hasher.update(text);
    Hash32 {
        bytes: hasher.finalize(),
    }
}

/// The announcement that is asserted.
pub(crate) fn push_announcement_asked(
    asked: &mut Vec<Want>,
    coin: &Coin,
    condition: &Condition,
) -> Result<(), OutOfMemory>
    ensures { OnOk result (asked.new.items ≡ asked.old.items ++ announcement_asked coin.now condition.now) }
{
    match condition {
        Condition::AssertCoinAnnouncement(hash) => {
            asked.push(Want::CoinAnnouncement(*hash))?;
            Ok(())
        }
        Condition::AssertPuzzleAnnouncement(hash) => {
            asked.push(Want::PuzzleAnnouncement(*hash))?;
            Ok(())
        }
        _ => Ok(()),
    }
}

/// What is announced.
pub(crate) fn push_announcement_made(
    made: &mut Vec<Want>,
    coin: &Coin,
    condition: &Condition,
) -> Result<(), OutOfMemory>
    ensures { OnOk result (made.new.items ≡ made.old.items ++ announcement_made coin.now condition.now) }
{
    match condition {
        Condition::CreateCoinAnnouncement(text) => {
            let hash = announcement(&coin.id(), text.as_slice());
            made.push(Want::CoinAnnouncement(hash))?;
            Ok(())
        }
        Condition::CreatePuzzleAnnouncement(text) => {
            let hash = announcement(&coin.puzzle_hash, text.as_slice());
            made.push(Want::PuzzleAnnouncement(hash))?;
            Ok(())
        }
        _ => Ok(()),
    }
}

/// The spend that is asked to stand in the list.
pub(crate) fn push_spend_asked(
    asked: &mut Vec<Want>,
    coin: &Coin,
    condition: &Condition,
) -> Result<(), OutOfMemory>
    ensures { OnOk result (asked.new.items ≡ asked.old.items ++ spend_asked coin.now condition.now) }
{
    match condition {
        Condition::AssertConcurrentSpend(id) => {
            asked.push(Want::Spend(*id))?;
            Ok(())
        }
        Condition::AssertConcurrentPuzzle(hash) => {
            asked.push(Want::Puzzle(*hash))?;
            Ok(())
        }
        _ => Ok(()),
    }
}

/// The coin itself, where its creation is asked.
pub(crate) fn push_creation_asked(
    asked: &mut Vec<Want>,
    coin: &Coin,
    condition: &Condition,
) -> Result<(), OutOfMemory>
    ensures { OnOk result (asked.new.items ≡ asked.old.items ++ creation_asked coin.now condition.now) }
{
    match condition {
        Condition::AssertEphemeral => {
            asked.push(Want::Creation(coin.id()))?;
            Ok(())
        }
        _ => Ok(()),
    }
}

/// The coin that is created.
pub(crate) fn push_creation_made(
    made: &mut Vec<Want>,
    coin: &Coin,
    condition: &Condition,
) -> Result<(), OutOfMemory>
    ensures { OnOk result (made.new.items ≡ made.old.items ++ creation_made coin.now condition.now) }
{
    match condition {
        Condition::CreateCoin {
            puzzle_hash,
            amount,
        } => {
            let created = Coin {
                parent: coin.id(),
                puzzle_hash: *puzzle_hash,
                amount: *amount,
            };
            made.push(Want::Creation(created.id()))?;
            Ok(())
        }
        _ => Ok(()),
    }
}

/// The message that is sent or received.
pub(crate) fn push_letter(
    alloc: Global,
    letters: &mut Vec<Letter>,
    coin: &Coin,
    condition: &Condition,
) -> Result<(), OutOfMemory>
    ensures ok { OnOk result (letters.new.items ≡ letters.old.items ++ letters_given coin.now condition.now) }
    ensures len { OnOk result (vec_len letters.new ≤ vec_len letters.old + 1) }
{
    match condition {
        Condition::SendMessage {
            mode,
            text,
            receiver,
        } => {
            let text = text.copy(alloc)?;
            let sender = party_of(*mode / 8, coin);
            let message = Message::new(*mode, text, sender, *receiver);
            letters.push(Letter {
                way: Way::Sent,
                message,
            })?;
            Ok(())
        }
        Condition::ReceiveMessage { mode, text, sender } => {
            let text = text.copy(alloc)?;
            let receiver = party_of(*mode % 8, coin);
            let message = Message::new(*mode, text, *sender, receiver);
            letters.push(Letter {
                way: Way::Received,
                message,
            })?;
            Ok(())
        }
        _ => Ok(()),
    }
}

/// What a condition claims of the spent amounts: a created coin's amount, or a reserved part of the fee.
pub(crate) fn claim(condition: &Condition) -> u64
    ensures value { result ≡ claim condition.now }
    ensures small { result < 2 ^ 64 }
{
    match condition {
        Condition::CreateCoin { amount, .. } => *amount,
        Condition::ReserveFee(amount) => *amount,
        _ => 0,
    }
}
