ghost use Rattle.std.specs.Prelude.{◌≡◌, ◌++◌, OnOk, string_bytes};
ghost use Rattle.std.specs.List.{flat_map};
ghost use Rattle.session_spec.specs.Texts.{id_word, number_word, spent_word, coin_text, reply_text};
ghost use Rattle.session_spec.specs.Texts.{admission_text};
ghost use Rattle.pool_spec.specs.Admission.{Admitted};
ghost use Rattle.chia_sim.specs.Replies.{reply_of};

use chain_spec::Record;
use coin_facts::{Hash32, Ids, OutOfMemory};
use std::alloc::Global;

/// The reply to a command.
#[derive(Debug, Drop)]
pub(crate) enum Reply {
    Admitted {
        id: Hash32,
        fee: u128,
        cost: u64,
        replaced: Ids,
    },
    Refused {
        rule: u8,
        place: u32,
    },
    NoCoin,
    Coin(Record),
    Memory,
}

impl Reply {
    /// Writes the reply's words at the end of a text.
    pub(crate) fn write(&self, alloc: Global, text: &mut String) -> Result<(), OutOfMemory>
        ensures { OnOk result (string_bytes text.new ≡ string_bytes text.old ++ reply_text (reply_of self.now)) }
    {
        match self {
            Reply::Admitted {
                id,
                fee,
                cost,
                replaced,
            } => write_admitted(alloc, text, id, *fee, *cost, replaced),
            Reply::Refused { rule, place } => {
                text.push_str("refused")?;
                write_number(text, u128::from(*rule))?;
                write_number(text, u128::from(*place))
            }
            Reply::NoCoin => text.push_str("coin none"),
            Reply::Coin(found) => write_record(alloc, text, found),
            Reply::Memory => text.push_str("memory"),
        }
    }
}

fn write_admitted(
    alloc: Global,
    text: &mut String,
    id: &Hash32,
    fee: u128,
    cost: u64,
    replaced: &Ids,
) -> Result<(), OutOfMemory>
    ensures { OnOk result (string_bytes text.new ≡ string_bytes text.old ++ admission_text (Admitted id.now fee cost replaced.now)) }
{
    text.push_str("admitted")?;
    write_id(alloc, text, id)?;
    write_number(text, fee)?;
    write_number(text, u128::from(cost))?;
    write_ids(alloc, text, replaced.as_slice())
}

fn write_record(alloc: Global, text: &mut String, found: &Record) -> Result<(), OutOfMemory>
    ensures { OnOk result (string_bytes text.new ≡ string_bytes text.old ++ coin_text found.now) }
{
    text.push_str("coin")?;
    write_id(alloc, text, &found.coin.parent)?;
    write_id(alloc, text, &found.coin.puzzle_hash)?;
    write_number(text, u128::from(found.coin.amount))?;
    write_number(text, u128::from(found.height))?;
    write_number(text, u128::from(found.seconds))?;
    write_spent(text, found.spent)
}

fn write_spent(text: &mut String, spent: Option<u32>) -> Result<(), OutOfMemory>
    ensures { OnOk result (string_bytes text.new ≡ string_bytes text.old ++ spent_word spent) }
{
    match spent {
        Some(height) => write_number(text, u128::from(height)),
        None => text.push_str(" -"),
    }
}

/// Writes a number behind a space.
pub(crate) fn write_number(text: &mut String, number: u128) -> Result<(), OutOfMemory>
    ensures { OnOk result (string_bytes text.new ≡ string_bytes text.old ++ number_word number) }
{
    write!(text, " {number}")
}

// An id in hexadecimal, behind a space.
fn write_id(alloc: Global, text: &mut String, id: &Hash32) -> Result<(), OutOfMemory>
    ensures { OnOk result (string_bytes text.new ≡ string_bytes text.old ++ id_word id.now) }
{
    let digits = hex::encode(alloc, id.bytes)?;
    text.push(' ')?;
    text.push_str(&digits)
}

fn write_ids(alloc: Global, text: &mut String, ids: &[Hash32]) -> Result<(), OutOfMemory>
    ensures { OnOk result (string_bytes text.new ≡ string_bytes text.old ++ flat_map id_word ids.now) }
{
    for id in ids {
        write_id(alloc, text, id)?;
    }
    Ok(())
}
