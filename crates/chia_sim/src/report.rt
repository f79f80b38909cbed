ghost use Rattle.std.specs.Prelude.{◌≡◌, ◌++◌, map, IfOk, OnOk, string_bytes};
ghost use Rattle.std.specs.Fmt.{decimal};
ghost use Rattle.session_spec.specs.Texts.{entry_line, output_of};
ghost use Rattle.chia_sim.specs.Replies.{entry_of};

use crate::reply::{Reply, write_number};
use coin_facts::OutOfMemory;
use std::alloc::Global;

/// A reply in a history: the lane of its command, the command's number in the lane from 0 on, and the reply.
#[derive(Debug, Drop)]
pub(crate) struct Entry {
    pub(crate) lane: u32,
    pub(crate) number: u32,
    pub(crate) reply: Reply,
}

/// What is written for a history: a line for each entry, and the number of entries.
pub(crate) fn report(alloc: Global, history: &[Entry]) -> Result<String, OutOfMemory>
    ensures { IfOk result (λ text. string_bytes text ≡ output_of (map entry_of history.now)) }
{
    let mut text = String::new(alloc);
    for (place, entry) in history.iter().enumerate() {
        write_entry(alloc, &mut text, place, entry)?;
    }
    text.push_str("end")?;
    write_number(&mut text, history.len() as u128)?;
    text.push('\n')?;
    Ok(text)
}

fn write_entry(
    alloc: Global,
    text: &mut String,
    place: usize,
    entry: &Entry,
) -> Result<(), OutOfMemory>
    ensures { OnOk result (string_bytes text.new ≡ string_bytes text.old ++ entry_line place (entry_of entry.now)) }
{
    write!(text, "{place}")?;
    write_number(text, u128::from(entry.lane))?;
    write_number(text, u128::from(entry.number))?;
    text.push(' ')?;
    entry.reply.write(alloc, text)?;
    text.push('\n')
}
