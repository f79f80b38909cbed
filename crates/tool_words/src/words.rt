//! The command that the program's words are.

ghost use Rattle.std.specs.Prelude.{map, string_bytes};
ghost use Rattle.tool_words.specs.Commands.{alone, command_of, command_by, Says};

use crate::currying::currying;
use crate::evaluation::evaluation;
use crate::parse::parse;
use crate::row::Row;
use crate::said::{Command, WordsFault};
use std::alloc::Global;

/// The command that the program's arguments without its own name are.
///
/// # Errors
///
/// `Words` exactly where they aren't a command that is built, unless there is no memory.
pub fn command(alloc: Global, words: &[String]) -> Result<Command, WordsFault>
    ensures { Says (command_of (map string_bytes words.now)) result }
{
    match words {
        [name, rest @ ..] => command_by(alloc, name.as_str(), rest),
        [] => Err(WordsFault::Words),
    }
}

// The command of this name, with the words behind it.
fn command_by(alloc: Global, name: &str, words: &[String]) -> Result<Command, WordsFault>
    ensures { Says (command_by name.now (map string_bytes words.now)) result }
{
    match name {
        "session" => alone(alloc, Command::Session, words),
        "hash" => alone(alloc, Command::Hash, words),
        "eval" => evaluation(alloc, words),
        "curry" => currying(alloc, words),
        _ => Err(WordsFault::Words),
    }
}

// A command that has no words.
fn alone(alloc: Global, command: Command, words: &[String]) -> Result<Command, WordsFault>
    ensures { Says (alone command (map string_bytes words.now)) result }
{
    let row = Row {
        flags: &[],
        numbers: &[],
        least: 0,
        most: 0,
    };
    parse(alloc, row, words)?;
    Ok(command)
}
