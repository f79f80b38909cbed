//! The words behind `curry`.

ghost use Rattle.std.specs.Prelude.{map, string_bytes};
ghost use Rattle.clap.specs.Walk.{rows_of};
ghost use Rattle.clap.specs.Matches.{found_of};
ghost use Rattle.clvm_input.specs.Words.{words_of};
ghost use Rattle.tool_words.specs.Parser.{texts_of, words_in};
ghost use Rattle.tool_words.specs.Curries.{curry_of};
ghost use Rattle.tool_words.specs.Commands.{Says};

use crate::limits::MOST_ARGUMENTS;
use crate::parse::parse;
use crate::row::Row;
use crate::said::{Command, WordsFault};
use clap::ArgMatches;
use clvm_input::{Words, read_words};
use std::alloc::Global;

fn clvm_words(alloc: Global, words: &[&str]) -> Result<Words, WordsFault>
    ensures { Says (words_of (texts_of words.now)) result }
{
    match read_words(alloc, words) {
        Ok(Some(words)) => Ok(words),
        Ok(None) => Err(WordsFault::Words),
        Err(_) => Err(WordsFault::OutOfMemory),
    }
}

fn arguments(alloc: Global, matches: &ArgMatches) -> Result<Words, WordsFault>
    ensures { Says (words_of (words_in (rows_of (found_of matches.now)))) result }
{
    match matches.get_raw("WORD") {
        Some(words) => clvm_words(alloc, words),
        None => clvm_words(alloc, &[]),
    }
}

/// The command that the words behind `curry` make.
pub(crate) fn currying(alloc: Global, words: &[String]) -> Result<Command, WordsFault>
    ensures { Says (curry_of (map string_bytes words.now)) result }
{
    let row = Row {
        flags: &[],
        numbers: &[],
        least: 0,
        most: MOST_ARGUMENTS,
    };
    let matches = parse(alloc, row, words)?;
    Ok(Command::Curry {
        arguments: arguments(alloc, &matches)?,
    })
}
