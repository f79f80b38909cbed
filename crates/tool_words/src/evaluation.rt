//! The words behind `eval`.

ghost use Rattle.std.specs.Prelude.{◌≡◌, IsTrue, codes, map, string_bytes};
ghost use Rattle.std.specs.Str.Parse.{digits_value};
ghost use Rattle.clap.specs.Walk.{first_of, rows_of};
ghost use Rattle.clap.specs.Matches.{found_of};
ghost use Rattle.clvm_input.specs.Words.{word_of};
ghost use Rattle.tool_words.specs.Rows.{is_digits};
ghost use Rattle.tool_words.specs.Parser.{digits_at, texts_of, words_in};
ghost use Rattle.tool_words.specs.Evals.{cost_of, env_of, eval_of, up_to};
ghost use Rattle.tool_words.specs.Commands.{Says};

use crate::limits::{MOST_COST, USUAL_COST};
use crate::parse::parse;
use crate::row::Row;
use crate::said::{Command, WordsFault};
use clap::ArgMatches;
use clvm_input::{Word, read_word};
use std::alloc::Global;

// What digits write, where it is at most this.
fn number_up_to(most: u64, digits: &str) -> Option<u64>
    requires { IsTrue (is_digits digits.now) }
    ensures { result ≡ up_to most (digits_value 10 digits.now) }
{
    match digits.parse::<u64>() {
        Ok(number) => up_to(most, number),
        Err(_) => None,
    }
}

fn up_to(most: u64, number: u64) -> Option<u64>
    ensures { result ≡ up_to most number }
{
    if number <= most { Some(number) } else { None }
}

fn cost(matches: &ArgMatches) -> Option<u64>
    requires { IsTrue (digits_at (first_of (codes "cost") (rows_of (found_of matches.now)))) }
    ensures { result ≡ cost_of (first_of (codes "cost") (rows_of (found_of matches.now))) }
{
    match matches.get_str("cost") {
        Some(digits) => number_up_to(MOST_COST, digits),
        None => Some(USUAL_COST),
    }
}

fn clvm_word(alloc: Global, word: &str) -> Result<Word, WordsFault>
    ensures { Says (word_of word.now) result }
{
    match read_word(alloc, word.as_bytes()) {
        Ok(Some(word)) => Ok(word),
        Ok(None) => Err(WordsFault::Words),
        Err(_) => Err(WordsFault::OutOfMemory),
    }
}

// The CLVM word that stands alone among these words.
fn only_word(alloc: Global, words: &[&str]) -> Result<Word, WordsFault>
    ensures { Says (env_of (texts_of words.now)) result }
{
    match words {
        [word] => clvm_word(alloc, word),
        _ => Err(WordsFault::Words),
    }
}

fn environment(alloc: Global, matches: &ArgMatches) -> Result<Word, WordsFault>
    ensures { Says (env_of (words_in (rows_of (found_of matches.now)))) result }
{
    match matches.get_raw("WORD") {
        Some(words) => only_word(alloc, words),
        None => Err(WordsFault::Words),
    }
}

/// The command that the words behind `eval` make.
pub(crate) fn evaluation(alloc: Global, words: &[String]) -> Result<Command, WordsFault>
    ensures { Says (eval_of (map string_bytes words.now)) result }
{
    let row = Row {
        flags: &["text"],
        numbers: &["cost"],
        least: 1,
        most: 1,
    };
    let matches = parse(alloc, row, words)?;
    let Some(cost) = cost(&matches) else {
        return Err(WordsFault::Words);
    };
    let env = environment(alloc, &matches)?;
    Ok(Command::Eval {
        cost,
        as_text: matches.get_flag("text"),
        env,
    })
}
