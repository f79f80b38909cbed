//! The words behind a command's name, as `clap` reads them.

ghost use Rattle.std.specs.Prelude.{◌≡◌, map, IsTrue, string_bytes, length};
ghost use Rattle.std.specs.Char.{is_ascii_digit};
ghost use Rattle.std.specs.List.{list_all};
ghost use Rattle.clap.specs.Walk.{first_of, rows_of};
ghost use Rattle.clap.specs.Matches.{found_of};
ghost use Rattle.tool_words.specs.Rows.{is_digits};
ghost use Rattle.tool_words.specs.Parser.{is_good, is_readable, texts_of, row_of, digits_at, words_in, Takes, Reads};
ghost use Rattle.tool_words.specs.Fits.{fits, numbers_fit};

use crate::limits::MOST_DIGITS;
use crate::row::{Row, parser};
use crate::said::WordsFault;
use clap::ArgMatches;
use clap::error::ErrorKind;
use std::alloc::Global;

// Whether a word begins with no hyphen, or with two and has something behind them. `clap` reads `--` and `-` otherwise
// than we do, and no option has a short name.
fn is_readable(word: &str) -> bool
    ensures { result ≡ is_readable word.now }
{
    match word.as_bytes() {
        [b'-', b'-', _, ..] => true,
        [b'-', ..] => false,
        _ => true,
    }
}

fn are_readable(words: &[String]) -> bool
    ensures { result ≡ list_all is_readable (map string_bytes words.now) }
{
    for word in words {
        if !is_readable(word.as_str()) {
            return false;
        }
    }
    true
}

// The matches of a row's words, whatever its numbers and the count of its other words are.
fn matches<'a>(
    alloc: Global,
    row: Row<'a>,
    words: &'a [String],
) -> Result<ArgMatches<'a>, WordsFault>
    requires { IsTrue (is_good (texts_of row.flags.now) (texts_of row.numbers.now)) }
    ensures { Takes (row_of row.entry.flags.now row.entry.numbers.now row.entry.least row.entry.most) (map string_bytes words.now) result }
{
    if !are_readable(words) {
        return Err(WordsFault::Words);
    }
    let Ok(command) = parser(alloc, row) else {
        return Err(WordsFault::OutOfMemory);
    };
    match command.try_get_matches_from(words) {
        Ok(matches) => Ok(matches),
        Err(error) => match error.kind() {
            ErrorKind::OutOfMemory => Err(WordsFault::OutOfMemory),
            _ => Err(WordsFault::Words),
        },
    }
}

fn are_digits(bytes: &[u8]) -> bool
    ensures { result ≡ list_all is_ascii_digit bytes.now }
{
    for byte in bytes {
        if !byte.is_ascii_digit() {
            return false;
        }
    }
    true
}

// Whether a text is 1 to 20 ASCII digits.
fn is_digits(text: &str) -> bool
    ensures { result ≡ is_digits text.now }
{
    1 <= text.len() && text.len() <= MOST_DIGITS && are_digits(text.as_bytes())
}

// Whether a number isn't there, or has digits.
fn has_digits(matches: &ArgMatches, name: &str) -> bool
    ensures { result ≡ digits_at (first_of name.now (rows_of (found_of matches.now))) }
{
    match matches.get_str(name) {
        Some(text) => is_digits(text),
        None => true,
    }
}

fn have_digits(matches: &ArgMatches, names: &[&str]) -> bool
    ensures { result ≡ numbers_fit (texts_of names.now) (rows_of (found_of matches.now)) }
{
    for name in names {
        if !has_digits(matches, name) {
            return false;
        }
    }
    true
}

// How many other words there are.
fn count(matches: &ArgMatches) -> usize
    ensures { result ≡ length (words_in (rows_of (found_of matches.now))) }
{
    match matches.get_raw("WORD") {
        Some(words) => words.len(),
        None => 0,
    }
}

// Whether the numbers have digits, and there are as many other words as the row has.
fn fits(matches: &ArgMatches, row: Row) -> bool
    ensures { result ≡ fits (row_of row.entry.flags.now row.entry.numbers.now row.entry.least row.entry.most) (rows_of (found_of matches.now)) }
{
    let count = count(matches);
    have_digits(matches, row.numbers) && row.least <= count && count <= row.most
}

/// The matches of a row's words.
///
/// # Errors
///
/// `Words` exactly where the words aren't the row's, unless there is no memory.
pub(crate) fn parse<'a>(
    alloc: Global,
    row: Row<'a>,
    words: &'a [String],
) -> Result<ArgMatches<'a>, WordsFault>
    requires { IsTrue (is_good (texts_of row.flags.now) (texts_of row.numbers.now)) }
    ensures { Reads (row_of row.entry.flags.now row.entry.numbers.now row.entry.least row.entry.most) (map string_bytes words.now) result }
{
    let matches = matches(alloc, row, words)?;
    if fits(&matches, row) {
        Ok(matches)
    } else {
        Err(WordsFault::Words)
    }
}
