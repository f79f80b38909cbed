//! What stands behind a command's name.

ghost use Rattle.std.specs.Prelude.{◌≡◌, map, IfOk, false};
ghost use Rattle.clap.specs.Walk.{rule_of};
ghost use Rattle.clap.specs.Simple.{app_of};
ghost use Rattle.tool_words.specs.Parser.{bare, flag_rule, number_rule, word_rule, with_rules, texts_of, parser};

use clap::{Arg, ArgAction, Command};
use std::alloc::{AllocError, Global};

/// What stands behind a command's name: its flags and its numbers by their names, and the least and the most of other
/// words.
#[derive(Clone, Copy, Debug)]
pub(crate) struct Row<'a> {
    pub(crate) flags: &'a [&'a str],
    pub(crate) numbers: &'a [&'a str],
    pub(crate) least: usize,
    pub(crate) most: usize,
}

// A command without help and version, which is handed no name of a program.
fn bare<'a>(alloc: Global) -> Command<'a>
    ensures { app_of result ≡ bare }
{
    Command::new(alloc, "words")
        .no_binary_name(true)
        .disable_help_flag(true)
        .disable_version_flag(true)
}

fn flag<'a>(alloc: Global, name: &'a str) -> Arg<'a>
    ensures rule { rule_of result ≡ flag_rule name.now }
    ensures local { result.global ≡ false }
{
    Arg::new(alloc, name).long(name).action(ArgAction::SetTrue)
}

fn number<'a>(alloc: Global, name: &'a str) -> Arg<'a>
    ensures rule { rule_of result ≡ number_rule name.now }
    ensures local { result.global ≡ false }
{
    Arg::new(alloc, name).long(name).action(ArgAction::Set)
}

fn other_words<'a>(alloc: Global) -> Arg<'a>
    ensures rule { rule_of result ≡ word_rule }
    ensures local { result.global ≡ false }
{
    Arg::new(alloc, "WORD").action(ArgAction::Append)
}

// A command with these flags more.
fn with_flags<'a>(
    alloc: Global,
    mut command: Command<'a>,
    names: &[&'a str],
) -> Result<Command<'a>, AllocError>
    ensures { IfOk result (λ r. app_of r ≡ with_rules (app_of command.entry) (map flag_rule (texts_of names.now))) }
{
    for name in names {
        command = command.arg(flag(alloc, name))?;
    }
    Ok(command)
}

// A command with these numbers more.
fn with_numbers<'a>(
    alloc: Global,
    mut command: Command<'a>,
    names: &[&'a str],
) -> Result<Command<'a>, AllocError>
    ensures { IfOk result (λ r. app_of r ≡ with_rules (app_of command.entry) (map number_rule (texts_of names.now))) }
{
    for name in names {
        command = command.arg(number(alloc, name))?;
    }
    Ok(command)
}

/// The command that reads the words of a row.
pub(crate) fn parser<'a>(alloc: Global, row: Row<'a>) -> Result<Command<'a>, AllocError>
    ensures { IfOk result (λ r. app_of r ≡ parser (texts_of row.entry.flags.now) (texts_of row.entry.numbers.now)) }
{
    let command = with_flags(alloc, bare(alloc), row.flags)?;
    let command = with_numbers(alloc, command, row.numbers)?;
    command.arg(other_words(alloc))
}
