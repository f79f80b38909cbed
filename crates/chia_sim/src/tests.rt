// Whole runs over the outside in memory.
use crate::run::run;
use ports_io::{MemoryLibrary, MemorySink, MemorySource, OpenGate, Sink};
use std::alloc::{AllocError, Global};
use std::test::Fail;

mod curries;
mod evals;
mod faults;
mod forms;
mod hashes;
mod sessions;

const HEADER: &str =
    r#"{"session":1,"genesis":"1111111111111111111111111111111111111111111111111111111111111111","seconds":0}"#;

const ZERO: &str = "0000000000000000000000000000000000000000000000000000000000000000";

// The tree hash of the puzzle 01.
const ONE: &str = "9dcf97a184f32623d11a73124ceb99a5709b083721e878a16d78f596718ba7b2";

// A puzzle that pays 900 to the puzzle 01, and its tree hash.
const PAYMENT: &str =
    "ff01ffff33ffa09dcf97a184f32623d11a73124ceb99a5709b083721e878a16d78f596718ba7b2ff8203848080";

const PAYMENT_HASH: &str = "8009c552ce67831735d9e30ab7d2a637572438a11365ca9ea008a894176e774f";

// A puzzle that pays nothing, and its tree hash.
const NOTHING: &str = "ff0180";

const NOTHING_HASH: &str = "ba4484b961b7a2369d948d06c55b64bdbfaffb326bc13b490ab1215dd33d8d46";

const ADMITTED: &str =
    "0 0 0 admitted 0049f836c0a4eaf7a39ffe1bd3559fcc34785a8b7df3a5a1075880f92c0bf39e 100 2916020\n";

fn coin(alloc: Global, parent: &str, hash: &str, amount: u64) -> Result<String, AllocError> {
    format!(in alloc;
        r#"{{"parent_coin_info":"{parent}","puzzle_hash":"{hash}","amount":{amount}}}"#
    )
}

fn spend(alloc: Global, coin: &str, puzzle: &str) -> Result<String, AllocError> {
    format!(in alloc; r#"{{"coin":{coin},"puzzle_reveal":"{puzzle}","solution":"80"}}"#)
}

fn admit(alloc: Global, spends: &str) -> Result<String, AllocError> {
    format!(in alloc; r#"{{"do":"admit","bundle":{{"coin_spends":[{spends}]}}}}"#)
}

fn look_up(alloc: Global, id: &str) -> Result<String, AllocError> {
    format!(in alloc; r#"{{"do":"coin","id":"{id}"}}"#)
}

// The admission of the coin of 1,000 that pays 900.
fn payment(alloc: Global) -> Result<String, AllocError> {
    let coin = coin(alloc, ZERO, PAYMENT_HASH, 1000)?;
    let spend = spend(alloc, &coin, PAYMENT)?;
    admit(alloc, &spend)
}

// The first example: the header, the coin of 1,000, and the rest.
fn example(alloc: Global, rest: &str) -> Result<String, AllocError> {
    let coin = coin(alloc, ZERO, PAYMENT_HASH, 1000)?;
    let payment = payment(alloc)?;
    format!(in alloc; "{HEADER}\n{{\"coin\":{coin}}}\n{payment}\n{rest}")
}

/// A run: its status and what it wrote.
#[derive(Debug, Drop)]
struct Outcome {
    status: u8,
    written: Vec<u8>,
}

// The words of a text, each behind a space but the first.
fn words(alloc: Global, text: &str) -> Result<Vec<String>, AllocError> {
    let mut words = Vec::new(alloc);
    for word in text.split(' ') {
        words.push(String::from_str(alloc, word)?)?;
    }
    Ok(words)
}

fn run_with<K: Sink>(
    alloc: Global,
    arguments: &[String],
    source: &mut MemorySource,
    sink: &mut K,
) -> u8 {
    let mut library = MemoryLibrary::new(alloc, Vec::new(alloc));
    run(alloc, arguments, source, sink, &mut library, &OpenGate)
}

fn run_session<K: Sink>(
    alloc: Global,
    source: &mut MemorySource,
    sink: &mut K,
) -> Result<u8, AllocError> {
    let arguments = words(alloc, "session")?;
    Ok(run_with(alloc, &arguments, source, sink))
}

// Runs on an input that is given in one piece.
fn run_on(alloc: Global, arguments: &str, input: &str) -> Result<Outcome, AllocError> {
    let arguments = words(alloc, arguments)?;
    let input = Vec::from_slice(alloc, input.as_bytes())?;
    let mut source = MemorySource::new(input, 100_000, Vec::new(alloc));
    let mut sink = MemorySink::new(alloc, Vec::new(alloc));
    let status = run_with(alloc, &arguments, &mut source, &mut sink);
    let written = Vec::from_slice(alloc, sink.bytes())?;
    Ok(Outcome { status, written })
}

fn writes(alloc: Global, input: &str, status: u8, text: &str) -> Result<bool, Fail> {
    let outcome = run_on(alloc, "session", input)?;
    Ok(outcome.status == status && outcome.written.as_slice() == text.as_bytes())
}
