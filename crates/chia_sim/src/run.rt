ghost use Rattle.std.specs.Prelude.{◌≡◌, ◌≤◌, Some, None, false, IfOk, IfErr};
ghost use Rattle.ports_io.specs.Outside.{Rose, Stays};
ghost use Rattle.tool_words.specs.declared.said.Command.TheVariants as command;
ghost use Rattle.chia_sim.specs.Outside.{reading, writing, WritesLine};
ghost use Rattle.chia_sim.specs.Headline.{said, Ends};
ghost use Rattle.chia_sim.specs.Causes.{EndsWith, IsComplete, NamesFault, NamesTooLong};
ghost use Rattle.chia_sim.specs.Stops.{status_of, words_of, HasCause, IsAnswerTo, Finishes};
ghost use Rattle.chia_sim.specs.FirstWord.{begin_with_session};

use crate::answer::{Answer, answer_to};
use crate::limits::MOST_INPUT;
use crate::stop::Stop;
use ports_io::{Gate, Library, Sink, Source, read_to_limit, write_all};
use std::alloc::Global;
use tool_words::{Command, command};

/// Runs the program on its arguments without its own name, and gives the status that it ends with.
///
/// The whole input is read before anything is written. The status is 0 where the command was done and its output was
/// written; 1 where the input isn't of the command's form; 2 where the words aren't a command; 3 where the source
/// failed; 4 where the sink failed; 5 where there was no memory; 7 where the input has more than 67,108,864 bytes.
/// The library may be asked: the texts that it tells stay. The gate isn't passed.
pub fn run<S: Source, K: Sink, B: Library, G: Gate>(
    alloc: Global,
    words: &[String],
    source: &mut S,
    sink: &mut K,
    library: &mut B,
    gate: &G,
) -> u8
    ensures headline { Ends (said words.now)
        (reading (S.left source.old) (S.left source.new) (S.faults source.old) (S.faults source.new))
        (writing (K.got sink.old) (K.got sink.new) (K.faults sink.old) (K.faults sink.new)) result }
    ensures no_command { said words.now ≡ None → EndsWith 2 result }
    ensures unread { said words.now ≡ None → source.new ≡ source.old }
    ensures complete { IsComplete (said words.now)
        (reading (S.left source.old) (S.left source.new) (S.faults source.old) (S.faults source.new))
        (writing (K.got sink.old) (K.got sink.new) (K.faults sink.old) (K.faults sink.new)) result }
    ensures input_fault { NamesFault (said words.now)
        (reading (S.left source.old) (S.left source.new) (S.faults source.old) (S.faults source.new)) result }
    ensures too_long { NamesTooLong (said words.now)
        (reading (S.left source.old) (S.left source.new) (S.faults source.old) (S.faults source.new)) result }
    ensures read_fault { result ≡ 3 → Rose (S.faults source.old) (S.faults source.new) }
    ensures write_fault { result ≡ 4 → Rose (K.faults sink.old) (K.faults sink.new) }
    ensures source_later { S.faults source.old ≤ S.faults source.new }
    ensures sink_later { K.faults sink.old ≤ K.faults sink.new }
    ensures library_texts { Stays (B.texts library.old) (B.texts library.new) }
    ensures library_later { B.faults library.old ≤ B.faults library.new }
{
    if begin_with_session(words) {
        return run_session_words(alloc, words, source, sink, library, gate);
    }
    run_tool(alloc, words, source, sink, library)
}

/// Runs a command on one input. The first word isn't `session`.
pub fn run_tool<S: Source, K: Sink, B: Library>(
    alloc: Global,
    words: &[String],
    source: &mut S,
    sink: &mut K,
    _library: &mut B,
) -> u8
    requires { begin_with_session words.now ≡ false }
    ensures headline { Ends (said words.now)
        (reading (S.left source.old) (S.left source.new) (S.faults source.old) (S.faults source.new))
        (writing (K.got sink.old) (K.got sink.new) (K.faults sink.old) (K.faults sink.new)) result }
    ensures no_command { said words.now ≡ None → EndsWith 2 result }
    ensures unread { said words.now ≡ None → source.new ≡ source.old }
    ensures complete { IsComplete (said words.now)
        (reading (S.left source.old) (S.left source.new) (S.faults source.old) (S.faults source.new))
        (writing (K.got sink.old) (K.got sink.new) (K.faults sink.old) (K.faults sink.new)) result }
    ensures input_fault { NamesFault (said words.now)
        (reading (S.left source.old) (S.left source.new) (S.faults source.old) (S.faults source.new)) result }
    ensures too_long { NamesTooLong (said words.now)
        (reading (S.left source.old) (S.left source.new) (S.faults source.old) (S.faults source.new)) result }
    ensures read_fault { result ≡ 3 → Rose (S.faults source.old) (S.faults source.new) }
    ensures write_fault { result ≡ 4 → Rose (K.faults sink.old) (K.faults sink.new) }
    ensures source_later { S.faults source.old ≤ S.faults source.new }
    ensures sink_later { K.faults sink.old ≤ K.faults sink.new }
    ensures library_texts { Stays (B.texts _library.old) (B.texts _library.new) }
    ensures library_later { B.faults _library.old ≤ B.faults _library.new }
{
    run_words(alloc, words, source, sink)
}

/// Plays the session that the source has, and writes the output of one history of it.
pub fn run_session<S: Source, K: Sink, B: Library, G: Gate>(
    alloc: Global,
    source: &mut S,
    sink: &mut K,
    _library: &mut B,
    _gate: &G,
) -> u8
    ensures headline { Ends (Some command.Session)
        (reading (S.left source.old) (S.left source.new) (S.faults source.old) (S.faults source.new))
        (writing (K.got sink.old) (K.got sink.new) (K.faults sink.old) (K.faults sink.new)) result }
    ensures complete { IsComplete (Some command.Session)
        (reading (S.left source.old) (S.left source.new) (S.faults source.old) (S.faults source.new))
        (writing (K.got sink.old) (K.got sink.new) (K.faults sink.old) (K.faults sink.new)) result }
    ensures input_fault { NamesFault (Some command.Session)
        (reading (S.left source.old) (S.left source.new) (S.faults source.old) (S.faults source.new)) result }
    ensures too_long { NamesTooLong (Some command.Session)
        (reading (S.left source.old) (S.left source.new) (S.faults source.old) (S.faults source.new)) result }
    ensures read_fault { result ≡ 3 → Rose (S.faults source.old) (S.faults source.new) }
    ensures write_fault { result ≡ 4 → Rose (K.faults sink.old) (K.faults sink.new) }
    ensures source_later { S.faults source.old ≤ S.faults source.new }
    ensures sink_later { K.faults sink.old ≤ K.faults sink.new }
    ensures library_texts { Stays (B.texts _library.old) (B.texts _library.new) }
    ensures library_later { B.faults _library.old ≤ B.faults _library.new }
{
    run_command(alloc, Command::Session, source, sink)
}

// Whether the first word is `session`.
fn begin_with_session(words: &[String]) -> bool
    ensures { result ≡ begin_with_session words.now }
{
    match words {
        [word, ..] => word.as_str() == "session",
        [] => false,
    }
}

// Plays a session where the words are that command.
fn run_session_words<S: Source, K: Sink, B: Library, G: Gate>(
    alloc: Global,
    words: &[String],
    source: &mut S,
    sink: &mut K,
    library: &mut B,
    gate: &G,
) -> u8
    ensures headline { Ends (said words.now)
        (reading (S.left source.old) (S.left source.new) (S.faults source.old) (S.faults source.new))
        (writing (K.got sink.old) (K.got sink.new) (K.faults sink.old) (K.faults sink.new)) result }
    ensures unread { said words.now ≡ None → source.new ≡ source.old }
    ensures source_later { S.faults source.old ≤ S.faults source.new }
    ensures sink_later { K.faults sink.old ≤ K.faults sink.new }
    ensures library_texts { Stays (B.texts library.old) (B.texts library.new) }
    ensures library_later { B.faults library.old ≤ B.faults library.new }
{
    match command(alloc, words) {
        Ok(Command::Session) => run_session(alloc, source, sink, library, gate),
        Ok(command) => run_command(alloc, command, source, sink),
        Err(fault) => end_with(sink, Stop::from(fault)),
    }
}

fn run_words<S: Source, K: Sink>(
    alloc: Global,
    words: &[String],
    source: &mut S,
    sink: &mut K,
) -> u8
    ensures headline { Ends (said words.now)
        (reading (S.left source.old) (S.left source.new) (S.faults source.old) (S.faults source.new))
        (writing (K.got sink.old) (K.got sink.new) (K.faults sink.old) (K.faults sink.new)) result }
    ensures unread { said words.now ≡ None → source.new ≡ source.old }
    ensures source_later { S.faults source.old ≤ S.faults source.new }
    ensures sink_later { K.faults sink.old ≤ K.faults sink.new }
{
    match command(alloc, words) {
        Ok(command) => run_command(alloc, command, source, sink),
        Err(fault) => end_with(sink, Stop::from(fault)),
    }
}

fn run_command<S: Source, K: Sink>(
    alloc: Global,
    command: Command,
    source: &mut S,
    sink: &mut K,
) -> u8
    ensures headline { Ends (Some command)
        (reading (S.left source.old) (S.left source.new) (S.faults source.old) (S.faults source.new))
        (writing (K.got sink.old) (K.got sink.new) (K.faults sink.old) (K.faults sink.new)) result }
    ensures source_later { S.faults source.old ≤ S.faults source.new }
    ensures sink_later { K.faults sink.old ≤ K.faults sink.new }
{
    match answer(alloc, command, source) {
        Ok(answer) => finish(sink, &answer),
        Err(stop) => end_with(sink, stop),
    }
}

// What a command says to the input that a source has, or why it says nothing.
fn answer<S: Source>(alloc: Global, command: Command, source: &mut S) -> Result<Answer, Stop>
    ensures answer { IfOk result (IsAnswerTo command
        (reading (S.left source.old) (S.left source.new) (S.faults source.old) (S.faults source.new))) }
    ensures cause { IfErr result (HasCause
        (reading (S.left source.old) (S.left source.new) (S.faults source.old) (S.faults source.new))) }
    ensures later { S.faults source.old ≤ S.faults source.new }
{
    let input = read_to_limit(alloc, source, MOST_INPUT)?;
    Ok(answer_to(alloc, command, input)?)
}

// Writes an answer, and tells the status. A fault of the input keeps its status where the sink fails.
fn finish<K: Sink>(sink: &mut K, answer: &Answer) -> u8
    ensures status { Finishes (writing (K.got sink.old) (K.got sink.new) (K.faults sink.old) (K.faults sink.new)) answer.now result }
    ensures later { K.faults sink.old ≤ K.faults sink.new }
{
    match answer {
        Answer::Output(text) => match write_all(sink, text.as_bytes()) {
            Ok(()) => 0,
            Err(_) => 4,
        },
        Answer::Refusal(text) => {
            let _ = write_all(sink, text.as_bytes());
            1
        }
    }
}

// Writes the line of a reason, and tells its status, also where the sink fails.
fn end_with<K: Sink>(sink: &mut K, stop: Stop) -> u8
    ensures status { result ≡ status_of stop }
    ensures line { WritesLine (writing (K.got sink.old) (K.got sink.new) (K.faults sink.old) (K.faults sink.new)) (words_of stop) }
    ensures later { K.faults sink.old ≤ K.faults sink.new }
{
    let _ = write_all(sink, stop.line().as_bytes());
    stop.status()
}
