//! The program: it plays a session of JSON lines, and writes one history of it.
#![tactic(auto)]

mod answer;
mod bundles;
mod form;
mod limits;
mod lines;
mod members;
mod opening;
mod play;
mod reply;
mod report;
mod run;
mod session;
mod stop;
#[cfg(test)]
mod tests;
mod tools;

use ports_io::{FolderLibrary, InputSource, OpenGate, OutputSink};
use run::run;
use std::alloc::Global;
use std::io::ErrorKind;
use std::process::ExitCode;
use std::{env, io};

// The program's arguments without its own name. Arguments that are no text are no command, as no argument is none.
fn words(rt: &HostRuntime) -> io::Result<Vec<String>> {
    let mut words = Vec::new(rt.alloc());
    match env::args(rt) {
        Ok(args) => {
            for word in args.skip(1) {
                words.push(word)?;
            }
            Ok(words)
        }
        Err(error) if error.kind() == ErrorKind::InvalidData => Ok(words),
        Err(error) => Err(error),
    }
}

fn main(rt: HostRuntime) -> ExitCode {
    let Ok(words) = words(&rt) else {
        return ExitCode::from(5);
    };
    let mut source = InputSource::new(rt.reader());
    let mut sink = OutputSink::new(io::writer(&rt));
    let mut library = FolderLibrary::new(&rt);
    ExitCode::from(run(
        rt.alloc(),
        words.as_slice(),
        &mut source,
        &mut sink,
        &mut library,
        &OpenGate,
    ))
}
