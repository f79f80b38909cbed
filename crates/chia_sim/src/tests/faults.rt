// Words that are no command, and faults of the source and the sink.
ghost use Rattle.std.specs.Prelude.{◌≤◌, Some};

use super::*;
use ports_io::{Failed, Source};

fn source(
    alloc: Global,
    input: &str,
    piece: usize,
    failing: Vec<u64>,
) -> Result<MemorySource, AllocError>
    requires { 1 ≤ piece }
{
    let bytes = Vec::from_slice(alloc, input.as_bytes())?;
    Ok(MemorySource::new(bytes, piece, failing))
}

#[test]
fn words_that_are_no_command(rt: HostRuntime) -> Result<(), Fail> {
    let alloc = rt.alloc();
    let input = example(alloc, "")?;
    for arguments in [
        "",
        "sessions",
        "Session",
        "session --summary",
        "session session",
        "hash 80",
        "hash --",
        "hash -",
    ] {
        let arguments = words(alloc, arguments)?;
        let mut source = source(alloc, &input, 100, Vec::new(alloc))?;
        let mut sink = MemorySink::new(alloc, Vec::new(alloc));
        let status = run_with(alloc, &arguments, &mut source, &mut sink);
        assert_eq!(rt; status, 2);
        assert!(rt; sink.bytes() == b"words\n".as_slice());
    }
    let none = Vec::new(alloc);
    let mut source = source(alloc, &input, 100, Vec::new(alloc))?;
    let mut sink = MemorySink::new(alloc, Vec::new(alloc));
    assert_eq!(rt; run_with(alloc, &none, &mut source, &mut sink), 2);
    Ok(())
}

#[test]
fn pieces_of_any_size_give_the_same(rt: HostRuntime) -> Result<(), Fail> {
    let alloc = rt.alloc();
    let input = example(alloc, "")?;
    let text = format!(in alloc; "{ADMITTED}end 1\n")?;
    for piece in [1, 7, 1_000] {
        let mut source = source(alloc, &input, piece, Vec::new(alloc))?;
        let mut sink = MemorySink::new(alloc, Vec::new(alloc));
        let status = run_session(alloc, &mut source, &mut sink)?;
        assert_eq!(rt; status, 0);
        assert!(rt; sink.bytes() == text.as_bytes(), "pieces of {piece}");
    }
    Ok(())
}

#[test]
fn a_source_that_fails(rt: HostRuntime) -> Result<(), Fail> {
    let alloc = rt.alloc();
    let input = example(alloc, "")?;
    // One more read than there are pieces finds the end.
    for place in 0..input.len().div_ceil(100) + 1 {
        let mut source = source(alloc, &input, 100, vec![in alloc; place as u64]?)?;
        let mut sink = MemorySink::new(alloc, Vec::new(alloc));
        let status = run_session(alloc, &mut source, &mut sink)?;
        assert_eq!(rt; status, 3, "read {place}");
        assert!(rt; sink.bytes() == b"read fault\n".as_slice(), "read {place}");
    }
    Ok(())
}

#[test]
fn nothing_is_read_behind_a_fault_of_the_source(rt: HostRuntime) -> Result<(), Fail> {
    let alloc = rt.alloc();
    let input = example(alloc, "")?;
    let mut source = source(alloc, &input, 100, vec![in alloc; 1]?)?;
    let mut sink = MemorySink::new(alloc, Vec::new(alloc));
    assert_eq!(rt; run_session(alloc, &mut source, &mut sink)?, 3);
    // The next read gives what stands behind the one piece that was taken.
    let mut next = [0; 100];
    assert!(rt; matches!(source.read(&mut next), Ok(100)));
    let bytes = input.as_bytes();
    assert!(rt; bytes.len() >= 200);
    assert!(rt; next.as_slice() == &bytes[100..200]);
    Ok(())
}

#[test]
fn a_sink_that_fails(rt: HostRuntime) -> Result<(), Fail> {
    let alloc = rt.alloc();
    let input = example(alloc, "")?;
    let mut source = source(alloc, &input, 1_000, Vec::new(alloc))?;
    let mut sink = MemorySink::new(alloc, vec![in alloc; 0]?);
    let status = run_session(alloc, &mut source, &mut sink)?;
    assert_eq!(rt; status, 4);
    assert!(rt; sink.bytes().is_empty());
    Ok(())
}

#[test]
fn a_sink_that_fails_at_a_line_keeps_the_status(rt: HostRuntime) -> Result<(), Fail> {
    let alloc = rt.alloc();
    for (arguments, input, failing, expected) in [
        ("session", "", 0, 3),
        ("session", "", 1, 1),
        ("hash", "8080", 2, 1),
        ("session x", "", 1, 2),
    ] {
        let arguments = words(alloc, arguments)?;
        let mut source = source(alloc, input, 1_000, vec![in alloc; failing]?)?;
        let mut sink = MemorySink::new(alloc, vec![in alloc; 0]?);
        let status = run_with(alloc, &arguments, &mut source, &mut sink);
        assert_eq!(rt; status, expected, "{input}");
        assert!(rt; sink.bytes().is_empty(), "{input}");
    }
    Ok(())
}

/// A sink that takes three bytes at most in one write.
#[derive(Drop)]
struct NarrowSink {
    sink: MemorySink,
}

impl Sink for NarrowSink {
    ghost got = { λ narrow. Some narrow.sink.got };

    ghost faults = { λ narrow. narrow.sink.faults };

    fn write(&mut self, bytes: &[u8]) -> Result<usize, Failed> {
        self.sink.write(&bytes[..bytes.len().min(3)])
    }
}

#[test]
fn a_narrow_sink_that_fails_at_each_write(rt: HostRuntime) -> Result<(), Fail> {
    let alloc = rt.alloc();
    let input = example(alloc, "")?;
    let text = format!(in alloc; "{ADMITTED}end 1\n")?;
    let calls = text.len().div_ceil(3);
    for place in 0..calls + 1 {
        let mut source = source(alloc, &input, 1_000, Vec::new(alloc))?;
        let sink = MemorySink::new(alloc, vec![in alloc; place as u64]?);
        let mut narrow = NarrowSink { sink };
        let status = run_session(alloc, &mut source, &mut narrow)?;
        assert_eq!(rt; status, if place < calls { 4 } else { 0 }, "write {place}");
        let written = text.len().min(3 * place);
        assert!(rt;
            narrow.sink.bytes() == &text.as_bytes()[..written],
            "write {place}"
        );
    }
    Ok(())
}

#[test]
fn an_input_that_is_too_long(rt: HostRuntime) -> Result<(), Fail> {
    let alloc = rt.alloc();
    for (length, status, text) in [(67_108_864, 1, "unbuilt\n"), (67_108_865, 7, "too long\n")] {
        let input = vec![in alloc; b'\n'; length]?;
        let mut source = MemorySource::new(input, 1_000_000, Vec::new(alloc));
        let mut sink = MemorySink::new(alloc, Vec::new(alloc));
        let got = run_session(alloc, &mut source, &mut sink)?;
        assert_eq!(rt; got, status, "{length} bytes");
        assert!(rt; sink.bytes() == text.as_bytes(), "{length} bytes");
    }
    Ok(())
}
