// The forms in memory under the two loops, and the library.
ghost use Rattle.std.specs.Prelude.{Some};

use crate::{
    Failed, Gate, InputFault, Library, LibraryError, MemoryLibrary, MemorySink, MemorySource,
    OpenGate, Point, Sink, read_to_limit, write_all,
};
use std::alloc::{AllocError, Global};
use std::test::Fail;

const MOST: usize = 3_000;

fn counting(alloc: Global, count: usize) -> Result<Vec<u8>, AllocError> {
    let mut bytes = Vec::new(alloc);
    for n in 0..count {
        bytes.push((n % 251) as u8)?;
    }
    Ok(bytes)
}

#[test]
fn pieces_of_any_size_give_the_same(rt: HostRuntime) -> Result<(), Fail> {
    for count in [0, 1, 6, 7, 8, 999, 1_000, 1_001, 3_000] {
        let want = counting(rt.alloc(), count)?;
        for piece in [1, 7, 1_000] {
            let bytes = counting(rt.alloc(), count)?;
            let mut source = MemorySource::new(bytes, piece, Vec::new(rt.alloc()));
            let got = read_to_limit(rt.alloc(), &mut source, MOST)?;
            assert!(rt; got == want, "{count} bytes in pieces of {piece}");
        }
    }
    Ok(())
}

#[test]
fn a_failing_read_at_each_place_loses_nothing(rt: HostRuntime) -> Result<(), Fail> {
    // 25 bytes in pieces of 7 take four reads, and a fifth finds the end.
    for (place, left) in [(0, 25), (1, 18), (2, 11), (3, 4), (4, 0)] {
        let bytes = counting(rt.alloc(), 25)?;
        let mut source = MemorySource::new(bytes, 7, vec![in rt.alloc(); place]?);
        let first = read_to_limit(rt.alloc(), &mut source, MOST);
        assert!(rt; first == Err(InputFault::Fault), "read {place}");
        let rest = read_to_limit(rt.alloc(), &mut source, MOST)?;
        let whole = counting(rt.alloc(), 25)?;
        assert!(rt; whole.ends_with(rest.as_slice()), "after read {place}");
        assert_eq!(rt; rest.len(), left, "after read {place}");
    }
    Ok(())
}

#[test]
fn stops_at_whichever_comes_first(rt: HostRuntime) -> Result<(), Fail> {
    // Reads of 7 bytes: the third passes a limit of 20, the fourth one of 24.
    let rows = [
        (20, 2, Err(InputFault::Fault)),
        (20, 3, Err(InputFault::TooLong)),
        (24, 3, Err(InputFault::Fault)),
        (24, 4, Err(InputFault::TooLong)),
        (25, 4, Err(InputFault::Fault)),
        (25, 5, Ok(25)),
    ];
    for (most, place, want) in rows {
        let bytes = counting(rt.alloc(), 25)?;
        let mut source = MemorySource::new(bytes, 7, vec![in rt.alloc(); place]?);
        let got = read_to_limit(rt.alloc(), &mut source, most).map(|bytes| bytes.len());
        assert!(rt; got == want, "at most {most}, read {place} fails");
    }
    Ok(())
}

#[test]
fn a_failing_write_at_each_place_appends_nothing(rt: HostRuntime) -> Result<(), Fail> {
    for place in 0u64..3 {
        let mut sink = MemorySink::new(rt.alloc(), vec![in rt.alloc(); place]?);
        let mut want = Vec::new(rt.alloc());
        for call in 0u64..3 {
            let line = counting(rt.alloc(), 10)?;
            let written = write_all(&mut sink, line.as_slice());
            assert!(rt; written.is_err() == (call == place), "write {call}");
            if written.is_ok() {
                want.extend_from_slice(line.as_slice())?;
            }
        }
        assert!(rt; sink.bytes() == want.as_slice(), "write {place} fails");
    }
    Ok(())
}

/// A sink that takes three bytes at most in one write.
#[derive(Drop)]
struct NarrowSink {
    sink: MemorySink,
}

impl Sink for NarrowSink {
    ghost got = { λ narrow. Some narrow.sink.got };

    ghost faults = { λ narrow. narrow.sink.faults };

    fn write(&mut self, bytes: &[u8]) -> Result<usize, Failed> {
        self.sink.write(&bytes[..bytes.len().min(3)])
    }
}

#[test]
fn what_a_narrow_sink_got_is_a_prefix(rt: HostRuntime) -> Result<(), Fail> {
    // Ten bytes take four writes.
    for (place, count) in [(0, 0), (1, 3), (2, 6), (3, 9), (4, 10)] {
        let sink = MemorySink::new(rt.alloc(), vec![in rt.alloc(); place]?);
        let mut narrow = NarrowSink { sink };
        let bytes = counting(rt.alloc(), 10)?;
        let written = write_all(&mut narrow, bytes.as_slice());
        assert!(rt; written.is_ok() == (count == 10), "write {place} fails");
        assert!(rt;
            bytes.starts_with(narrow.sink.bytes()),
            "write {place} fails"
        );
        assert_eq!(rt; narrow.sink.bytes().len(), count, "write {place} fails");
    }
    Ok(())
}

#[test]
fn texts_are_found_by_name(rt: HostRuntime) -> Result<(), Fail> {
    let alloc = rt.alloc();
    let mut library = MemoryLibrary::new(alloc, vec![in alloc; 1, 3]?);
    assert!(rt; !library.has("a.clib"));
    library.put(alloc, "a.clib", b"(x)")?;
    assert!(rt; !library.has("b.clib"));
    library.put(alloc, "b.clib", b"")?;
    let rows = [
        ("a.clib", Ok(Some(3))),
        ("a.clib", Err(LibraryError::Fault)),
        ("b.clib", Ok(Some(0))),
        ("b.clib", Err(LibraryError::Fault)),
        ("c.clib", Ok(None)),
        ("a.clib", Ok(Some(3))),
    ];
    for (name, want) in rows {
        assert!(rt; length_of(&mut library, alloc, name) == want, "{name}");
    }
    Ok(())
}

fn length_of(
    library: &mut MemoryLibrary,
    alloc: Global,
    name: &str,
) -> Result<Option<usize>, LibraryError> {
    Ok(library.fetch(alloc, name)?.map(|text| text.len()))
}

#[test]
fn an_open_gate_lets_pass(rt: HostRuntime) {
    for point in [Point::Drawn, Point::Checked, Point::Finished] {
        OpenGate.at(&rt, point, 0, 0);
    }
}
