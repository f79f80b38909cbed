// A writer as a sink.
ghost use Rattle.std.specs.Prelude.{◌≡◌, ◌<◌, ◌≤◌, ℕ, List, IfOk, None, OnErr, OnOk, Option, length, take};
ghost use Rattle.std.specs.Io.KnownBytes.{Appends, Keeps};
ghost use Rattle.ports_io.specs.Outside.{HasCause, counted};

use crate::count::one_more;
use crate::{Failed, Sink};
use std::io::Write;

/// Standard output as a sink, through the writer that `main` has of it, which is to hold no bytes back. It
/// tells no bytes.
#[derive(Drop)]
pub struct OutputSink<O> {
    writer: O,
    faults: u64,
}

impl<O: Write> OutputSink<O> {
    pub fn new(writer: O) -> OutputSink<O>
        ensures { result.faults ≡ 0 }
    {
        OutputSink { writer, faults: 0 }
    }
}

impl<O: Write> Sink for OutputSink<O> {
    ghost got = { λ _. None };

    ghost faults = { λ sink. sink.faults };

    /// One write of the writer. Where it takes no byte of some, that is a failure.
    fn write(&mut self, bytes: &[u8]) -> Result<usize, Failed>
        ensures within { IfOk result (λ n. n ≤ length bytes.now) }
        ensures some { IfOk result (λ n. 0 < length bytes.now → 0 < n) }
        ensures cause { HasCause self.old.faults self.new.faults result }
        ensures writer { IfOk result (λ n. Appends (O.contents self.old.writer) (O.contents self.new.writer) (take n bytes.now)) }
        ensures writer_kept { OnErr result (Keeps (O.contents self.old.writer) (O.contents self.new.writer)) }
        ensures fault { OnErr result (self.new.faults ≡ counted self.old.faults) }
        ensures quiet { OnOk result (self.new.faults ≡ self.old.faults) }
    {
        match self.writer.write(bytes) {
            Ok(count) if count > 0 || bytes.is_empty() => Ok(count),
            _ => {
                self.faults = one_more(self.faults);
                Err(Failed)
            }
        }
    }
}

#[cfg(test)]
mod tests {
    use super::*;
    use std::io;
    use std::io::ErrorKind;

    /// Takes two bytes, then none, then fails, in turn.
    #[derive(Drop)]
    struct Stutter {
        turn: u8,
    }

    impl Write for Stutter {
        fn write(&mut self, buf: &[u8]) -> io::Result<usize> {
            self.turn = self.turn.wrapping_add(1) % 3;
            match self.turn {
                1 => Ok(buf.len().min(2)),
                2 => Ok(0),
                _ => Err(ErrorKind::Other.into()),
            }
        }

        fn flush(&mut self) -> io::Result<()> {
            Ok(())
        }
    }

    #[test]
    fn counts_each_error_and_each_write_of_nothing(rt: HostRuntime) {
        for (before, once, twice) in [(0, 1, 2), (u64::MAX - 1, u64::MAX, u64::MAX)] {
            let mut sink = OutputSink {
                writer: Stutter { turn: 0 },
                faults: before,
            };
            assert_eq!(rt; sink.write(b"abc"), Ok(2));
            assert_eq!(rt; sink.faults, before);
            assert_eq!(rt; sink.write(b"c"), Err(Failed));
            assert_eq!(rt; sink.faults, once);
            assert_eq!(rt; sink.write(b"c"), Err(Failed));
            assert_eq!(rt; sink.faults, twice);
        }
        let mut output = OutputSink::new(io::writer(&rt));
        assert_eq!(rt; output.write(b""), Ok(0));
    }
}
