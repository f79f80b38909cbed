// A reader as a source.
ghost use Rattle.std.specs.Prelude.{◌≡◌, ◌<◌, ◌≤◌, ℕ, List, IfOk, None, OnErr, OnOk, Option, length, take};
ghost use Rattle.std.specs.Io.KnownBytes.{Consumes, IsAtEnd, Keeps};
ghost use Rattle.ports_io.specs.Outside.{HasCause, counted};

use crate::count::one_more;
use crate::{Failed, Source};
use std::io::Read;

/// Standard input as a source, through the reader that `main` has of it. It tells no bytes.
#[derive(Drop)]
pub struct InputSource<I> {
    reader: I,
    faults: u64,
}

impl<I: Read> InputSource<I> {
    pub fn new(reader: I) -> InputSource<I>
        ensures { result.faults ≡ 0 }
    {
        InputSource { reader, faults: 0 }
    }
}

impl<I: Read> Source for InputSource<I> {
    ghost left = { λ _. None };

    ghost faults = { λ source. source.faults };

    /// One read of the reader, which is asked for as many bytes as have room.
    fn read(&mut self, into: &mut [u8]) -> Result<usize, Failed>
        ensures within { IfOk result (λ n. n ≤ length into.new) }
        ensures cause { HasCause self.old.faults self.new.faults result }
        ensures reader { IfOk result (λ n. Consumes (I.remaining self.old.reader) (I.remaining self.new.reader) (take n into.new)) }
        ensures reader_end { IfOk result (λ n. n ≡ 0 → 0 < length into.new → IsAtEnd (I.remaining self.new.reader)) }
        ensures reader_kept { OnErr result (Keeps (I.remaining self.old.reader) (I.remaining self.new.reader)) }
        ensures fault { OnErr result (self.new.faults ≡ counted self.old.faults) }
        ensures quiet { OnOk result (self.new.faults ≡ self.old.faults) }
    {
        match self.reader.read(into) {
            Ok(count) => Ok(count),
            Err(_) => {
                self.faults = one_more(self.faults);
                Err(Failed)
            }
        }
    }
}

#[cfg(test)]
mod tests {
    use super::*;
    use std::io;
    use std::io::ErrorKind;

    /// Gives one byte, then fails, in turn.
    #[derive(Drop)]
    struct Stutter {
        fails: bool,
    }

    impl Read for Stutter {
        fn read(&mut self, buf: &mut [u8]) -> io::Result<usize> {
            let fails = self.fails;
            self.fails = !fails;
            match buf.first_mut() {
                Some(_) if fails => Err(ErrorKind::Other.into()),
                Some(first) => {
                    *first = 7;
                    Ok(1)
                }
                None => Ok(0),
            }
        }
    }

    #[test]
    fn counts_each_error_up_to_the_last_value(rt: HostRuntime) {
        for (before, after) in [(0, 1), (u64::MAX - 1, u64::MAX), (u64::MAX, u64::MAX)] {
            let reader = Stutter { fails: false };
            let mut source = InputSource {
                reader,
                faults: before,
            };
            let mut room = [0u8; 4];
            assert_eq!(rt; source.read(&mut room), Ok(1));
            assert_eq!(rt; (room[0], source.faults), (7, before));
            assert_eq!(rt; source.read(&mut room), Err(Failed));
            assert_eq!(rt; source.faults, after);
        }
        let mut input = InputSource::new(rt.reader());
        assert_eq!(rt; input.read(&mut []), Ok(0));
    }
}
