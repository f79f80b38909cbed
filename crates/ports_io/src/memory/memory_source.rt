// Bytes in memory as a source.
ghost use Rattle.std.specs.Prelude.{◌≡◌, ◌<◌, ◌≤◌, ◌↔◌, ◌++◌, [], min, IfOk, IsErr, OnErr, Some, length, take, drop};
ghost use Rattle.ports_io.specs.Outside.{HasCause};
ghost use Rattle.ports_io.specs.Memory.{FailsNext, all_calls, source_after, source_after_fault};

use super::calls::FailingCalls;
use crate::count::one_more;
use crate::{Failed, Source};
use std::marker::Model;

/// A source of bytes in memory, which tells what is left.
#[derive(Drop)]
pub struct MemorySource {
    bytes: Vec<u8>,
    at: usize,
    piece: usize,
    calls: FailingCalls,
    faults: u64,
}

impl Model for MemorySource {
    ghost use Rattle.std.specs.Prelude.{◌<◌, ◌≤◌, length, drop};
    ghost use Rattle.ports_io.specs.Memory.{SourceState};

    ghost Value = { SourceState };

    ghost view = { λ s. record { left = drop s.at s.bytes.items; piece = s.piece; calls = s.calls; faults = s.faults } };

    ghost invariant = { λ s. (s.at ≤ length s.bytes.items) × (0 < s.piece) };
}

impl MemorySource {
    /// Gives at most `piece` bytes in one read. The reads whose numbers, counted from 0, stand in `failing` fail.
    pub fn new(bytes: Vec<u8>, piece: usize, failing: Vec<u64>) -> MemorySource
        requires { 0 < piece }
        ensures { result ≡ record { left = bytes.items; piece = piece; calls = all_calls failing.items; faults = 0 } }
    {
        MemorySource {
            bytes,
            at: 0,
            piece,
            calls: FailingCalls::new(failing),
            faults: 0,
        }
    }
}

impl Source for MemorySource {
    ghost left = { λ source. Some source.left };

    ghost faults = { λ source. source.faults };

    /// Gives as many bytes as are left, have room and are allowed in one read.
    fn read(&mut self, into: &mut [u8]) -> Result<usize, Failed>
        ensures within { IfOk result (λ n. n ≤ length into.new) }
        ensures taken { IfOk result (λ n. self.old.left ≡ take n into.new ++ self.new.left) }
        ensures end { IfOk result (λ n. n ≡ 0 → 0 < length into.new → self.new.left ≡ []) }
        ensures kept { OnErr result (self.new.left ≡ self.old.left) }
        ensures cause { HasCause self.old.faults self.new.faults result }
        ensures fails { IsErr result ↔ FailsNext self.old.calls }
        ensures count { IfOk result (λ n. n ≡ min (min self.old.piece (length into.old)) (length self.old.left)) }
        ensures after { IfOk result (λ n. self.new ≡ source_after n self.old) }
        ensures rest { IfOk result (λ n. drop n into.new ≡ drop n into.old) }
        ensures fault { OnErr result (self.new ≡ source_after_fault self.old) }
        ensures room { OnErr result (into.new ≡ into.old) }
    {
        if self.calls.fails_next() {
            self.faults = one_more(self.faults);
            return Err(Failed);
        }
        let rest = &self.bytes[self.at..];
        let n = self.piece.min(into.len()).min(rest.len());
        into[..n].copy_from_slice(&rest[..n]);
        self.at += n;
        Ok(n)
    }
}
