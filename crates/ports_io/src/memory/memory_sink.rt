// Bytes in memory as a sink.
ghost use Rattle.std.specs.Prelude.{◌≡◌, ◌<◌, ◌≤◌, ◌++◌, [], IfOk, IsErr, OnErr, OnOk, Some, length, take};
ghost use Rattle.ports_io.specs.Outside.{HasCause};
ghost use Rattle.ports_io.specs.Memory.{FailsNext, all_calls, sink_after, sink_after_fault};

use super::calls::FailingCalls;
use crate::count::one_more;
use crate::{Failed, Sink};
use std::alloc::Global;
use std::marker::Model;

/// A sink in memory, which tells the bytes that it got.
#[derive(Drop)]
pub struct MemorySink {
    bytes: Vec<u8>,
    calls: FailingCalls,
    faults: u64,
}

impl Model for MemorySink {
    ghost use Rattle.ports_io.specs.Memory.{SinkState};

    ghost Value = { SinkState };

    ghost view = { λ s. record { got = s.bytes.items; calls = s.calls; faults = s.faults } };
}

impl MemorySink {
    /// The writes whose numbers, counted from 0, stand in `failing` fail.
    pub fn new(alloc: Global, failing: Vec<u64>) -> MemorySink
        ensures { result ≡ record { got = []; calls = all_calls failing.items; faults = 0 } }
    {
        MemorySink {
            bytes: Vec::new(alloc),
            calls: FailingCalls::new(failing),
            faults: 0,
        }
    }

    /// The bytes that it got.
    pub fn bytes(&self) -> &[u8]
        ensures { result.now ≡ self.now.got }
    {
        self.bytes.as_slice()
    }
}

impl Sink for MemorySink {
    ghost got = { λ sink. Some sink.got };

    ghost faults = { λ sink. sink.faults };

    /// Appends all of `bytes`. Where it finds no memory, it fails as well.
    fn write(&mut self, bytes: &[u8]) -> Result<usize, Failed>
        ensures within { IfOk result (λ n. n ≤ length bytes.now) }
        ensures some { IfOk result (λ n. 0 < length bytes.now → 0 < n) }
        ensures appended { IfOk result (λ n. self.new.got ≡ self.old.got ++ take n bytes.now) }
        ensures kept { OnErr result (self.new.got ≡ self.old.got) }
        ensures cause { HasCause self.old.faults self.new.faults result }
        ensures fails { FailsNext self.old.calls → IsErr result }
        ensures count { IfOk result (λ n. n ≡ length bytes.now) }
        ensures after { OnOk result (self.new ≡ sink_after bytes.now self.old) }
        ensures fault { OnErr result (self.new ≡ sink_after_fault self.old) }
    {
        if self.calls.fails_next() || self.bytes.extend_from_slice(bytes).is_err() {
            self.faults = one_more(self.faults);
            return Err(Failed);
        }
        Ok(bytes.len())
    }
}
