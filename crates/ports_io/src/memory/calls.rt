// Which calls of an object in memory fail.
ghost use Rattle.std.specs.Prelude.{◌≡◌, ◌↔◌, IsTrue};
ghost use Rattle.ports_io.specs.Memory.{FailsNext, after_call, all_calls};

use std::marker::Model;

/// The calls of an object, numbered from 0, and the numbers of those that fail.
#[derive(Drop)]
pub struct FailingCalls {
    next: Option<u64>,
    failing: Vec<u64>,
}

impl Model for FailingCalls {
    ghost use Rattle.ports_io.specs.Memory.{Calls};

    ghost Value = { Calls };

    ghost view = { λ calls. record { next = calls.next; failing = calls.failing.items } };
}

impl FailingCalls {
    pub fn new(failing: Vec<u64>) -> FailingCalls
        ensures { result ≡ all_calls failing.items }
    {
        FailingCalls {
            next: Some(0),
            failing,
        }
    }

    /// Makes the next call: does it fail?
    pub fn fails_next(&mut self) -> bool
        ensures fails { IsTrue result ↔ FailsNext self.old }
        ensures after { self.new ≡ after_call self.old }
    {
        let Some(number) = self.next else {
            return false;
        };
        self.next = number.checked_add(1);
        self.failing.contains(&number)
    }
}
