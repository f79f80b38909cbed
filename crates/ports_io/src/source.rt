// Where bytes come from.
ghost use Rattle.std.specs.Prelude.{◌≡◌, ◌+◌, ◌<◌, ◌≤◌, ℕ, List, Option, IfOk, IsErrOf, OnErr, OnOk, length, take};
ghost use Rattle.std.specs.Io.KnownBytes.{Consumes, IsAtEnd, Keeps};
ghost use Rattle.ports_io.specs.Outside.{HasCause, Rose, Took};
ghost use Rattle.ports_io.specs.declared.source.InputFault.TheVariants.{Fault, OutOfMemory};

use crate::Failed;
use std::alloc::{AllocError, Global};

/// Gives bytes, piece by piece.
pub trait Source {
    /// The bytes that are left, where the source tells them.
    ghost left: { Self → Option (List ℕ) };

    /// How often the source has failed.
    ghost faults: { Self → ℕ };

    /// Takes a prefix of what is left into the front of `into` and answers its length. Where `into` has
    /// room, 0 is the end of the input. A read that fails takes nothing.
    fn read(&mut self, into: &mut [u8]) -> Result<usize, Failed>
        ensures within { IfOk result (λ n. n ≤ length into.new) }
        ensures taken { IfOk result (λ n. Consumes (left self.old) (left self.new) (take n into.new)) }
        ensures end { IfOk result (λ n. n ≡ 0 → 0 < length into.new → IsAtEnd (left self.new)) }
        ensures kept { OnErr result (Keeps (left self.old) (left self.new)) }
        ensures cause { HasCause (faults self.old) (faults self.new) result };
}

/// Why an input wasn't read to its end.
#[derive(Clone, Copy, Debug, PartialEq, Eq)]
pub enum InputFault {
    /// The source failed.
    Fault,
    /// More bytes were taken than are allowed.
    TooLong,
    OutOfMemory,
}

impl From<Failed> for InputFault {
    ghost from_gives = { λ _ fault. fault ≡ Fault };

    fn from(_: Failed) -> InputFault {
        InputFault::Fault
    }
}

impl From<AllocError> for InputFault {
    ghost from_gives = { λ _ fault. fault ≡ OutOfMemory };

    fn from(_: AllocError) -> InputFault {
        InputFault::OutOfMemory
    }
}

// The most bytes that one read takes.
const PIECE: usize = 65_536;

fn room_for_piece(alloc: Global) -> Result<Vec<u8>, AllocError>
    ensures { IfOk result (λ room. length room.items ≡ PIECE) }
{
    vec![in alloc; 0; PIECE]
}

/// The whole input, where it has at most `most` bytes. Nothing is read after the source's first fault, nor
/// once more than `most` bytes were taken. After any answer what is left is the input without what was taken.
pub fn read_to_limit<S: Source>(
    alloc: Global,
    source: &mut S,
    most: usize,
) -> Result<Vec<u8>, InputFault>
    ensures within { IfOk result (λ bytes. length bytes.items ≤ most) }
    ensures whole { IfOk result (λ bytes. Consumes (S.left source.old) (S.left source.new) bytes.items) }
    ensures end { OnOk result (IsAtEnd (S.left source.new)) }
    ensures long { IsErrOf result InputFault.TooLong
        → Took (S.left source.old) (S.left source.new) (λ n. (most < n) × (n ≤ most + PIECE)) }
    ensures fault { IsErrOf result InputFault.Fault
        → Took (S.left source.old) (S.left source.new) (λ n. n ≤ most) }
    ensures memory { IsErrOf result InputFault.OutOfMemory
        → Took (S.left source.old) (S.left source.new) (λ n. n ≤ most + PIECE) }
    ensures later { S.faults source.old ≤ S.faults source.new }
    ensures cause { IsErrOf result InputFault.Fault → Rose (S.faults source.old) (S.faults source.new) }
{
    let mut room = room_for_piece(alloc)?;
    let piece = room.as_mut_slice();
    let mut bytes = Vec::new(alloc);
    loop {
        let taken = source.read(piece)?;
        if taken == 0 {
            return Ok(bytes);
        }
        bytes.extend_from_slice(&piece[..taken])?;
        if bytes.len() > most {
            return Err(InputFault::TooLong);
        }
    }
}
