//! Why a text isn't read.

ghost use Rattle.std.specs.Prelude.{◌≡◌};
ghost use Rattle.lisp_read.specs.declared.fault.ReadAt.TheVariants as read_at;

use crate::{OutOfMemory, ReadKind};
use std::alloc::AllocFailed;
use thiserror::Error;

/// Why a text isn't read.
#[derive(Clone, Copy, Debug, PartialEq, Eq, Error)]
pub enum ReadAt {
    /// The first fault of the text, and its first byte.
    #[error("{0:?} at {1}")]
    At(ReadKind, u32),
    #[error("out of memory")]
    OutOfMemory,
}

impl<T: Drop> From<AllocFailed<T>> for ReadAt {
    ghost from_gives = { λ _ fault. fault ≡ read_at.OutOfMemory };

    fn from(_: AllocFailed<T>) -> ReadAt {
        ReadAt::OutOfMemory
    }
}

impl From<OutOfMemory> for ReadAt {
    ghost from_gives = { λ _ fault. fault ≡ read_at.OutOfMemory };

    fn from(_: OutOfMemory) -> ReadAt {
        ReadAt::OutOfMemory
    }
}
