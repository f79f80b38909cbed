ghost use Rattle.std.specs.Prelude.{◌≡◌};
ghost use Rattle.lisp_parts.specs.declared.fault.PartsFault.TheVariants as parts_fault;

use crate::{OutOfMemory, Place, ReadKind};
use std::alloc::AllocFailed;
use thiserror::Error;

/// Why a module's text isn't taken apart: its first fault with its place, or what kept from finding one.
#[derive(Clone, Copy, Debug, PartialEq, Eq, Error)]
pub enum PartsFault {
    /// A text can't be read.
    #[error("{0:?} at {1:?}")]
    Read(ReadKind, Place),
    /// A text, a definition or a name isn't of the shape of a module's.
    #[error("not a module at {0:?}")]
    NotAModule(Place),
    /// Two definitions, or two parameters of one tree, have one name: the second one's place.
    #[error("a name twice at {0:?}")]
    NameTwice(Place),
    /// There is no text of that name, it is too long, or there are too many.
    #[error("no text to include at {0:?}")]
    IncludeMissing(Place),
    /// The library failed.
    #[error("library fault")]
    LibraryFault,
    #[error("out of memory")]
    OutOfMemory,
}

impl<T: Drop> From<AllocFailed<T>> for PartsFault {
    ghost from_gives = { λ _ fault. fault ≡ parts_fault.OutOfMemory };

    fn from(_: AllocFailed<T>) -> PartsFault {
        PartsFault::OutOfMemory
    }
}

impl From<OutOfMemory> for PartsFault {
    ghost from_gives = { λ _ fault. fault ≡ parts_fault.OutOfMemory };

    fn from(_: OutOfMemory) -> PartsFault {
        PartsFault::OutOfMemory
    }
}
