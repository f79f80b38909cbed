//! The errors of the outside.
ghost use Rattle.std.specs.Prelude.{◌≡◌};
ghost use Rattle.ports_io.specs.declared.errors.LibraryError.TheVariants.{OutOfMemory};

use std::alloc::AllocError;

/// A source or a sink failed.
#[derive(Clone, Copy, Debug, PartialEq, Eq)]
pub struct Failed;

/// Why a library gave no answer.
#[derive(Clone, Copy, Debug, PartialEq, Eq)]
pub enum LibraryError {
    /// The library failed.
    Fault,
    OutOfMemory,
}

impl From<AllocError> for LibraryError {
    ghost from_gives = { λ _ error. error ≡ OutOfMemory };

    fn from(_: AllocError) -> LibraryError {
        LibraryError::OutOfMemory
    }
}
