//! Why a text isn't read on.

ghost use Rattle.std.specs.Prelude.{◌≡◌};
ghost use Rattle.open_lists.specs.declared.fault.Fault.TheVariants as fault;

use crate::OutOfMemory;
use clvm_spec::ScanKind;
use std::alloc::AllocFailed;

/// Why a text isn't read on: its first fault.
#[derive(Clone, Copy, Debug)]
pub enum Fault<P> {
    /// The text has no form there.
    At(ScanKind, P),
    /// A symbol that the language doesn't know stands there, before what is wrong.
    Unknown(P),
    OutOfMemory,
}

impl<T: Drop, P> From<AllocFailed<T>> for Fault<P> {
    ghost from_gives = { λ _ made. made ≡ fault.OutOfMemory };

    fn from(_: AllocFailed<T>) -> Fault<P> {
        Fault::OutOfMemory
    }
}

impl<P> From<OutOfMemory> for Fault<P> {
    ghost from_gives = { λ _ made. made ≡ fault.OutOfMemory };

    fn from(_: OutOfMemory) -> Fault<P> {
        Fault::OutOfMemory
    }
}
