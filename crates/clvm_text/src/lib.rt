//! The text form of CLVM trees: printing, and scanning with the first fault and its place.
#![tactic(auto)]

ghost use Rattle.std.specs.Prelude.{◌≡◌};
ghost use Rattle.clvm_text.specs.declared.TextFault.TheVariants as text_fault;

mod form;
mod printer;
mod reader;
mod scanner;

use clvm_tree::OutOfMemory;
pub use printer::print;
pub use scanner::scan;
use std::alloc::AllocFailed;
pub use text_tokens::ScanKind;

/// Why a text is no tree. Of all faults of a text the first from the front is told, with its place in bytes.
#[derive(Clone, Copy, Debug, PartialEq, Eq)]
pub enum TextFault {
    /// The text has no form there.
    Read(ScanKind, u32),
    /// A symbol is no operator's name.
    Name(u32),
    /// A token stands behind the form.
    Left(u32),
    OutOfMemory,
}

impl<T: Drop> From<AllocFailed<T>> for TextFault {
    ghost from_gives = { λ _ fault. fault ≡ text_fault.OutOfMemory };

    fn from(_: AllocFailed<T>) -> TextFault {
        TextFault::OutOfMemory
    }
}

impl From<OutOfMemory> for TextFault {
    ghost from_gives = { λ _ fault. fault ≡ text_fault.OutOfMemory };

    fn from(_: OutOfMemory) -> TextFault {
        TextFault::OutOfMemory
    }
}

#[cfg(test)]
mod tests;
