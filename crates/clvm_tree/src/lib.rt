//! CLVM trees in an arena: their spelling as bytes, their hash, the numbers of atoms, and tables of operators on them.
#![tactic(auto)]

ghost use Rattle.std.specs.Prelude.{◌≡◌};
ghost use Rattle.clvm_tree.specs.declared.ReadFault.TheVariants as read_fault;
ghost use Rattle.clvm_tree.specs.declared.WriteFault.TheVariants as write_fault;

mod arena;
mod byte_hashes;
mod byte_table;
mod entry;
mod hasher;
mod heads;
mod kept;
mod numbers;
mod operators;
mod reader;
mod spelled;
mod writer;

pub use arena::{Sight, Trees};
pub use clvm_spec::{Fuel, Which};
pub use hasher::{Hash, atom_hash, list_hash, pair_hash};
pub use numbers::{number, unsigned};
pub use operators::{Answer, OpFault, Operators};
pub use spelled::is_spelled;
/// The error of a call that fails only for want of memory.
pub use std::alloc::AllocError as OutOfMemory;
use std::alloc::AllocFailed;

/// A tree of a `Trees`, which it stands for as long as the `Trees` lives.
#[derive(Clone, Copy, Debug, PartialEq, Eq)]
pub struct Node(pub(crate) u32);

/// Why bytes are read as no tree, with the place of the first flaw that a reader meets who walks from the front.
#[derive(Clone, Copy, Debug, PartialEq, Eq)]
pub enum ReadFault {
    /// The bytes end before the tree does.
    Cut,
    /// A shorter prefix, or none, could spell the atom.
    LongSpelling(u32),
    /// A byte f8 to fe, which begins no tree.
    BadPrefix(u32),
    /// More bytes follow the tree.
    Left(u32),
    OutOfMemory,
}

impl<T: Drop> From<AllocFailed<T>> for ReadFault {
    ghost from_gives = { λ _ fault. fault ≡ read_fault.OutOfMemory };

    fn from(_: AllocFailed<T>) -> ReadFault {
        ReadFault::OutOfMemory
    }
}

impl From<OutOfMemory> for ReadFault {
    ghost from_gives = { λ _ fault. fault ≡ read_fault.OutOfMemory };

    fn from(_: OutOfMemory) -> ReadFault {
        ReadFault::OutOfMemory
    }
}

/// Why a tree is not written.
#[derive(Clone, Copy, Debug, PartialEq, Eq)]
pub enum WriteFault {
    /// The tree has no spelling, or one of more bytes than may be written.
    TooLong,
    OutOfMemory,
}

impl<T: Drop> From<AllocFailed<T>> for WriteFault {
    ghost from_gives = { λ _ fault. fault ≡ write_fault.OutOfMemory };

    fn from(_: AllocFailed<T>) -> WriteFault {
        WriteFault::OutOfMemory
    }
}

impl From<OutOfMemory> for WriteFault {
    ghost from_gives = { λ _ fault. fault ≡ write_fault.OutOfMemory };

    fn from(_: OutOfMemory) -> WriteFault {
        WriteFault::OutOfMemory
    }
}

#[cfg(test)]
mod tests;
