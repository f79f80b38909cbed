//! A module's text taken apart: the texts are read, and the definitions are found in them, with included ones in place.
#![tactic(auto)]

mod entry;
mod fault;
mod lists;
mod names;
mod parameters;
mod texts;
mod walk;
mod whole;
mod written;

pub use fault::PartsFault;
pub use lisp_read::{Place, ReadKind};
pub use std::alloc::AllocError as OutOfMemory;
pub use whole::{ModuleParts, parts};
pub use written::{Role, Written};

#[cfg(test)]
mod tests;
