//! The outside as traits: a source of bytes, a sink of bytes, a library of texts and a gate, each with a
//! count of its faults. Beside them stand the two loops over them, forms in memory, and the real forms.
#![tactic(auto)]

mod count;
mod errors;
mod gate;
mod library;
mod memory;
mod real;
mod sink;
mod source;
#[cfg(test)]
mod tests;

pub use errors::{Failed, LibraryError};
pub use gate::{Gate, OpenGate, Point};
pub use library::Library;
pub use memory::{MemoryLibrary, MemorySink, MemorySource};
pub use real::{FolderLibrary, InputSource, OutputSink};
pub use sink::{Sink, write_all};
pub use source::{InputFault, Source, read_to_limit};
/// The error of a call that fails only for want of memory.
pub use std::alloc::AllocError as OutOfMemory;
