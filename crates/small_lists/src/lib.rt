//! Small lists, which contracts see as lists: one of fewer than 2^32 elements, and one of bytes.
#![tactic(auto)]

mod byte_list;
mod short_list;
#[cfg(test)]
mod tests;

pub use byte_list::ByteList;
pub use short_list::ShortList;
pub use std::alloc::AllocError as OutOfMemory;
