//! Chialisp text: its forms, each with the place of its first byte.
#![tactic(auto)]

mod built;
mod copies;
mod fault;
mod form;
mod form_copy;
mod form_list;
pub mod laws;
mod place;
mod reader;
mod seen;
mod shapes;
#[cfg(test)]
mod tests;
mod word;

pub use built::Built;
pub use clvm_spec::ScanKind as ReadKind;
pub use copies::copy;
pub use fault::ReadAt;
pub use form::{Form, FormBox, Parts};
pub use form_list::Forms;
pub use place::Place;
pub use reader::forms;
pub use seen::{Seen, Sight};
pub use std::alloc::AllocError as OutOfMemory;
pub use word::Word;
