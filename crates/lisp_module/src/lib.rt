//! Modules: what a Chialisp text is taken apart into, once its macros are expanded.
#![tactic(auto)]

mod module;

pub use lisp_read::{Form, OutOfMemory, Place, Word};
pub use module::{Constant, Definition, Module};

#[cfg(test)]
mod tests;
