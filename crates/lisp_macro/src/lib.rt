//! Macros: what their bodies give, and the expansion of a form by them.
#![tactic(auto)]

mod body;
mod call;
mod fault;
mod given;
mod macros;
mod operators;
#[cfg(test)]
mod tests;
mod value;
mod value_copy;
mod walk;

pub use fault::MacroFault;
pub use lisp_read::{Form, OutOfMemory, Place};
pub use macros::Macros;
pub use walk::expand;
