//! Expressions: what the forms of a module are, once its macros are expanded.
#![tactic(auto)]

mod fault;
mod node;
mod reader;
mod scope;
mod shape;

pub use fault::FormFault;
pub use lisp_read::{OutOfMemory, Place};
pub use node::{Expression, Node};
pub use reader::expression;
pub use scope::Scope;

#[cfg(test)]
mod tests;
