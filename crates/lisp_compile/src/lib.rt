//! The compiler: the code of a module, made on stacks of tasks and nodes, so that no depth of a form is too deep.
#![tactic(auto)]

mod parameters;
mod path;
mod pieces;

pub use lisp_read::OutOfMemory;

#[cfg(test)]
mod tests;
