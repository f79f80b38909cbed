//! The program's words: which command they are, and what they say to it.
#![tactic(auto)]

mod currying;
mod evaluation;
pub mod limits;
mod parse;
mod row;
pub mod said;
pub mod words;

pub use said::{Command, WordsFault};
pub use words::command;

#[cfg(test)]
mod tests;
