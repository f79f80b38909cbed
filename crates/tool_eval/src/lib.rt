//! The command `eval`: the run of a program, in words.
#![tactic(auto)]

mod evaluate;
#[cfg(test)]
mod tests;
mod words;

pub use evaluate::Eval;
pub use words::write_tree;

/// How trees are written: as the hexadecimal of their spelling, or as CLVM text.
#[derive(Clone, Copy, Debug, PartialEq, Eq)]
pub enum Style {
    Hexadecimal,
    Text,
}
