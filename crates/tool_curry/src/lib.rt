//! The command `curry`: a program, curried with the trees that words stand for.
#![tactic(auto)]

mod line;
#[cfg(test)]
mod tests;

pub use line::Curry;
