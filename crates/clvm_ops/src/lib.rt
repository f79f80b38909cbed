//! The operators of CLVM on trees in an arena.
#![tactic(auto)]

mod application;
pub mod arithmetic;
mod core_ops;
mod division;
mod folds;
mod give;
mod kinds;
mod on_atoms;
mod on_numbers;
mod on_trees;
mod operands;
mod parts;
mod shifts;
mod truth;

pub use core_ops::CoreOps;
pub use kinds::first_fault;

#[cfg(test)]
mod tests;
