//! The conditions that the value of a run lists, read from its tree, and what they cost.
#![tactic(auto)]

mod cost;
mod fault;
mod forms;
pub mod laws;
mod listing;
mod operands;
mod parts;

pub use coin_facts::OutOfMemory;
pub use cond_spec::{Condition, Party};
pub use cost::conditions_cost;
pub use fault::CondFault;
pub use listing::{Conditions, conditions};

#[cfg(test)]
mod tests;
