//! What a spend's bytes say by themselves: its run, its conditions, and what they cost; and the bundles of a pool.
#![tactic(auto)]

mod copies;
mod fault;
mod found;
mod item;
mod own_rules;
mod run;

pub use fault::SpendFault;
pub use found::{FactList, Facts};
pub use item::Item;
pub use judge_spec::{Class, Limits};
pub use run::facts;

#[cfg(test)]
mod tests;
