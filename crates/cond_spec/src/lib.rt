//! The definitions of conditions: what the value of a run lists, and the rules that a list of spends can break by its
//! conditions alone.
#![tactic(auto)]

pub mod codes;
mod condition;
pub mod costs;
pub mod limits;
mod party;

pub use condition::Condition;
pub use party::Party;
