//! The definitions of the chain: its blocks, its coin records, and the store that has them.
#![tactic(auto)]

mod chain;
pub mod laws;

pub use chain::{Peak, Record, Unspent};
