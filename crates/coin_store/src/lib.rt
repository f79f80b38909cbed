//! The coins of a chain in a hashed store.
#![tactic(auto)]

mod coins;
mod store;

pub use chain_spec::{Peak, Record};
pub use coin_facts::OutOfMemory;
pub use coins::Coins;
pub use store::{StartFault, Store};
