//! The coins of a chain in a hashed store.
#![tactic(auto)]

mod block;
mod blocks;
mod records;
mod store;
mod unspent;

pub use chain_spec::{Peak, Record, Unspent};
pub use coin_facts::OutOfMemory;
pub use coin_store::{Coins, StartFault};
pub use store::Store;
