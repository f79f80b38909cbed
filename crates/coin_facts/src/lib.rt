//! Coins and their ids, and the small lists that hashes, bytes and ids stand in.
#![tactic(auto)]

mod bytes;
mod coin;
mod hash32;
mod ids;
mod sizes;

pub use bytes::Bytes;
pub use coin::Coin;
pub use hash32::Hash32;
pub use ids::Ids;
pub use sizes::{HASH_BYTES, KEY_BYTES};
pub use std::alloc::AllocError as OutOfMemory;
