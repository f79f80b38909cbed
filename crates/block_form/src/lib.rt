//! Spends and bundles in bytes: what they add to a generator, and a bundle's id.
#![tactic(auto)]

mod hashes;
mod sizes;

pub use block_spec::{Attested, Block, Bundle, Signed, Spend, Spends};
pub use hashes::bundle_id;
pub use sizes::added_bytes;

#[cfg(test)]
mod tests;
