//! Spends, bundles and blocks as values, and the definitions of their trees, their bytes and a bundle's id.
#![tactic(auto)]

mod attested;
mod block;
mod bundle;
pub mod laws;
mod sizes;
mod spend;
mod spends;

pub use attested::{Attested, Signed};
pub use block::Block;
pub use bundle::Bundle;
pub use sizes::EMPTY_GENERATOR_BYTES;
pub use spend::Spend;
pub use spends::Spends;
