//! Which bundles of a pool a new one conflicts with, and whether it may replace them. Nothing here takes memory.
#![tactic(auto)]

mod conflict;
mod rate;
mod replacement;

pub use conflict::conflicts;
pub use rate::Rate;
pub use replacement::replaces;
pub use spend_run::Item;
