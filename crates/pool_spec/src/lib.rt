//! The definitions of the pool: the classes of spends, the fit of a bundle, admission, what a change of the peak leaves, and
//! the block that a pool assembles.
#![tactic(auto)]

pub mod laws;
pub mod limits;
mod lineage;

pub use judge_spec::Limits;
pub use lineage::Lineage;
