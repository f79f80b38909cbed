//! Spends of a singleton that can be moved onto the singleton's newest coin.
#![tactic(auto)]

mod atoms;
mod fault;
mod found;
mod layer;
mod outline;
mod outputs;
mod rewriting;
mod run;
mod solution;

pub use fault::ShapeFault;
pub use found::Shape;
pub use rewriting::rewrite;
pub use run::{shape, shape_of_facts};
