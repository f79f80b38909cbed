//! The definitions of judging: the rules by name, the limits of a session, and the verdict on a list of spends.
#![tactic(auto)]

mod class;
pub mod costs;
pub mod laws;
pub mod limits;
mod rule;

pub use class::Class;
pub use limits::Limits;
pub use rule::Rule;
