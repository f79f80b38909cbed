//! The library of Chialisp: the texts that every module may include, and curried programs.
#![tactic(auto)]

mod currying;
mod nodes;
#[cfg(test)]
mod tests;
mod texts;
mod uncurrying;

pub use currying::{curried_hash, curry};
pub use nodes::Nodes;
pub use texts::built_in;
pub use uncurrying::{Curried, uncurry};
