//! A value that threads share, one holder at a time. The value keeps a history of itself, and whoever takes it learns
//! that the history goes on from all that was seen of it.
#![tactic(auto)]

mod pass;
mod replays;
mod rule;
mod steps;
#[cfg(test)]
mod tests;
mod turn;

pub use pass::Pass;
pub use replays::Replays;
pub use turn::{StillHeld, Turn, TurnFault};
