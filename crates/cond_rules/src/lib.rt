//! Tallies of spends: what they make and ask of each other, and the first rule on these that they break.
#![tactic(auto)]

mod deeds;
mod given;
mod index_queue;
mod letter;
mod letters;
mod message;
mod tally;
mod want;
mod wants;

pub use coin_facts::OutOfMemory;
pub use tally::Tally;

#[cfg(test)]
mod tests;
