//! The verdict on a list of spends: the first rule that it breaks, or its cost and its fee.
#![tactic(auto)]

mod costs;
mod ids;
mod judging;
mod locks;
mod new_coins;
mod records;
mod signing;
mod sums;
mod together;
mod verdict;

pub use coin_facts::OutOfMemory;
pub use judge_spec::limits::GREATEST_MAX_COST;
pub use judging::{judge, judge_facts};
pub use verdict::Verdict;

#[cfg(test)]
mod tests;
