//! The limits of what words say. The definitions and the code share these numbers. They are this project's own.

/// The most cost that a run may have.
pub const MOST_COST: u64 = 1_000_000_000_000;

/// The cost of a run whose words name none.
pub const USUAL_COST: u64 = 11_000_000_000;

/// How many arguments `curry` has at most.
pub const MOST_ARGUMENTS: usize = 64;

/// How many digits a number has at most.
pub const MOST_DIGITS: usize = 20;
