//! Numbers of the pool. They are this project's own.

/// How many bytes the solution of a spend of the Forward shape may have. A rewrite adds fewer than it leaves to the greatest
/// length of a tree that is read.
pub const MOST_FORWARD_SOLUTION: usize = 67_000_000;

/// How much more the fee of a bundle is, in mojos, than the fees of those that it replaces together.
pub const LEAST_RAISE: u128 = 10_000_000;
