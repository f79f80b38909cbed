//! The limits of a session's lines. The definitions and the code share these numbers, each of which stands here alone. They
//! are this project's own.

/// How many module lines a session has at most.
pub const MOST_MODULES: usize = 256;

/// How many coin lines a session has at most.
pub const MOST_COINS: usize = 1_000_000;

/// How many commands a session has at most.
pub const MOST_COMMANDS: usize = 1_000_000;

/// How many bytes the name of a module has at most.
pub const MOST_NAME: usize = 64;

/// The only version of a session.
pub const VERSION: u64 = 1;

/// How many lanes a session has at most.
pub const MOST_LANES: u64 = 16;

/// How many lanes a session has that says nothing of them.
pub const DEFAULT_LANES: u64 = 1;

/// The least `max_cost`.
pub const LEAST_MAX_COST: u64 = 1_000_000;
