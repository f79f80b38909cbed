//! The numbers of the generated session. The definitions and the code share them. They are this project's own.

/// By what each number of the session's list of numbers is multiplied for the next one.
pub const MULTIPLIER: u64 = 6_364_136_223_846_793_005;

/// What is then added, modulo 2^64.
pub const INCREMENT: u64 = 1_442_695_040_888_963_407;

/// The amount of a coin without what is drawn for it, in mojos.
pub const LEAST_AMOUNT: u64 = 1_000;

/// What each bundle leaves of its coin as fee, in mojos.
pub const FEE: u64 = 100;

/// Every how manyth command is a farm.
pub const FARM_EVERY: u32 = 8;

/// How many seconds a command's number stands for.
pub const SECONDS_APART: u64 = 100;
