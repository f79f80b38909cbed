//! The limits of the language. The definitions and the code share these numbers, each of which stands here alone. They are
//! this project's own.

/// How much a tree or a form weighs at most where the language says so.
pub const MOST_WEIGHT: u32 = 262_144;

/// How many turns a module has for all its macro calls.
pub const MOST_TURNS: u32 = 10_000;

/// How many lists stand in one another at most in what the body of a macro gives.
pub const MOST_NESTING: u32 = 1_024;

/// How many texts a module includes at most: each has a number.
pub const MOST_TEXTS: usize = 4_294_967_295;

/// How many bytes of code a module's bound has for each unit of weight, where it has few functions.
pub const UNIT_BYTES: usize = 64;

/// For how many functions the bound has one byte more for each unit.
pub const FUNCTIONS_A_BYTE: usize = 8;
