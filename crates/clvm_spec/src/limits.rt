//! The limits of the machine. The definitions and the code share these numbers, each of which stands here alone. They are
//! this project's own.

/// How many bytes a tree that is read, or a text of CLVM, has at most.
pub const MOST_SPELLED: usize = 67_108_864;

/// How many bytes a tree's spelling has at most where a command writes it.
pub const MOST_WRITTEN: usize = 33_554_432;

/// The pairs of every run's fuel.
pub const MOST_PAIRS: u64 = 16_777_216;

/// The bytes of every run's fuel.
pub const MOST_BYTES: u64 = 134_217_728;

/// The depth of every run's fuel.
pub const MOST_DEPTH: u32 = 1_048_576;

/// How many parentheses of a text may be open at once.
pub const MOST_OPEN: usize = 1_024;

/// How many bytes the atom of a number has at most.
pub const NUMBER_BYTES: usize = 16;

/// By how many bits a number is shifted at most, either way.
pub const MOST_SHIFT: u32 = 65_535;
