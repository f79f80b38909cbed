//! The limits of operands. This project's own.

/// How many bytes the text of a condition has at most.
pub const MOST_TEXT: usize = 1_024;

/// The modes of messages are below this.
pub const MODES: u8 = 64;
