//! The limits of the program. The definitions and the code share these numbers. They are this project's own.

use clvm_spec::limits::MOST_SPELLED;

/// How many bytes an input has at most: as many as a spelled tree.
pub const MOST_INPUT: usize = MOST_SPELLED;
