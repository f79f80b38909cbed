//! What a list of spends costs beside its runs and its conditions. This project's own.

/// Each byte of the list's generator.
pub const BYTE_COST: u64 = 12_000;
