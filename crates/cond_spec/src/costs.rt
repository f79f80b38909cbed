//! What conditions cost. The definitions and the code share these numbers, each of which stands here alone. Source: Chia
//! documentation of conditions.

/// A coin that is created.
pub const CREATE_COIN_COST: u64 = 1_800_000;

/// A pair that is to be signed.
pub const SIGNATURE_COST: u64 = 1_200_000;
