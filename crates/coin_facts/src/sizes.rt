/// How many bytes a hash has.
pub const HASH_BYTES: usize = 32;

/// How many bytes a public key has.
pub const KEY_BYTES: usize = 48;
