use crate::HASH_BYTES;

/// Thirty-two bytes: a hash, or what stands in a hash's place, such as the genesis data.
#[derive(Clone, Copy, Debug, PartialEq, Eq, PartialOrd, Ord, Hash)]
pub struct Hash32 {
    pub bytes: [u8; HASH_BYTES],
}
