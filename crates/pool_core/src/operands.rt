//! The operands of conditions, read from atoms.
ghost use Rattle.std.specs.Prelude.{◌≡◌, ◌^◌, Some, None, nat_lt, if◌then◌else◌};
ghost use Rattle.clvm_spec.specs.Tree.{Atom};
ghost use Rattle.clvm_spec.specs.Numbers.{unsigned};
ghost use Rattle.coin_facts.specs.Atoms.{hash_of, amount_of};

use clvm_spec::shortest_bytes;
use coin_facts::{HASH_BYTES, Hash32};

// The number of big-endian digits, None from 2^64 on.
fn unsigned(bytes: &[u8]) -> Option<u64>
    ensures { result ≡ (if nat_lt (unsigned bytes.now) (2 ^ 64) then Some (unsigned bytes.now) else None) }
{
    let mut value: u64 = 0;
    for byte in bytes {
        if value >= 0x0100_0000_0000_0000 {
            return None;
        }
        value = value * 256 + u64::from(*byte);
    }
    Some(value)
}

/// The amount that an atom stands for, None where it isn't the shortest atom of 0 to 2^64 - 1.
pub(crate) fn amount_of(bytes: &[u8]) -> Option<u64>
    ensures { result ≡ amount_of (Atom bytes.now) }
{
    let value = unsigned(bytes)?;
    let digits = u128::from(value).to_be_bytes();
    if bytes == shortest_bytes(digits.as_slice()) {
        Some(value)
    } else {
        None
    }
}

/// The hash that an atom is, None where it hasn't 32 bytes.
pub(crate) fn hash_of(bytes: &[u8]) -> Option<Hash32>
    ensures { result ≡ hash_of (Atom bytes.now) }
{
    if bytes.len() != HASH_BYTES {
        return None;
    }
    let mut hash = [0; HASH_BYTES];
    hash.copy_from_slice(bytes);
    Some(Hash32 { bytes: hash })
}
