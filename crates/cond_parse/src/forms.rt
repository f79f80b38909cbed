//! The forms of operands: what the bytes of an atom stand for.

ghost use Rattle.std.specs.Prelude.{◌≡◌, ◌≤◌, ◌^◌, IfSome, ◌<◌};
ghost use Rattle.clvm_spec.specs.Tree.{Atom};
ghost use Rattle.coin_facts.specs.Atoms.{hash_of, number_below, amount_of};
ghost use Rattle.cond_spec.specs.Operands.{moment_of, mode_of};

use clvm_spec::limits::NUMBER_BYTES;
use clvm_spec::shortest_bytes;
use clvm_tree::{number, unsigned};
use coin_facts::{HASH_BYTES, Hash32};
use cond_spec::limits::MODES;

/// A hash, which has 32 bytes.
pub(crate) fn hash_of(bytes: &[u8]) -> Option<Hash32>
    ensures { result ≡ hash_of (Atom bytes.now) }
{
    if bytes.len() != HASH_BYTES {
        return None;
    }
    let mut hash = [0; HASH_BYTES];
    hash.copy_from_slice(bytes);
    Some(Hash32 { bytes: hash })
}

// A whole number below a limit, of its shortest atom.
fn number_below(bytes: &[u8], limit: u128) -> Option<u128>
    requires { limit ≤ 2 ^ 64 }
    ensures value { result ≡ number_below limit (Atom bytes.now) }
    ensures below { IfSome result (λ value. value < limit) }
{
    if bytes.len() > NUMBER_BYTES {
        return None;
    }
    let value = unsigned(bytes);
    let digits = value.to_be_bytes();
    if value < limit && bytes == shortest_bytes(digits.as_slice()) {
        Some(value)
    } else {
        None
    }
}

/// An amount, of the shortest atom of 0 to 2^64 - 1.
pub(crate) fn amount_of(bytes: &[u8]) -> Option<u64>
    ensures { result ≡ amount_of (Atom bytes.now) }
{
    let amount = number_below(bytes, 1 << 64)?;
    Some(amount as u64)
}

/// A mode, of the shortest atom of 0 to 63.
pub(crate) fn mode_of(bytes: &[u8]) -> Option<u8>
    ensures { result ≡ mode_of (Atom bytes.now) }
{
    let mode = number_below(bytes, MODES as u128)?;
    Some(mode as u8)
}

/// A moment, of the shortest atom of a number, which has at most 16 bytes.
pub(crate) fn moment_of(bytes: &[u8]) -> Option<i128>
    ensures { result ≡ moment_of (Atom bytes.now) }
{
    if bytes.len() > NUMBER_BYTES {
        return None;
    }
    let moment = number(bytes);
    let digits = moment.to_be_bytes();
    if bytes == shortest_bytes(digits.as_slice()) {
        Some(moment)
    } else {
        None
    }
}
