//! Hexadecimal text in either case, after an optional `0x`.
ghost use Rattle.std.specs.Prelude.{◌≡◌, IfOk, IfSome, IsTrue};
ghost use Rattle.clvm_spec.specs.Spelled.{is_spelled, if_spelled};
ghost use Rattle.session_spec.specs.Values.{without_hex_mark, hexadecimal, text_of_hash, text_of_code};

use crate::OutOfMemory;
use clvm_spec::limits::MOST_SPELLED;
use clvm_tree::is_spelled;
use coin_facts::{Bytes, HASH_BYTES, Hash32};
use hex::{FromHex, FromHexError};
use std::alloc::Global;

// The text without an optional `0x` in front.
fn digits_of(text: &str) -> &[u8]
    ensures { result.now ≡ without_hex_mark text.now }
{
    match text.as_bytes() {
        [b'0', b'x', digits @ ..] => digits,
        digits => digits,
    }
}

/// The bytes that a text stands for, where it is hexadecimal of not too many.
pub(crate) fn hexadecimal(alloc: Global, text: &str) -> Result<Option<Bytes>, OutOfMemory>
    ensures { IfOk result (λ bytes. bytes ≡ hexadecimal text.now) }
{
    match hex::decode(alloc, digits_of(text)) {
        Ok(bytes) if bytes.len() <= MOST_SPELLED => Ok(Some(Bytes::from_vec(bytes))),
        Err(FromHexError::OutOfMemory) => Err(OutOfMemory),
        _ => Ok(None),
    }
}

/// The 32 bytes that a text stands for.
pub(crate) fn text_hash(text: &str) -> Option<Hash32>
    ensures { result ≡ text_of_hash text.now }
{
    let bytes = <[u8; HASH_BYTES]>::from_hex(digits_of(text)).ok()?;
    Some(Hash32 { bytes })
}

/// The bytes of one spelled tree that a text stands for.
pub(crate) fn text_code(alloc: Global, text: &str) -> Result<Option<Bytes>, OutOfMemory>
    ensures value { IfOk result (λ code. code ≡ text_of_code text.now) }
    ensures spelled { IfOk result (λ found. IfSome found (λ code. IsTrue (is_spelled code))) }
{
    match hexadecimal(alloc, text)? {
        Some(bytes) => if_spelled(alloc, bytes),
        None => Ok(None),
    }
}

fn if_spelled(alloc: Global, bytes: Bytes) -> Result<Option<Bytes>, OutOfMemory>
    ensures value { IfOk result (λ code. code ≡ if_spelled bytes) }
    ensures spelled { IfOk result (λ found. IfSome found (λ code. IsTrue (is_spelled code))) }
{
    if is_spelled(alloc, bytes.as_slice())? {
        Ok(Some(bytes))
    } else {
        Ok(None)
    }
}
