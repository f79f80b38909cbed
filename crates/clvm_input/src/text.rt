//! Hexadecimal text.
ghost use Rattle.std.specs.Prelude.{◌≡◌, ◌*◌, ◌≤◌, length, IfOk};
ghost use Rattle.clvm_spec.specs.Tokens.{is_separator};
ghost use Rattle.clvm_input.specs.Texts.{without_front_blanks, without_end_blanks, trimmed, digits_of, bytes_of};
ghost use Rattle.clvm_input.specs.Decoded.{IsDecoded};

use crate::{Fault, InputFault};
use hex::FromHexError;
use std::alloc::Global;

fn is_blank(byte: u8) -> bool
    ensures { result ≡ is_separator byte }
{
    matches!(byte, b' ' | b'\t' | b'\r' | b'\n')
}

fn without_front_blanks(text: &[u8]) -> &[u8]
    ensures value { result.now ≡ without_front_blanks text.now }
    ensures short { length result.now ≤ length text.now }
{
    let mut rest = text;
    'blanks: while let [first, others @ ..] = rest {
        if !is_blank(*first) {
            return rest;
        }
        rest = others;
    }
    rest
}

fn without_end_blanks(text: &[u8]) -> &[u8]
    ensures value { result.now ≡ without_end_blanks text.now }
    ensures short { length result.now ≤ length text.now }
{
    let mut rest = text;
    'blanks: while let [others @ .., last] = rest {
        if !is_blank(*last) {
            return rest;
        }
        rest = others;
    }
    rest
}

// The text without the blanks at both ends.
pub(crate) fn trimmed(text: &[u8]) -> &[u8]
    ensures value { result.now ≡ trimmed text.now }
    ensures short { length result.now ≤ length text.now }
{
    without_end_blanks(without_front_blanks(text))
}

// The text without an optional `0x` in front.
fn digits_of(text: &[u8]) -> &[u8]
    ensures value { result.now ≡ digits_of text.now }
    ensures short { length result.now ≤ length text.now }
{
    match text {
        [b'0', b'x', digits @ ..] => digits,
        _ => text,
    }
}

// The bytes that the digits stand for.
pub(crate) fn bytes_of(alloc: Global, text: &[u8]) -> Result<Vec<u8>, InputFault>
    ensures value { IsDecoded (bytes_of text.now) result }
    ensures short { IfOk result (λ bytes. 2 * length bytes.items ≤ length text.now) }
{
    match hex::decode(alloc, digits_of(text)) {
        Ok(bytes) => Ok(bytes),
        Err(FromHexError::OutOfMemory) => Err(InputFault::OutOfMemory),
        Err(_) => Err(InputFault::Faulty(Fault::Hex)),
    }
}
