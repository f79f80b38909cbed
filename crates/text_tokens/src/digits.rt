//! Hexadecimal digits.

ghost use Rattle.std.specs.Prelude.{◌≡◌, ℕ, List, [], true, is_ok, length, IfOk};
ghost use Rattle.std.specs.List.{list_all};
ghost use Rattle.std.specs.Result.{result_ok, result_unwrap_or};
ghost use Rattle.std.specs.Char.{is_ascii_hexdigit};
ghost use Rattle.hex.specs.Hex.{decode_of};

use std::alloc::{AllocError, Global};
use std::marker::Model;

/// Hexadecimal digits in either case, an even number of them. A contract sees the bytes that they write.
#[derive(Drop)]
pub struct HexDigits<'a> {
    digits: &'a [u8],
}

impl<'a> Model for HexDigits<'a> {
    ghost Value = { List ℕ };

    ghost view = { λ hex. result_unwrap_or (decode_of hex.digits.now) [] };

    ghost invariant = { λ hex. is_ok (decode_of hex.digits.now) ≡ true };
}

fn are_digits(digits: &[u8]) -> bool
    ensures { result ≡ list_all is_ascii_hexdigit digits.now }
{
    digits.iter().all(|digit| digit.is_ascii_hexdigit())
}

fn are_bytes(digits: &[u8]) -> bool
    ensures { result ≡ is_ok (decode_of digits.now) }
{
    digits.len() % 2 == 0 && are_digits(digits)
}

impl<'a> HexDigits<'a> {
    /// The digits of these bytes, None exactly where they are none of bytes.
    pub fn new(digits: &'a [u8]) -> Option<HexDigits<'a>>
        ensures { result ≡ result_ok (decode_of digits.now) }
    {
        if are_bytes(digits) {
            Some(HexDigits { digits })
        } else {
            None
        }
    }

    /// How many bytes they write.
    pub fn len(&self) -> usize
        ensures { result ≡ length self.now }
    {
        self.digits.len() / 2
    }

    /// The bytes that they write.
    pub fn bytes(&self, alloc: Global) -> Result<Vec<u8>, AllocError>
        ensures { IfOk result (λ bytes. bytes.items ≡ self.now) }
    {
        match hex::decode(alloc, self.digits) {
            Ok(bytes) => Ok(bytes),
            Err(_) => Err(AllocError),
        }
    }
}
