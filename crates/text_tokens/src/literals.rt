//! What stands for an atom.

ghost use Rattle.std.specs.Prelude.{◌≡◌, IfOk};
ghost use Rattle.clvm_spec.specs.Numbers.{shortest_atom};
ghost use Rattle.text_tokens.specs.Meanings.{literal_bytes};

use crate::digits::HexDigits;
use clvm_spec::shortest_bytes;
use std::alloc::{AllocError, Global};

/// A token that stands for an atom.
#[derive(Drop)]
pub enum Literal<'a> {
    /// A number. Its atom is the shortest of that number.
    Number(i128),
    /// The digits behind `0x`.
    Hex(HexDigits<'a>),
    /// What stands between two quotes.
    Text(&'a [u8]),
}

// The shortest atom of a number.
fn number_bytes(alloc: Global, number: i128) -> Result<Vec<u8>, AllocError>
    ensures { IfOk result (λ bytes. bytes.items ≡ shortest_atom number) }
{
    let bytes = number.to_be_bytes();
    Vec::from_slice(alloc, shortest_bytes(&bytes))
}

impl<'a> Literal<'a> {
    /// The bytes of the atom.
    pub fn bytes(&self, alloc: Global) -> Result<Vec<u8>, AllocError>
        ensures { IfOk result (λ bytes. bytes.items ≡ literal_bytes self.now) }
    {
        match self {
            Literal::Number(number) => number_bytes(alloc, *number),
            Literal::Hex(digits) => digits.bytes(alloc),
            Literal::Text(bytes) => Vec::from_slice(alloc, bytes),
        }
    }
}
