//! The members of a JSON object of a session.
ghost use Rattle.std.specs.Prelude.{◌≡◌, IsTrue, IfOk};
ghost use Rattle.clvm_spec.specs.Spelled.{is_spelled};
ghost use Rattle.serde_json.specs.View.{view};
ghost use Rattle.session_spec.specs.Members.{has, whole, bytes, hash, code, coin};
ghost use Rattle.chia_sim.specs.Reads.{Reads};

use crate::form::FormFault;
use clvm_tree::is_spelled;
use coin_facts::{Bytes, Coin, Hash32};
use hex::{FromHex, FromHexError};
use serde_json::Value;
use std::alloc::Global;

// Whether an object has a member of this name.
pub(crate) fn has(value: &Value, name: &str) -> bool
    ensures { result ≡ has name.now (view value.now) }
{
    value.get(name).is_some()
}

// A whole number of 0 to 2^64 - 1.
pub(crate) fn whole(value: &Value) -> Option<u64>
    ensures { result ≡ whole (view value.now) }
{
    value.as_u64()
}

// 32 bytes in hexadecimal.
pub(crate) fn hash(value: &Value) -> Option<Hash32>
    ensures { result ≡ hash (view value.now) }
{
    let bytes = <[u8; 32]>::from_hex(value.as_str()?).ok()?;
    Some(Hash32 { bytes })
}

// Bytes in hexadecimal.
fn bytes(alloc: Global, value: &Value) -> Result<Bytes, FormFault>
    ensures { Reads (bytes (view value.now)) result }
{
    let text = value.as_str().ok_or(FormFault::Unbuilt)?;
    match hex::decode(alloc, text) {
        Ok(bytes) => Ok(Bytes::from_vec(bytes)),
        Err(FromHexError::OutOfMemory) => Err(FormFault::OutOfMemory),
        Err(_) => Err(FormFault::Unbuilt),
    }
}

// The bytes of one spelled tree, in hexadecimal.
pub(crate) fn code(alloc: Global, value: &Value) -> Result<Bytes, FormFault>
    ensures value { Reads (code (view value.now)) result }
    ensures spelled { IfOk result (λ code. IsTrue (is_spelled code)) }
{
    let code = bytes(alloc, value)?;
    if is_spelled(alloc, code.as_slice())? {
        Ok(code)
    } else {
        Err(FormFault::Unbuilt)
    }
}

// A coin, by its three members.
pub(crate) fn coin(value: &Value) -> Option<Coin>
    ensures { result ≡ coin (view value.now) }
{
    Some(Coin {
        parent: hash(value.get("parent_coin_info")?)?,
        puzzle_hash: hash(value.get("puzzle_hash")?)?,
        amount: whole(value.get("amount")?)?,
    })
}
