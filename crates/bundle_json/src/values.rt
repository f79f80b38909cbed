//! What the values of members are read as, where they name no module.
ghost use Rattle.std.specs.Prelude.{◌≡◌, map, option_map, is_some, IfOk, IfSome};
ghost use Rattle.std.specs.List.{list_all};
ghost use Rattle.serde_json.specs.View.{view};
ghost use Rattle.serde_json.specs.Find.{as_object};
ghost use Rattle.session_spec.specs.Values.{number_between, whole_number, some_bytes, bytes_of_hash, values, objects};
ghost use Rattle.bundle_json.specs.Between.{IsBetween};

use crate::OutOfMemory;
use crate::hexadecimal::{hexadecimal, text_hash};
use coin_facts::{Bytes, Hash32};
use serde_json::Value;
use std::alloc::Global;

/// A JSON whole number, digits alone, between two numbers.
pub fn number_between(value: &Value, least: u64, most: u64) -> Option<u64>
    ensures value { result ≡ number_between least most (view value.now) }
    ensures between { IfSome result (IsBetween least most) }
{
    let number = value.as_u64()?;
    if least <= number && number <= most {
        Some(number)
    } else {
        None
    }
}

/// A whole number of 64 bits.
pub fn whole_number(value: &Value) -> Option<u64>
    ensures { result ≡ whole_number (view value.now) }
{
    number_between(value, 0, u64::MAX)
}

/// The bytes that a hexadecimal text stands for.
pub(crate) fn some_bytes(alloc: Global, value: &Value) -> Result<Option<Bytes>, OutOfMemory>
    ensures { IfOk result (λ bytes. bytes ≡ some_bytes (view value.now)) }
{
    match value.as_str() {
        Some(text) => hexadecimal(alloc, text),
        None => Ok(None),
    }
}

/// 32 bytes, which no name may stand for.
pub(crate) fn bytes_of_hash(value: &Value) -> Option<Hash32>
    ensures { result ≡ bytes_of_hash (view value.now) }
{
    text_hash(value.as_str()?)
}

/// The values of a list.
pub fn list_of(value: &Value) -> Option<&[Value]>
    ensures { option_map (λ list. map view list.now) result ≡ values (view value.now) }
{
    Some(value.as_array()?.as_slice())
}

fn are_objects(list: &[Value]) -> bool
    ensures { result ≡ list_all (λ value. is_some (as_object (view value))) list.now }
{
    list.iter().all(|value| value.is_object())
}

/// The values of a list, where each is an object.
pub(crate) fn objects(value: &Value) -> Option<&[Value]>
    ensures { option_map (λ list. map view list.now) result ≡ objects (view value.now) }
{
    let list = list_of(value)?;
    if are_objects(list) { Some(list) } else { None }
}
