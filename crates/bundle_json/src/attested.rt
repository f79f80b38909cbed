//! What a bundle's member `attested` says is signed.
ghost use Rattle.std.specs.Prelude.{◌≡◌, [], ◌∷◌, map, IfOk, IfSome};
ghost use Rattle.serde_json.specs.View.{view};
ghost use Rattle.block_spec.specs.Attestable.{IsAttestable};
ghost use Rattle.session_spec.specs.declared.member.Member.TheVariants as member;
ghost use Rattle.session_spec.specs.Steps.{all_of};
ghost use Rattle.session_spec.specs.Values.{pair_of, attested_pairs};
ghost use Rattle.session_spec.specs.LineMembers.{plain, optional};
ghost use Rattle.bundle_json.specs.Reads.{Reads};
ghost use Rattle.bundle_json.specs.Pairs.{pair_in, key_in};

use crate::OutOfMemory;
use crate::fault::MemberFault;
use crate::members::found;
use crate::values::{list_of, some_bytes};
use block_form::{Attested, Signed};
use coin_facts::{Bytes, KEY_BYTES};
use serde_json::Value;
use session_spec::Member;
use std::alloc::Global;

// A key, which has 48 bytes.
fn key(alloc: Global, value: &Value) -> Result<Option<Bytes>, OutOfMemory>
    ensures { IfOk result (λ key. key ≡ key_in (view value.now)) }
{
    let bytes = some_bytes(alloc, value)?;
    Ok(bytes.filter(|bytes| bytes.as_slice().len() == KEY_BYTES))
}

fn signed_by(
    alloc: Global,
    key_value: &Value,
    message: &Value,
) -> Result<Option<Signed>, OutOfMemory>
    ensures value { IfOk result (λ signed. signed ≡ pair_of (view key_value.now ∷ view message.now ∷ [])) }
    ensures attestable { IfOk result (λ found. IfSome found IsAttestable) }
{
    let Some(key) = key(alloc, key_value)? else {
        return Ok(None);
    };
    match some_bytes(alloc, message)? {
        Some(message) => Ok(Some(Signed { key, message })),
        None => Ok(None),
    }
}

// A list of a key and a message.
fn signed(alloc: Global, pair: &Value) -> Result<Option<Signed>, OutOfMemory>
    ensures value { IfOk result (λ signed. signed ≡ pair_in (view pair.now)) }
    ensures attestable { IfOk result (λ found. IfSome found IsAttestable) }
{
    match list_of(pair) {
        Some([key, message]) => signed_by(alloc, key, message),
        _ => Ok(None),
    }
}

fn pairs_of(alloc: Global, list: &[Value]) -> Result<Option<Attested>, OutOfMemory>
    ensures { IfOk result (λ attested. attested ≡ all_of pair_in (map view list.now)) }
{
    let mut attested = Attested::new(alloc);
    for pair in list {
        let Some(signed) = signed(alloc, pair)? else {
            return Ok(None);
        };
        if !attested.has_room() {
            return Err(OutOfMemory);
        }
        attested.push(alloc, signed)?;
    }
    Ok(Some(attested))
}

fn attested_pairs(alloc: Global, value: &Value) -> Result<Option<Attested>, OutOfMemory>
    ensures { IfOk result (λ attested. attested ≡ attested_pairs (view value.now)) }
{
    match list_of(value) {
        Some(list) => pairs_of(alloc, list),
        None => Ok(None),
    }
}

/// What is attested of a bundle. What isn't said to be attested isn't.
pub(crate) fn attested_member(alloc: Global, fields: &Value) -> Result<Attested, MemberFault>
    ensures { Reads (optional member.Attested [] (plain attested_pairs) (view fields.now)) result }
{
    match found(fields, Member::Attested) {
        Some(value) => { attested_pairs(alloc, value)?.ok_or(MemberFault::Bad(Member::Attested)) }
        None => Ok(Attested::new(alloc)),
    }
}
