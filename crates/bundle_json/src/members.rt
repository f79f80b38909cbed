//! The members of an object, each with its faults: it isn't there, it isn't of its form, it names a module that isn't there.
ghost use Rattle.std.specs.Prelude.{◌≡◌, Some, None, option_map, IfOk, IfErr, IsTrue};
ghost use Rattle.serde_json.specs.View.{view};
ghost use Rattle.serde_json.specs.Find.{get};
ghost use Rattle.clvm_spec.specs.Spelled.{is_spelled};
ghost use Rattle.session_spec.specs.MemberNames.{name_of};
ghost use Rattle.session_spec.specs.Lines.{if_object};
ghost use Rattle.session_spec.specs.Values.{number_between, some_bytes, bytes_of_hash};
ghost use Rattle.session_spec.specs.LineMembers.{plain, code_value, hash_value, required, optional};
ghost use Rattle.bundle_json.specs.Between.{IsBetween};
ghost use Rattle.bundle_json.specs.Codes.{modules_of};
ghost use Rattle.bundle_json.specs.Reads.{Reads, ReadsAs};
ghost use Rattle.bundle_json.specs.declared.fault.MemberFault.TheVariants.{Missing};

use crate::Codes;
use crate::fault::MemberFault;
use crate::named::{code_value, hash_value};
use crate::values::{bytes_of_hash, number_between, some_bytes};
use coin_facts::{Bytes, Hash32};
use serde_json::Value;
use session_spec::Member;
use std::alloc::Global;

/// The value of a member, where it is there.
pub fn found(fields: &Value, member: Member) -> Option<&Value>
    ensures { option_map (λ value. view value.now) result ≡ get (name_of member) (view fields.now) }
{
    fields.get(member.name())
}

/// The value of a member that has to be there.
pub fn required(fields: &Value, member: Member) -> Result<&Value, MemberFault>
    ensures value { IfOk result (λ value. get (name_of member) (view fields.now) ≡ Some (view value.now)) }
    ensures missing { IfErr result (λ fault. (fault ≡ Missing member) × (get (name_of member) (view fields.now) ≡ None)) }
{
    found(fields, member).ok_or(MemberFault::Missing(member))
}

/// A member that is an object.
pub fn object_member(fields: &Value, member: Member) -> Result<&Value, MemberFault>
    ensures { ReadsAs (λ value. view value.now) (required member (plain if_object) (view fields.now)) result }
{
    let value = required(fields, member)?;
    if value.is_object() {
        Ok(value)
    } else {
        Err(MemberFault::Bad(member))
    }
}

/// A member that is a whole number between two.
pub fn number_member(
    fields: &Value,
    member: Member,
    least: u64,
    most: u64,
) -> Result<u64, MemberFault>
    ensures value { Reads (required member (plain (number_between least most)) (view fields.now)) result }
    ensures between { IfOk result (IsBetween least most) }
{
    let value = required(fields, member)?;
    number_between(value, least, most).ok_or(MemberFault::Bad(member))
}

/// The same of a member that may be left out, for this number.
pub fn number_or(
    default: u64,
    fields: &Value,
    member: Member,
    least: u64,
    most: u64,
) -> Result<u64, MemberFault>
    ensures value { Reads (optional member default (plain (number_between least most)) (view fields.now)) result }
    ensures between { IsBetween least most default → IfOk result (IsBetween least most) }
{
    match found(fields, member) {
        Some(value) => number_between(value, least, most).ok_or(MemberFault::Bad(member)),
        None => Ok(default),
    }
}

/// A member of 32 bytes, which no name may stand for.
pub fn id_member(fields: &Value, member: Member) -> Result<Hash32, MemberFault>
    ensures { Reads (required member (plain bytes_of_hash) (view fields.now)) result }
{
    let value = required(fields, member)?;
    bytes_of_hash(value).ok_or(MemberFault::Bad(member))
}

/// A member of bytes.
pub fn bytes_member(alloc: Global, fields: &Value, member: Member) -> Result<Bytes, MemberFault>
    ensures { Reads (required member (plain some_bytes) (view fields.now)) result }
{
    let value = required(fields, member)?;
    some_bytes(alloc, value)?.ok_or(MemberFault::Bad(member))
}

/// A member that is a hash, or names a module by `@name`.
pub fn hash_member(fields: &Value, member: Member, codes: &Codes) -> Result<Hash32, MemberFault>
    ensures { Reads (required member (hash_value (modules_of codes.now)) (view fields.now)) result }
{
    hash_value(required(fields, member)?, member, codes)
}

/// A member that is a code, or names a module by `@name`.
pub fn code_member(
    alloc: Global,
    fields: &Value,
    member: Member,
    codes: &Codes,
) -> Result<Bytes, MemberFault>
    ensures value { Reads (required member (code_value (modules_of codes.now)) (view fields.now)) result }
    ensures spelled { IfOk result (λ code. IsTrue (is_spelled code)) }
{
    code_value(alloc, required(fields, member)?, member, codes)
}
