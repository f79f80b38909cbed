//! Codes and hashes, for which the name of an earlier module may stand.
ghost use Rattle.std.specs.Prelude.{IfOk, IsTrue};
ghost use Rattle.serde_json.specs.View.{view};
ghost use Rattle.clvm_spec.specs.Spelled.{is_spelled};
ghost use Rattle.session_spec.specs.LineMembers.{by_name, code_value, hash_value, of_form};
ghost use Rattle.bundle_json.specs.Codes.{IsCode, hash_of_code, modules_of};
ghost use Rattle.bundle_json.specs.Reads.{Reads, ReadsAs};

use crate::Codes;
use crate::fault::MemberFault;
use crate::hexadecimal::{text_code, text_hash};
use crate::names::{behind_at, is_name};
use coin_facts::{Bytes, Hash32};
use serde_json::Value;
use session_spec::Member;
use std::alloc::Global;

// The code and the hash of the module of this name.
fn code_by_name<'c>(codes: &'c Codes, name: &str, member: Member) -> Result<&'c Bytes, MemberFault>
    ensures value { ReadsAs (λ code. code.now) (of_form member (by_name (λ m. m.code) (modules_of codes.now) name.now)) result }
    ensures is_code { IfOk result (λ code. IsCode code.now) }
{
    if !is_name(name) {
        return Err(MemberFault::Bad(member));
    }
    match codes.code_of(name) {
        Some((code, _)) => Ok(code),
        None => Err(MemberFault::UnknownName(member)),
    }
}

fn hash_by_name(codes: &Codes, name: &str, member: Member) -> Result<Hash32, MemberFault>
    ensures { Reads (of_form member (by_name (λ m. hash_of_code m.code) (modules_of codes.now) name.now)) result }
{
    if !is_name(name) {
        return Err(MemberFault::Bad(member));
    }
    match codes.code_of(name) {
        Some((_, hash)) => Ok(*hash),
        None => Err(MemberFault::UnknownName(member)),
    }
}

/// The bytes of one spelled tree, or the code of an earlier module by `@name`: what a member's value stands for.
pub fn code_value(
    alloc: Global,
    value: &Value,
    member: Member,
    codes: &Codes,
) -> Result<Bytes, MemberFault>
    ensures value { Reads (of_form member (code_value (modules_of codes.now) (view value.now))) result }
    ensures spelled { IfOk result (λ code. IsTrue (is_spelled code)) }
{
    let text = value.as_str().ok_or(MemberFault::Bad(member))?;
    match behind_at(text) {
        Some(name) => Ok(code_by_name(codes, name, member)?.copy(alloc)?),
        None => text_code(alloc, text)?.ok_or(MemberFault::Bad(member)),
    }
}

/// 32 bytes, or the tree hash of an earlier module's code by `@name`: what a member's value stands for.
pub(crate) fn hash_value(
    value: &Value,
    member: Member,
    codes: &Codes,
) -> Result<Hash32, MemberFault>
    ensures { Reads (of_form member (hash_value (modules_of codes.now) (view value.now))) result }
{
    let text = value.as_str().ok_or(MemberFault::Bad(member))?;
    match behind_at(text) {
        Some(name) => hash_by_name(codes, name, member),
        None => text_hash(text).ok_or(MemberFault::Bad(member)),
    }
}
