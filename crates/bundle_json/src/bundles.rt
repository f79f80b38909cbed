//! A bundle as a JSON object.
ghost use Rattle.serde_json.specs.View.{view};
ghost use Rattle.session_spec.specs.BundleMembers.{bundle_in};
ghost use Rattle.bundle_json.specs.Codes.{modules_of};
ghost use Rattle.bundle_json.specs.Reads.{Reads};

use crate::Codes;
use crate::attested::attested_member;
use crate::fault::MemberFault;
use crate::members::required;
use crate::spends::spends;
use crate::values::objects;
use block_form::Bundle;
use serde_json::Value;
use session_spec::Member;
use std::alloc::Global;

/// The bundle that an object stands for, or the first fault of its members. That the spends are a list of objects is
/// asked before any of them is read.
pub fn bundle(alloc: Global, value: &Value, codes: &Codes) -> Result<Bundle, MemberFault>
    ensures { Reads (bundle_in (modules_of codes.now) (view value.now)) result }
{
    let list = required(value, Member::CoinSpends)?;
    let list = objects(list).ok_or(MemberFault::Bad(Member::CoinSpends))?;
    Ok(Bundle {
        spends: spends(alloc, list, codes)?,
        attested: attested_member(alloc, value)?,
    })
}
