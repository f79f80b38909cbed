//! Coins and spends as JSON objects.
ghost use Rattle.std.specs.Prelude.{map};
ghost use Rattle.serde_json.specs.View.{view};
ghost use Rattle.session_spec.specs.Results.{each_of};
ghost use Rattle.session_spec.specs.BundleMembers.{coin_in, coin_member, spend_in};
ghost use Rattle.bundle_json.specs.Codes.{modules_of};
ghost use Rattle.bundle_json.specs.Reads.{Reads};

use crate::Codes;
use crate::fault::MemberFault;
use crate::members::{code_member, hash_member, id_member, number_member, object_member};
use block_form::{Spend, Spends};
use coin_facts::Coin;
use serde_json::Value;
use session_spec::Member;
use std::alloc::Global;

fn coin(fields: &Value, codes: &Codes) -> Result<Coin, MemberFault>
    ensures { Reads (coin_in (modules_of codes.now) (view fields.now)) result }
{
    Ok(Coin {
        parent: id_member(fields, Member::ParentCoinInfo)?,
        puzzle_hash: hash_member(fields, Member::PuzzleHash, codes)?,
        amount: number_member(fields, Member::Amount, 0, u64::MAX)?,
    })
}

/// The coin that the member `coin` of an object is, or its first member's fault.
pub fn coin_member(fields: &Value, codes: &Codes) -> Result<Coin, MemberFault>
    ensures { Reads (coin_member (modules_of codes.now) (view fields.now)) result }
{
    coin(object_member(fields, Member::Coin)?, codes)
}

fn spend(alloc: Global, fields: &Value, codes: &Codes) -> Result<Spend, MemberFault>
    ensures { Reads (spend_in (modules_of codes.now) (view fields.now)) result }
{
    Ok(Spend {
        coin: coin_member(fields, codes)?,
        puzzle: code_member(alloc, fields, Member::PuzzleReveal, codes)?,
        solution: code_member(alloc, fields, Member::Solution, codes)?,
    })
}

/// The spends that the elements of a list are.
pub(crate) fn spends(alloc: Global, list: &[Value], codes: &Codes) -> Result<Spends, MemberFault>
    ensures { Reads (each_of (spend_in (modules_of codes.now)) (map view list.now)) result }
{
    let mut spends = Spends::new(alloc);
    for fields in list {
        let spend = spend(alloc, fields, codes)?;
        if !spends.has_room() {
            return Err(MemberFault::OutOfMemory);
        }
        spends.push(alloc, spend)?;
    }
    Ok(spends)
}
