//! The bundle of a line: its spends, and nothing attested.
ghost use Rattle.std.specs.Prelude.{◌≡◌, codes, map, is_some, option_and_then};
ghost use Rattle.serde_json.specs.View.{view};
ghost use Rattle.serde_json.specs.Find.{get};
ghost use Rattle.session_spec.specs.Steps.{all_of};
ghost use Rattle.session_spec.specs.Bundles.{values, spend, spends, nothing, unattested, bundle};
ghost use Rattle.chia_sim.specs.Reads.{Reads};

use crate::form::FormFault;
use crate::members::{code, coin};
use block_form::{Attested, Bundle, Spend, Spends};
use serde_json::Value;
use std::alloc::Global;

fn spend(alloc: Global, value: &Value) -> Result<Spend, FormFault>
    ensures { Reads (spend (view value.now)) result }
{
    let coin = value.get("coin").and_then(coin).ok_or(FormFault::Unbuilt)?;
    let puzzle = value.get("puzzle_reveal").ok_or(FormFault::Unbuilt)?;
    let solution = value.get("solution").ok_or(FormFault::Unbuilt)?;
    Ok(Spend {
        coin,
        puzzle: code(alloc, puzzle)?,
        solution: code(alloc, solution)?,
    })
}

fn spends_of(alloc: Global, values: &[Value]) -> Result<Spends, FormFault>
    ensures { Reads (all_of spend (map view values.now)) result }
{
    let mut spends = Spends::new(alloc);
    for value in values {
        let spend = spend(alloc, value)?;
        if !spends.has_room() {
            return Err(FormFault::OutOfMemory);
        }
        spends.push(alloc, spend)?;
    }
    Ok(spends)
}

fn spends(alloc: Global, value: &Value) -> Result<Spends, FormFault>
    ensures { Reads (spends (view value.now)) result }
{
    match value.as_array() {
        Some(values) => spends_of(alloc, values),
        None => Err(FormFault::Unbuilt),
    }
}

fn is_empty_list(value: &Value) -> bool
    ensures { result ≡ is_some (option_and_then nothing (values (view value.now))) }
{
    match value.as_array() {
        Some(list) => list.is_empty(),
        None => false,
    }
}

// Whether what is attested is absent, or an empty list.
fn attests_nothing(value: &Value) -> bool
    ensures { result ≡ is_some (unattested (get (codes "attested") (view value.now))) }
{
    match value.get("attested") {
        Some(attested) => is_empty_list(attested),
        None => true,
    }
}

/// The bundle that an object says.
pub(crate) fn bundle(alloc: Global, value: &Value) -> Result<Bundle, FormFault>
    ensures { Reads (bundle (view value.now)) result }
{
    let spent = value.get("coin_spends").ok_or(FormFault::Unbuilt)?;
    let spends = spends(alloc, spent)?;
    if !attests_nothing(value) {
        return Err(FormFault::Unbuilt);
    }
    Ok(Bundle {
        spends,
        attested: Attested::new(alloc),
    })
}
