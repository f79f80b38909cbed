ghost use Rattle.std.specs.Prelude.{◌≡◌, length, map, zip, IfOk};
ghost use Rattle.same_spend.specs.Told.{puzzle_hashes, class_if, facts_class_if, classes_told, facts_classes_told, AreClasses, AreClassesOfFacts};

use crate::alone::forwards;
use crate::runs::{class_by_conditions, class_by_run};
use block_form::{Bundle, Spend};
use coin_facts::{Hash32, OutOfMemory};
use spend_run::{Class, FactList, Facts};
use std::alloc::Global;

fn puzzle_hashes(alloc: Global, spends: &[Spend]) -> Result<Vec<Hash32>, OutOfMemory>
    ensures { IfOk result (λ hashes. hashes.items ≡ puzzle_hashes spends.now) }
{
    spends
        .iter()
        .map(|spend| spend.coin.puzzle_hash)
        .collect(alloc)
}

fn class_if(
    alloc: Global,
    spend: &Spend,
    is_forward: bool,
    limit: u64,
) -> Result<Class, OutOfMemory>
    ensures { IfOk result (λ class. class ≡ class_if limit (spend.now, is_forward)) }
{
    if is_forward {
        Ok(Class::Forward)
    } else {
        class_by_run(alloc, spend, limit)
    }
}

// The classes of spends, which are Forward where it is told so.
fn classes_if(
    alloc: Global,
    spends: &[Spend],
    forwards: &[bool],
    limit: u64,
) -> Result<Vec<Class>, OutOfMemory>
    requires { length forwards.now ≡ length spends.now }
    ensures { IfOk result (λ classes. classes.items ≡ map (class_if limit) (zip spends.now forwards.now)) }
{
    let mut classes = Vec::with_capacity(alloc, spends.len())?;
    for (place, spend) in spends.iter().enumerate() {
        classes.push(class_if(alloc, spend, forwards[place], limit)?)?;
    }
    Ok(classes)
}

// The classes of spends by what is told of their shapes.
fn classes_told(
    alloc: Global,
    spends: &[Spend],
    limit: u64,
    forward: &[bool],
) -> Result<Vec<Class>, OutOfMemory>
    requires { length forward.now ≡ length spends.now }
    ensures { IfOk result (λ classes. classes.items ≡ classes_told limit spends.now forward.now) }
{
    let hashes = puzzle_hashes(alloc, spends)?;
    let forwards = forwards(alloc, hashes.as_slice(), forward)?;
    classes_if(alloc, spends, forwards.as_slice(), limit)
}

/// The classes of a bundle's spends, place by place. `forward` tells of each spend whether it breaks none of the checks of
/// the Forward shape, with the limit as its run's cost. Those of them whose puzzle hash no other spend has are Forward,
/// unless all spends are such. Others are Same where their run gives conditions none of which asks for a signature, else
/// Plain.
pub fn classes(
    alloc: Global,
    bundle: &Bundle,
    limit: u64,
    forward: &[bool],
) -> Result<Vec<Class>, OutOfMemory>
    requires { length forward.now ≡ length bundle.now.spends }
    ensures told { IfOk result (λ classes. classes.items ≡ classes_told limit bundle.now.spends forward.now) }
    ensures classes { IfOk result (λ classes. AreClasses limit bundle.now forward.now classes.items) }
{
    classes_told(alloc, bundle.spends.as_slice(), limit, forward)
}

fn puzzle_hashes_of_facts(alloc: Global, list: &[Facts]) -> Result<Vec<Hash32>, OutOfMemory>
    ensures { IfOk result (λ hashes. hashes.items ≡ map (λ facts. facts.spend.coin.puzzle_hash) list.now) }
{
    let mut hashes = Vec::with_capacity(alloc, list.len())?;
    for facts in list {
        hashes.push(facts.spend().coin.puzzle_hash)?;
    }
    Ok(hashes)
}

fn facts_class_if(facts: &Facts, is_forward: bool) -> Class
    ensures { result ≡ facts_class_if (facts.now, is_forward) }
{
    if is_forward {
        Class::Forward
    } else {
        class_by_conditions(facts.conditions())
    }
}

// The classes of spends by their facts, which are Forward where it is told so.
fn facts_classes_if(
    alloc: Global,
    list: &[Facts],
    forwards: &[bool],
) -> Result<Vec<Class>, OutOfMemory>
    requires { length forwards.now ≡ length list.now }
    ensures { IfOk result (λ classes. classes.items ≡ map facts_class_if (zip list.now forwards.now)) }
{
    let mut classes = Vec::with_capacity(alloc, list.len())?;
    for (place, facts) in list.iter().enumerate() {
        classes.push(facts_class_if(facts, forwards[place]))?;
    }
    Ok(classes)
}

// The same by what is told of their shapes.
fn facts_classes_told(
    alloc: Global,
    list: &[Facts],
    forward: &[bool],
) -> Result<Vec<Class>, OutOfMemory>
    requires { length forward.now ≡ length list.now }
    ensures { IfOk result (λ classes. classes.items ≡ facts_classes_told list.now forward.now) }
{
    let hashes = puzzle_hashes_of_facts(alloc, list)?;
    let forwards = forwards(alloc, hashes.as_slice(), forward)?;
    facts_classes_if(alloc, list, forwards.as_slice())
}

/// The same by the facts of the spends, found with the limit, and without a run.
pub fn classes_of_facts(
    alloc: Global,
    list: &FactList,
    forward: &[bool],
) -> Result<Vec<Class>, OutOfMemory>
    requires { length forward.now ≡ length list.now }
    ensures told { IfOk result (λ classes. classes.items ≡ facts_classes_told list.now forward.now) }
    ensures classes { IfOk result (λ classes. AreClassesOfFacts list.now forward.now classes.items) }
{
    facts_classes_told(alloc, list.as_slice(), forward)
}
