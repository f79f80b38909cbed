//! Which spends of a bundle are Forward, by their puzzle hashes and by what is told of their shapes.
ghost use Rattle.std.specs.Prelude.{◌≡◌, ◌&&◌, length, map, zip, not, IfOk};
ghost use Rattle.std.specs.List.{list_all};
ghost use Rattle.std.specs.HashSet.{contains};
ghost use Rattle.coin_facts.specs.IdLists.{is_same_id};
ghost use Rattle.same_spend.specs.Marks.{HasRepeated, forwards};

use coin_facts::{Hash32, OutOfMemory};
use std::alloc::Global;
use std::collections::HashSet;

// The hashes that stand in a list more than once.
fn repeated_hashes(alloc: Global, hashes: &[Hash32]) -> Result<HashSet<Hash32>, OutOfMemory>
    ensures { IfOk result (λ set. HasRepeated set hashes.now) }
{
    let mut seen = HashSet::new(alloc);
    let mut repeated = HashSet::new(alloc);
    for hash in hashes {
        if !seen.insert(*hash)? {
            repeated.insert(*hash)?;
        }
    }
    Ok(repeated)
}

// Whether each spend has the shape and a hash that isn't in the set.
fn lone_shapes(
    alloc: Global,
    repeated: &HashSet<Hash32>,
    hashes: &[Hash32],
    shaped: &[bool],
) -> Result<Vec<bool>, OutOfMemory>
    ensures { IfOk result (λ lone. lone.items ≡ map (λ pair. pair.1 && not (contains is_same_id repeated.now pair.0)) (zip hashes.now shaped.now)) }
{
    hashes
        .iter()
        .zip(shaped)
        .map(|(hash, is_shaped)| *is_shaped && !repeated.contains(hash))
        .collect(alloc)
}

fn are_all(marks: &[bool]) -> bool
    ensures { result ≡ list_all (λ mark. mark) marks.now }
{
    marks.iter().all(|mark| *mark)
}

fn unless(alloc: Global, none: bool, marks: &[bool]) -> Result<Vec<bool>, OutOfMemory>
    ensures { IfOk result (λ left. left.items ≡ map (λ mark. mark && not none) marks.now) }
{
    marks.iter().map(|mark| *mark && !none).collect(alloc)
}

/// Whether each spend is Forward: those with the shape and a puzzle hash of their own are, unless all are such.
pub(crate) fn forwards(
    alloc: Global,
    hashes: &[Hash32],
    shaped: &[bool],
) -> Result<Vec<bool>, OutOfMemory>
    requires { length shaped.now ≡ length hashes.now }
    ensures value { IfOk result (λ marks. marks.items ≡ forwards hashes.now shaped.now) }
    ensures count { IfOk result (λ marks. length marks.items ≡ length hashes.now) }
{
    let repeated = repeated_hashes(alloc, hashes)?;
    let lone = lone_shapes(alloc, &repeated, hashes, shaped)?;
    unless(alloc, are_all(lone.as_slice()), lone.as_slice())
}
