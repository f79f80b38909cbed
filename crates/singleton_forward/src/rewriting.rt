//! A spend of the Forward shape, moved onto its singleton's newest coin.

ghost use Rattle.std.specs.Prelude.{◌≡◌, ◌<◌, ◌≤◌, ◌++◌, length, drop, pos, IsTrue, IfOk, OnOk};
ghost use Rattle.clvm_spec.specs.Spelled.{is_spelled};
ghost use Rattle.clvm_spec.specs.Numbers.{shortest_atom};
ghost use Rattle.clvm_spec.specs.Spelling.{atom_spelling};
ghost use Rattle.coin_facts.specs.declared.sizes.TheConstants.{HASH_BYTES};
ghost use Rattle.pool_spec.specs.Fit.{rewritten};
ghost use Rattle.singleton_forward.specs.Heads.{head_of, solution_read, moved_bytes};
ghost use Rattle.singleton_forward.specs.Solutions.{proof_seen, HasProof};

use crate::Shape;
use crate::solution::Proof;
use block_form::Spend;
use clvm_spec::shortest_bytes;
use coin_facts::{Bytes, Hash32, OutOfMemory};
use pool_spec::Lineage;
use std::alloc::Global;

/// The byte in front of a pair.
const PAIR: u8 = 0xff;

/// The spelling of the empty atom, and in front of a short atom the sum of this byte and its length.
const NIL: u8 = 0x80;

// Adds the spelling of an atom of fewer than 64 bytes.
fn push_atom(out: &mut Vec<u8>, atom: &[u8]) -> Result<(), OutOfMemory>
    requires { length atom.now < 64 }
    ensures { OnOk result (out.new.items ≡ out.old.items ++ atom_spelling atom.now) }
{
    match atom {
        [byte] if *byte < NIL => out.push(*byte)?,
        _ => {
            out.push(NIL + atom.len() as u8)?;
            out.extend_from_slice(atom)?;
        }
    }
    Ok(())
}

// Adds the spelling of an amount.
fn push_amount(out: &mut Vec<u8>, amount: u64) -> Result<(), OutOfMemory>
    ensures { OnOk result (out.new.items ≡ out.old.items ++ atom_spelling (shortest_atom (pos amount))) }
{
    let digits = u128::from(amount).to_be_bytes();
    push_atom(out, shortest_bytes(digits.as_slice()))
}

// Adds the spelling of a hash.
fn push_hash(out: &mut Vec<u8>, hash: Hash32) -> Result<(), OutOfMemory>
    ensures value { OnOk result (out.new.items ≡ out.old.items ++ atom_spelling hash.bytes) }
    ensures size { length hash.bytes ≡ HASH_BYTES }
{
    push_atom(out, hash.bytes.as_slice())
}

// The bytes in front of the last element, in the solution of a coin of this amount with this proof.
fn head(alloc: Global, proof: &Proof, own: u64) -> Result<Vec<u8>, OutOfMemory>
    ensures value { IfOk result (λ bytes. bytes.items ≡ head_of (proof_seen proof.now) own) }
    ensures short { IfOk result (λ bytes. length bytes.items ≤ 200) }
{
    let mut bytes = Vec::new(alloc);
    bytes.extend_from_slice(&[PAIR, PAIR])?;
    push_hash(&mut bytes, proof.parent)?;
    bytes.push(PAIR)?;
    push_hash(&mut bytes, proof.inner)?;
    bytes.push(PAIR)?;
    push_amount(&mut bytes, proof.amount)?;
    bytes.extend_from_slice(&[NIL, PAIR])?;
    push_amount(&mut bytes, own)?;
    bytes.push(PAIR)?;
    Ok(bytes)
}

// What stands behind a head.
fn behind<'a>(head: &[u8], bytes: &'a [u8]) -> &'a [u8]
    requires { length head.now ≤ length bytes.now }
    ensures { result.now ≡ drop (length head.now) bytes.now }
{
    bytes.split_at(head.len()).1
}

// The solution of a coin of this amount with this proof, moved onto a lineage's coin.
fn moved_solution(
    alloc: Global,
    solution: &[u8],
    own: u64,
    proof: &Proof,
    lineage: &Lineage,
) -> Result<Vec<u8>, OutOfMemory>
    requires spelled { IsTrue (is_spelled solution.now) }
    requires proof { HasProof (solution_read own solution.now) proof.now }
    ensures spelled { IfOk result (λ moved. IsTrue (is_spelled moved.items)) }
    ensures value { IfOk result (λ moved. moved.items ≡ moved_bytes (solution_read own solution.now) proof.now lineage.now) }
{
    let old = head(alloc, proof, own)?;
    let last = behind(old.as_slice(), solution);
    let moved = Proof {
        parent: lineage.parent.parent,
        inner: proof.inner,
        amount: lineage.parent.amount,
    };
    let mut bytes = head(alloc, &moved, lineage.coin.amount)?;
    bytes.extend_from_slice(last)?;
    Ok(bytes)
}

/// The spend moved onto the lineage's coin: its proof gets the parent's parent and the parent's amount, and its solution
/// the coin's amount. All else stays.
pub fn rewrite(alloc: Global, shape: &Shape, lineage: &Lineage) -> Result<Spend, OutOfMemory>
    ensures { IfOk result (λ spend. spend ≡ rewritten shape.now lineage.now) }
{
    let spend = &shape.spend;
    let solution = moved_solution(
        alloc,
        spend.solution.as_slice(),
        spend.coin.amount,
        &shape.proof,
        lineage,
    )?;
    let puzzle = spend.puzzle.copy(alloc)?;
    Ok(Spend {
        coin: lineage.coin,
        puzzle,
        solution: Bytes::from_vec(solution),
    })
}
