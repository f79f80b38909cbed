ghost use Rattle.std.specs.Prelude.{◌≡◌, ◌≤◌, pos, map, length, IsSome, IfOk};
ghost use Rattle.clvm_spec.specs.Tree.{Atom};
ghost use Rattle.clvm_spec.specs.Numbers.{shortest_atom};
ghost use Rattle.clvm_spec.specs.Hashing.{tree_hash};
ghost use Rattle.clvm_spec.specs.Reading.{tree_of};
ghost use Rattle.clvm_spec.specs.Spelled.{spelled_tree};
ghost use Rattle.block_spec.specs.BundleTree.{spend_tree, spends_tree, signed_tree, attested_tree, bundle_id};

use block_spec::{Bundle, Signed, Spend};
use clvm_spec::limits::MOST_SPELLED;
use clvm_spec::shortest_bytes;
use clvm_tree::{Hash, ReadFault, Trees, atom_hash, list_hash, pair_hash};
use coin_facts::{Hash32, OutOfMemory};
use std::alloc::Global;

/// A bundle's id, which is the tree hash of the pair of its list of spends and its attested list.
pub fn bundle_id(alloc: Global, bundle: &Bundle) -> Result<Hash32, OutOfMemory>
    ensures { IfOk result (λ id. id ≡ bundle_id bundle.now) }
{
    let spends = spends_hash(alloc, bundle.spends.as_slice())?;
    let attested = attested_hash(alloc, bundle.attested.as_slice())?;
    Ok(Hash32 {
        bytes: pair_hash(&spends, &attested),
    })
}

fn spends_hash(alloc: Global, spends: &[Spend]) -> Result<Hash, OutOfMemory>
    ensures { IfOk result (λ hash. hash ≡ tree_hash (spends_tree spends.now)) }
{
    let mut hashes = Vec::new(alloc);
    for spend in spends {
        hashes.push(spend_hash(alloc, spend)?)?;
    }
    Ok(list_hash(&hashes))
}

fn spend_hash(alloc: Global, spend: &Spend) -> Result<Hash, OutOfMemory>
    ensures { IfOk result (λ hash. hash ≡ tree_hash (spend_tree spend.now)) }
{
    let parent = atom_hash(spend.coin.parent.bytes.as_slice());
    let puzzle = spelled_hash(alloc, spend.puzzle.as_slice())?;
    let amount = amount_hash(spend.coin.amount);
    let solution = spelled_hash(alloc, spend.solution.as_slice())?;
    Ok(list_hash([parent, puzzle, amount, solution].as_slice()))
}

// The hash of the tree that the bytes spell.
fn spelled_hash(alloc: Global, bytes: &[u8]) -> Result<Hash, OutOfMemory>
    requires spelled { IsSome (tree_of bytes.now) }
    requires short { length bytes.now ≤ MOST_SPELLED }
    ensures { IfOk result (λ hash. hash ≡ tree_hash (spelled_tree bytes.now)) }
{
    let mut trees = Trees::new(alloc);
    match trees.read_whole(alloc, bytes) {
        Ok(node) => trees.hash(alloc, node),
        Err(fault) => match fault {
            ReadFault::OutOfMemory => Err(OutOfMemory),
            _ => unreachable!(),
        },
    }
}

fn amount_hash(amount: u64) -> Hash
    ensures { result ≡ tree_hash (Atom (shortest_atom (pos amount))) }
{
    let bytes = u128::from(amount).to_be_bytes();
    atom_hash(shortest_bytes(bytes.as_slice()))
}

fn attested_hash(alloc: Global, attested: &[Signed]) -> Result<Hash, OutOfMemory>
    ensures { IfOk result (λ hash. hash ≡ tree_hash (attested_tree attested.now)) }
{
    let mut hashes = Vec::new(alloc);
    for signed in attested {
        hashes.push(signed_hash(signed))?;
    }
    Ok(list_hash(&hashes))
}

fn signed_hash(signed: &Signed) -> Hash
    ensures { result ≡ tree_hash (signed_tree signed.now) }
{
    let key = atom_hash(signed.key.as_slice());
    let message = atom_hash(signed.message.as_slice());
    pair_hash(&key, &message)
}
