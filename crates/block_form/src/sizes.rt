ghost use Rattle.std.specs.Prelude.{◌≡◌, ◌^◌, ◌<◌, ◌≤◌, pos, length, IsSome};
ghost use Rattle.clvm_spec.specs.Numbers.{shortest_atom};
ghost use Rattle.clvm_spec.specs.Spelling.{atom_spelling, spelling};
ghost use Rattle.clvm_spec.specs.Reading.{tree_of};
ghost use Rattle.clvm_spec.specs.Spelled.{spelled_tree};
ghost use Rattle.block_spec.specs.Added.{added_bytes};

use block_spec::Spend;
use clvm_spec::limits::MOST_SPELLED;
use clvm_spec::shortest_bytes;
use coin_facts::Hash32;

/// How many bytes a spend adds to the spelling of its list's generator: 39, and those of the puzzle, of the solution
/// and of the amount's spelling.
pub fn added_bytes(spend: &Spend) -> u64
    ensures value { result ≡ added_bytes spend.now }
    ensures few { result < 2 ^ 28 }
{
    let parent = hash_bytes(spend.coin.parent);
    let puzzle = tree_bytes(spend.puzzle.as_slice());
    let amount = amount_bytes(spend.coin.amount);
    let solution = tree_bytes(spend.solution.as_slice());
    // A pair of the list, the four of the spend's own list, and its end.
    6 + parent + puzzle + amount + solution
}

// How many bytes the spelling has of the tree that these spell: they are that spelling.
fn tree_bytes(bytes: &[u8]) -> u64
    requires spelled { IsSome (tree_of bytes.now) }
    requires short { length bytes.now ≤ MOST_SPELLED }
    ensures value { result ≡ length (spelling (spelled_tree bytes.now)) }
    ensures few { result ≤ MOST_SPELLED }
{
    bytes.len() as u64
}

fn hash_bytes(hash: Hash32) -> u64
    ensures value { result ≡ length (atom_spelling hash.bytes) }
    ensures few { result ≤ 64 }
{
    atom_bytes(hash.bytes.as_slice())
}

fn amount_bytes(amount: u64) -> u64
    ensures value { result ≡ length (atom_spelling (shortest_atom (pos amount))) }
    ensures few { result ≤ 64 }
{
    let bytes = u128::from(amount).to_be_bytes();
    atom_bytes(shortest_bytes(bytes.as_slice()))
}

// How many bytes spell a short atom.
fn atom_bytes(atom: &[u8]) -> u64
    requires { length atom.now < 64 }
    ensures value { result ≡ length (atom_spelling atom.now) }
    ensures few { result ≤ 64 }
{
    match atom {
        [byte] if *byte < 0x80 => 1,
        _ => 1 + atom.len() as u64,
    }
}
