ghost use Rattle.std.specs.Prelude.{◌↔◌, ◌≤◌, length, IsTrue};
ghost use Rattle.clvm_tree.specs.Nodes.{IsKnown};

use crate::arena::FIRST_COUNT;
use crate::{
    Hash, Node, OutOfMemory, ReadFault, Sight, Trees, WriteFault, is_spelled as is_one_tree,
    list_hash, pair_hash, unsigned,
};
use std::alloc::Global;

const NIL_HASH: Hash = [
    0x4b, 0xf5, 0x12, 0x2f, 0x34, 0x45, 0x54, 0xc5, 0x3b, 0xde, 0x2e, 0xbb, 0x8c, 0xd2, 0xb7, 0xe3,
    0xd1, 0x60, 0x0a, 0xd6, 0x31, 0xc3, 0x85, 0xa5, 0xd7, 0xcc, 0xe2, 0x3c, 0x77, 0x85, 0x45, 0x9a,
];

const ONE_HASH: Hash = [
    0x9d, 0xcf, 0x97, 0xa1, 0x84, 0xf3, 0x26, 0x23, 0xd1, 0x1a, 0x73, 0x12, 0x4c, 0xeb, 0x99, 0xa5,
    0x70, 0x9b, 0x08, 0x37, 0x21, 0xe8, 0x78, 0xa1, 0x6d, 0x78, 0xf5, 0x96, 0x71, 0x8b, 0xa7, 0xb2,
];

const DEEP_HASH: Hash = [
    0xb4, 0x6f, 0xd4, 0xc5, 0x7b, 0xc1, 0x6c, 0x9f, 0x38, 0x97, 0x9a, 0xb9, 0x52, 0x57, 0xa4, 0xb2,
    0x90, 0xb4, 0x2d, 0x2a, 0x09, 0x1b, 0x90, 0x06, 0xc6, 0x92, 0x96, 0x7c, 0x14, 0xfc, 0x31, 0xd7,
];

const SHARED_HASH: Hash = [
    0x1f, 0xd4, 0x0d, 0x6c, 0xa4, 0xa9, 0x9d, 0x23, 0x49, 0x90, 0x94, 0x4e, 0x5d, 0xd1, 0x1f, 0x20,
    0x69, 0xb4, 0x89, 0x82, 0x97, 0x54, 0x18, 0xd3, 0xde, 0x30, 0x74, 0x11, 0x5c, 0x7b, 0x37, 0xc7,
];

// The hash of ff8080.
const PAIR_OF_NILS_HASH: Hash = [
    0x52, 0xdb, 0x9e, 0xf9, 0x79, 0x86, 0xe7, 0x38, 0x2e, 0xf7, 0x8b, 0x8e, 0xae, 0x2d, 0xac, 0xdb,
    0xb2, 0xce, 0x82, 0x3e, 0xd1, 0x39, 0x6a, 0x0f, 0xb2, 0xf7, 0xf1, 0x20, 0xa2, 0xb4, 0x0a, 0x63,
];

fn fault_of(alloc: Global, bytes: &[u8]) -> Option<ReadFault>
    requires { length bytes.now ≤ 2_000_001 }
{
    Trees::new(alloc).read_whole(alloc, bytes).err()
}

fn is_known(trees: &Trees, node: Node) -> bool
    ensures { IsTrue result ↔ IsKnown trees.now node.0 }
{
    (node.0 as usize) < trees.len()
}

#[test]
fn tells_each_fault_and_its_place(rt: HostRuntime) {
    for (bytes, fault) in [
        (b"".as_slice(), ReadFault::Cut),
        (b"\xff\x01".as_slice(), ReadFault::Cut),
        (b"\x83ab".as_slice(), ReadFault::Cut),
        (b"\xc0".as_slice(), ReadFault::Cut),
        (b"\x81\x01".as_slice(), ReadFault::LongSpelling(0)),
        (b"\xff\x01\xc0\x3f".as_slice(), ReadFault::LongSpelling(2)),
        (b"\xe0\x1f\xff".as_slice(), ReadFault::LongSpelling(0)),
        (b"\xf0\x0f\xff\xff".as_slice(), ReadFault::LongSpelling(0)),
        (b"\xfe".as_slice(), ReadFault::BadPrefix(0)),
        (b"\xff\x80\xf8\x80".as_slice(), ReadFault::BadPrefix(2)),
        (b"\x80\x80".as_slice(), ReadFault::Left(1)),
    ] {
        assert!(rt; bytes.len() < 100 && fault_of(rt.alloc(), bytes) == Some(fault));
    }
}

#[test]
fn reads_the_tree_at_the_front(rt: HostRuntime) -> Result<(), ReadFault> {
    let mut trees = Trees::new(rt.alloc());
    let (tree, count) = trees.read(rt.alloc(), b"\xff\x01\x80\x05\x80")?;
    assert!(rt; count == 3);
    assert!(rt; trees.as_pair(tree) == Some((trees.one(), trees.nil())));
    assert!(rt; matches!(trees.look(tree), Sight::Parts(_, _)));
    Ok(())
}

#[test]
fn tells_spelled_bytes(rt: HostRuntime) -> Result<(), OutOfMemory> {
    assert!(rt; is_one_tree(rt.alloc(), b"\xff\x01\x80")?);
    assert!(rt; !is_one_tree(rt.alloc(), b"\xff\x01")?);
    assert!(rt; !is_one_tree(rt.alloc(), b"\x01\x01")?);
    Ok(())
}

// Reads an atom of this length behind the prefix, and writes it again.
fn is_spelled(alloc: Global, prefix: &[u8], size: usize) -> Result<bool, WriteFault>
    requires prefix { length prefix.now ≤ 4 }
    requires size { size ≤ 2_000_000 }
{
    let mut spelling = Vec::from_slice(alloc, prefix)?;
    let bytes = vec![in alloc; 7; size]?;
    spelling.extend_from_slice(&bytes)?;
    let mut trees = Trees::new(alloc);
    match trees.read_whole(alloc, &spelling) {
        Ok(atom) => {
            let written = trees.write(alloc, atom, spelling.len())?;
            Ok(written.as_slice() == spelling.as_slice())
        }
        Err(_) => Ok(false),
    }
}

#[test]
fn spells_atoms_by_their_lengths(rt: HostRuntime) -> Result<(), WriteFault> {
    for (prefix, size) in [
        (b"".as_slice(), 1),
        (b"\x80".as_slice(), 0),
        (b"\x82".as_slice(), 2),
        (b"\xbf".as_slice(), 63),
        (b"\xc0\x40".as_slice(), 64),
        (b"\xdf\xff".as_slice(), 0x1fff),
        (b"\xe0\x20\x00".as_slice(), 0x2000),
        (b"\xef\xff\xff".as_slice(), 0xf_ffff),
        (b"\xf0\x10\x00\x00".as_slice(), 0x10_0000),
    ] {
        assert!(rt; prefix.len() <= 4 && size <= 2_000_000);
        let spelled = is_spelled(rt.alloc(), prefix, size)?;
        assert!(rt; spelled);
    }
    Ok(())
}

#[test]
fn makes_and_takes_apart(rt: HostRuntime) -> Result<(), OutOfMemory> {
    let mut trees = Trees::new(rt.alloc());
    let nil = trees.nil();
    let atom = trees.atom(rt.alloc(), b"abc")?;
    let pair = trees.pair(rt.alloc(), atom, nil)?;
    assert!(rt; trees.atom(rt.alloc(), b"\0")? == trees.byte(0));
    assert!(rt; trees.len() == FIRST_COUNT + 2 && trees.as_pair(pair) == Some((atom, nil)));
    assert!(rt; trees.bytes_of(atom) == Some(b"abc".as_slice()));
    assert!(rt; trees.is_nil(nil) && trees.byte_of(trees.byte(0)) == Some(0));
    Ok(())
}

// The hash of the atom of these bytes.
fn atom_hash(alloc: Global, bytes: &[u8]) -> Result<Hash, OutOfMemory> {
    let mut trees = Trees::new(alloc);
    let atom = trees.atom(alloc, bytes)?;
    trees.hash(alloc, atom)
}

#[test]
fn hashes_atoms(rt: HostRuntime) -> Result<(), OutOfMemory> {
    assert!(rt; atom_hash(rt.alloc(), b"")? == NIL_HASH);
    assert!(rt; atom_hash(rt.alloc(), b"\x01")? == ONE_HASH);
    assert!(rt; pair_hash(&NIL_HASH, &NIL_HASH) == PAIR_OF_NILS_HASH);
    assert!(rt; list_hash(&[]) == NIL_HASH);
    assert!(rt; list_hash([NIL_HASH].as_slice()) == PAIR_OF_NILS_HASH);
    let behind = pair_hash(&ONE_HASH, &NIL_HASH);
    assert!(rt; list_hash([NIL_HASH, ONE_HASH].as_slice()) == pair_hash(&NIL_HASH, &behind));
    Ok(())
}

// Whether the number's atom has these bytes and gives the number again.
fn is_atom_of(alloc: Global, number: i128, bytes: &[u8]) -> Result<bool, OutOfMemory> {
    let mut trees = Trees::new(alloc);
    let atom = trees.put_number(alloc, number)?;
    Ok(trees.bytes_of(atom) == Some(bytes) && trees.number_of(atom) == Some(number))
}

#[test]
fn numbers_are_twos_complement(rt: HostRuntime) -> Result<(), OutOfMemory> {
    for (number, bytes) in [
        (0, b"".as_slice()),
        (127, b"\x7f".as_slice()),
        (128, b"\x00\x80".as_slice()),
        (-1, b"\xff".as_slice()),
        (-128, b"\x80".as_slice()),
        (-129, b"\xff\x7f".as_slice()),
        (i128::MIN, b"\x80\0\0\0\0\0\0\0\0\0\0\0\0\0\0\0".as_slice()),
        (
            i128::MAX,
            b"\x7f\xff\xff\xff\xff\xff\xff\xff\xff\xff\xff\xff\xff\xff\xff\xff".as_slice(),
        ),
    ] {
        let is_atom = is_atom_of(rt.alloc(), number, bytes)?;
        assert!(rt; is_atom);
    }
    Ok(())
}

#[test]
fn pairs_and_long_atoms_are_no_numbers(rt: HostRuntime) -> Result<(), OutOfMemory> {
    let mut trees = Trees::new(rt.alloc());
    let long = trees.atom(rt.alloc(), &[0; 17])?;
    let pair = trees.pair(rt.alloc(), long, long)?;
    assert!(rt; trees.number_of(long) == None && trees.number_of(pair) == None);
    assert!(rt; unsigned(b"\x80") == 128 && unsigned(b"") == 0);
    Ok(())
}

#[test]
fn writes_no_more_than_allowed(rt: HostRuntime) -> Result<(), WriteFault> {
    let mut trees = Trees::new(rt.alloc());
    let tree = trees.pair(rt.alloc(), trees.one(), trees.nil())?;
    assert!(rt; trees.write(rt.alloc(), tree, 2).err() == Some(WriteFault::TooLong));
    let written = trees.write(rt.alloc(), tree, 3)?;
    assert!(rt; written.as_slice() == b"\xff\x01\x80".as_slice());
    Ok(())
}

#[test]
fn takes_deep_trees(rt: HostRuntime) -> Result<(), WriteFault> {
    let mut bytes = vec![in rt.alloc(); 0xff; 1_000_000]?;
    assert!(rt; fault_of(rt.alloc(), &bytes) == Some(ReadFault::Cut));
    let atoms = vec![in rt.alloc(); 0x80; 1_000_001]?;
    bytes.extend_from_slice(&atoms)?;
    let mut trees = Trees::new(rt.alloc());
    let tree = trees
        .read_whole(rt.alloc(), &bytes)
        .expect(&rt, "a deep tree");
    let hash = trees.hash(rt.alloc(), tree)?;
    assert!(rt; hash == DEEP_HASH);
    let written = trees.write(rt.alloc(), tree, bytes.len())?;
    assert!(rt; written.as_slice() == bytes.as_slice());
    Ok(())
}

#[test]
fn visits_shared_parts_once(rt: HostRuntime) -> Result<(), OutOfMemory> {
    let mut trees = Trees::new(rt.alloc());
    let mut tree = trees.one();
    for _ in 0..60 {
        assert!(rt; is_known(&trees, tree) && trees.len() < 1_000);
        tree = trees.pair(rt.alloc(), tree, tree)?;
    }
    assert!(rt; is_known(&trees, tree));
    assert!(rt; trees.write(rt.alloc(), tree, 1_000_000).err() == Some(WriteFault::TooLong));
    let hash = trees.hash(rt.alloc(), tree)?;
    assert!(rt; hash == SHARED_HASH);
    Ok(())
}
