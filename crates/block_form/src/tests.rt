ghost use Rattle.std.specs.Prelude.{◌≤◌, ◌^◌, length};

use crate::{Attested, Bundle, Signed, Spend, Spends, added_bytes, bundle_id};
use clvm_tree::Trees;
use coin_facts::{Bytes, Coin, Hash32};
use std::alloc::Global;
use std::test::Fail;

// It pays 900 to the tree hash of 1.
const PAYMENT: [u8; 45] = [
    0xff, 0x01, 0xff, 0xff, 0x33, 0xff, 0xa0, 0x9d, 0xcf, 0x97, 0xa1, 0x84, 0xf3, 0x26, 0x23, 0xd1,
    0x1a, 0x73, 0x12, 0x4c, 0xeb, 0x99, 0xa5, 0x70, 0x9b, 0x08, 0x37, 0x21, 0xe8, 0x78, 0xa1, 0x6d,
    0x78, 0xf5, 0x96, 0x71, 0x8b, 0xa7, 0xb2, 0xff, 0x82, 0x03, 0x84, 0x80, 0x80,
];

fn hash(high: u128, low: u128) -> Hash32 {
    let mut bytes = [0; 32];
    bytes[..16].copy_from_slice(high.to_be_bytes().as_slice());
    bytes[16..].copy_from_slice(low.to_be_bytes().as_slice());
    Hash32 { bytes }
}

fn coin(parent: Hash32, amount: u64) -> Coin {
    Coin {
        parent,
        puzzle_hash: hash(0, 0),
        amount,
    }
}

// A spend of these bytes, which must each spell a tree.
fn spend(alloc: Global, coin: Coin, puzzle: &[u8], solution: &[u8]) -> Result<Spend, Fail>
    requires puzzle { length puzzle.now ≤ 2 ^ 26 }
    requires solution { length solution.now ≤ 2 ^ 26 }
{
    Trees::new(alloc).read_whole(alloc, puzzle)?;
    Trees::new(alloc).read_whole(alloc, solution)?;
    let puzzle = Bytes::from_vec(Vec::from_slice(alloc, puzzle)?);
    let solution = Bytes::from_vec(Vec::from_slice(alloc, solution)?);
    Ok(Spend {
        coin,
        puzzle,
        solution,
    })
}

#[test]
fn ids_and_sizes(rt: HostRuntime) -> Result<(), Fail> {
    let alloc = rt.alloc();
    let zero = hash(0, 0);
    let one = hash(
        0x9dcf97a184f32623d11a73124ceb99a5,
        0x709b083721e878a16d78f596718ba7b2,
    );
    let payment = spend(alloc, coin(zero, 1000), &PAYMENT, &[0x80])?;
    assert_eq!(rt; added_bytes(&payment), 88);
    let other = spend(
        alloc,
        coin(one, 0),
        &[0xff, 1, 0x80],
        &[0xff, 0x82, 4, 0xd2, 0x80],
    )?;
    assert_eq!(rt; added_bytes(&other), 48);

    let mut bundle = Bundle {
        spends: Spends::new(alloc),
        attested: Attested::new(alloc),
    };
    bundle.spends.push(alloc, payment)?;
    let with_one = hash(
        0x0049f836c0a4eaf7a39ffe1bd3559fcc,
        0x34785a8b7df3a5a1075880f92c0bf39e,
    );
    assert_eq!(rt; bundle_id(alloc, &bundle)?, with_one);
    bundle.spends.push(alloc, other)?;
    let with_two = hash(
        0xed78bb0b15c2ff1050f08b60318f6b18,
        0x0b66855e0a2f3ae7979ca87bd9d4a6d7,
    );
    assert_eq!(rt; bundle_id(alloc, &bundle)?, with_two);
    let key = Bytes::from_vec(vec![in alloc; 7; 48]?);
    let message = Bytes::from_vec(Vec::from_slice(alloc, b"hello")?);
    bundle.attested.push(alloc, Signed { key, message })?;
    let with_attested = hash(
        0x9421bc9cc9f2dcaf6865e0e771486fc3,
        0x434ae1764bf2dde13b8aece528116e8d,
    );
    assert_eq!(rt; bundle_id(alloc, &bundle)?, with_attested);
    Ok(())
}
