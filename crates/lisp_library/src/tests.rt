ghost use Rattle.std.specs.Prelude.{◌+◌, ◌≤◌, length};

use crate::{built_in, curried_hash, curry, uncurry};
use clvm_tree::{Hash, Trees};
use std::alloc::Global;
use std::test::Fail;

// `(+ 2 (q . 1))`, and its hash.
const ADD_ONE: &[u8] = b"\xff\x10\xff\x02\xff\xff\x01\x01\x80";

const ADD_ONE_HASH: Hash = [
    0x9d, 0xf8, 0xd4, 0xd2, 0x22, 0x27, 0x67, 0x47, 0x37, 0x2a, 0x53, 0x2a, 0x1c, 0xd7, 0x36, 0xcd,
    0xd5, 0xc6, 0x80, 0x0c, 0x39, 0x90, 0x6c, 0x96, 0x95, 0x48, 0x9d, 0x36, 0x28, 0x6e, 0xd2, 0x15,
];

// It, curried with 5.
const ADD_ONE_TO_FIVE: &[u8] =
    b"\xff\x02\xff\xff\x01\xff\x10\xff\x02\xff\xff\x01\x01\x80\xff\xff\x04\xff\xff\x01\x05\xff\x01\x80\x80";

const ADD_ONE_TO_FIVE_HASH: Hash = [
    0xb4, 0x5f, 0x10, 0x29, 0x8c, 0x60, 0x2c, 0x5e, 0x0f, 0xb1, 0x9e, 0x8b, 0xa6, 0x85, 0x46, 0x98,
    0xbf, 0xbd, 0x34, 0x9e, 0xbd, 0xe6, 0x28, 0x2a, 0x6c, 0x1e, 0x12, 0x16, 0x6b, 0xb4, 0x8b, 0xf8,
];

const FIVE_HASH: Hash = [
    0xbc, 0x59, 0x59, 0xf4, 0x3b, 0xc6, 0xe4, 0x71, 0x75, 0x37, 0x4b, 0x67, 0x16, 0xe5, 0x3c, 0x9a,
    0x7d, 0x72, 0xc5, 0x94, 0x24, 0xc8, 0x21, 0x33, 0x69, 0x95, 0xba, 0xd7, 0x60, 0xd9, 0xae, 0xb3,
];

// The program `2`, curried with `()` and `(1 . 2)`, and with nothing.
const TWO_ARGUMENTS: &[u8] =
    b"\xff\x02\xff\xff\x01\x02\xff\xff\x04\xff\xff\x01\x80\xff\xff\x04\xff\xff\x01\xff\x01\x02\xff\x01\x80\x80\x80";

const NO_ARGUMENT: &[u8] = b"\xff\x02\xff\xff\x01\x02\xff\x01\x80";

#[test]
fn curries_with_arguments_in_order(rt: HostRuntime) -> Result<(), Fail> {
    let mut trees = Trees::new(rt.alloc());
    let program = trees.read_whole(rt.alloc(), ADD_ONE)?;
    let argument = trees.read_whole(rt.alloc(), b"\x05")?;
    let whole = curry(rt.alloc(), &mut trees, program, &[argument])?;
    assert!(rt; trees.write(rt.alloc(), whole, 100)?.as_slice() == ADD_ONE_TO_FIVE);
    Ok(())
}

#[test]
fn curries_with_two_arguments_and_with_none(rt: HostRuntime) -> Result<(), Fail> {
    let mut trees = Trees::new(rt.alloc());
    let program = trees.read_whole(rt.alloc(), b"\x02")?;
    let first = trees.nil();
    let second = trees.read_whole(rt.alloc(), b"\xff\x01\x02")?;
    let whole = curry(rt.alloc(), &mut trees, program, &[first, second])?;
    assert!(rt; trees.write(rt.alloc(), whole, 100)?.as_slice() == TWO_ARGUMENTS);
    let whole = curry(rt.alloc(), &mut trees, program, &[])?;
    assert!(rt; trees.write(rt.alloc(), whole, 100)?.as_slice() == NO_ARGUMENT);
    Ok(())
}

#[test]
fn hashes_curried_programs(rt: HostRuntime) {
    let hash = curried_hash(&ADD_ONE_HASH, &[FIVE_HASH]);
    assert!(rt; hash == ADD_ONE_TO_FIVE_HASH);
}

// How many arguments the tree of these bytes is curried with, 0 where it isn't curried.
fn count(alloc: Global, bytes: &[u8]) -> Result<usize, Fail>
    requires { length bytes.now ≤ 10_000_000 }
{
    let mut trees = Trees::new(alloc);
    let whole = trees.read_whole(alloc, bytes)?;
    match uncurry(alloc, &trees, whole)? {
        Some(curried) => Ok(curried.arguments.as_slice().len()),
        None => Ok(0),
    }
}

#[test]
fn takes_curried_programs_apart(rt: HostRuntime) -> Result<(), Fail> {
    for (bytes, arguments) in [
        (ADD_ONE_TO_FIVE, 1),
        (TWO_ARGUMENTS, 2),
        (NO_ARGUMENT, 0),
        (b"\x02".as_slice(), 0),
        (
            b"\xff\x03\xff\xff\x01\x02\xff\xff\x04\xff\xff\x01\x05\xff\x01\x80\x80".as_slice(),
            0,
        ),
        (
            b"\xff\x02\xff\xff\x01\x02\xff\xff\x04\xff\xff\x01\x05\xff\x02\x80\x80".as_slice(),
            0,
        ),
        (
            b"\xff\x02\xff\xff\x01\x02\xff\xff\x04\xff\xff\x01\x05\xff\x01\x80\x01".as_slice(),
            0,
        ),
    ] {
        assert!(rt; bytes.len() <= 100);
        assert!(rt; count(rt.alloc(), bytes)? == arguments, "{bytes:?}");
    }
    Ok(())
}

#[test]
fn gives_the_parts_back(rt: HostRuntime) -> Result<(), Fail> {
    let mut trees = Trees::new(rt.alloc());
    let whole = trees.read_whole(rt.alloc(), TWO_ARGUMENTS)?;
    let parts = uncurry(rt.alloc(), &trees, whole)?.expect(&rt, "a curried program");
    assert!(rt; trees.bytes_of(parts.program) == Some(b"\x02".as_slice()));
    let [first, second] = parts.arguments.as_slice() else {
        return Err(Fail::new("two arguments"));
    };
    assert!(rt; trees.bytes_of(*first) == Some(b"".as_slice()));
    assert!(rt; trees.write(rt.alloc(), *second, 100)?.as_slice() == b"\xff\x01\x02".as_slice());
    Ok(())
}

#[test]
fn takes_many_arguments(rt: HostRuntime) -> Result<(), Fail> {
    let mut bytes = Vec::from_slice(rt.alloc(), b"\xff\x02\xff\xff\x01\x02\xff")?;
    for _ in 0..300_000 {
        bytes.extend_from_slice(b"\xff\x04\xff\xff\x01\x05\xff")?;
    }
    bytes.push(1)?;
    let ends = vec![in rt.alloc(); 0x80; 300_001]?;
    bytes.extend_from_slice(&ends)?;
    assert!(rt; bytes.len() <= 10_000_000);
    let mut trees = Trees::new(rt.alloc());
    let whole = trees.read_whole(rt.alloc(), &bytes)?;
    let parts = uncurry(rt.alloc(), &trees, whole)?.expect(&rt, "a curried program");
    assert!(rt; parts.arguments.as_slice().len() == 300_000);
    let again = curry(
        rt.alloc(),
        &mut trees,
        parts.program,
        parts.arguments.as_slice(),
    )?;
    assert!(rt; trees.write(rt.alloc(), again, bytes.len())?.as_slice() == bytes.as_slice());
    Ok(())
}

#[test]
fn built_in_texts_have_their_names(rt: HostRuntime) {
    let codes = built_in("condition_codes.clib").expect(&rt, "a text");
    assert!(rt;
        codes.lines().count() == 36
            && codes.lines().nth(10) == Some("  (defconstant CREATE_COIN 51)")
    );
    let hashes = built_in("tree_hash.clib").expect(&rt, "a text");
    assert!(rt; hashes.lines().nth(1) == Some("  (defun sha256tree (T)"));
    for name in ["", "condition_codes", "Tree_hash.clib", "tree_hash.clib "] {
        assert!(rt; built_in(name).is_none(), "{name}");
    }
}
