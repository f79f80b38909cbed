//! Pieces of code at known nodes. The bytes are worked out by hand.

use crate::parameters::Side;
use crate::path;
use crate::pieces::{choice, fail, quote_atom};
use clvm_tree::Trees;
use std::test::Fail;

#[test]
fn makes_paths(rt: HostRuntime) -> Result<(), Fail> {
    let alloc = rt.alloc();
    let mut trees = Trees::new(alloc);
    let parameter = path::parameter(alloc, &mut trees, &[Side::First])?;
    assert!(rt; trees.bytes_of(parameter) == Some(b"\x05".as_slice()));
    let function = path::function(alloc, &mut trees, &[Side::Rest])?;
    assert!(rt; trees.bytes_of(function) == Some(b"\x06".as_slice()));
    Ok(())
}

// `(a (i 2 (q . (x)) (q . (q . 7))) 1)`
#[test]
fn chooses_one_of_two(rt: HostRuntime) -> Result<(), Fail> {
    let alloc = rt.alloc();
    let mut trees = Trees::new(alloc);
    let test = trees.atom(alloc, b"\x02")?;
    let then_part = fail(alloc, &mut trees)?;
    let else_part = quote_atom(alloc, &mut trees, b"\x07")?;
    let code = choice(alloc, &mut trees, test, then_part, else_part)?;
    assert!(rt;
        trees.write(alloc, code, 100)?.as_slice()
            == b"\xff\x02\xff\xff\x03\xff\x02\xff\xff\x01\xff\x08\x80\xff\xff\x01\xff\x01\x07\x80\xff\x01\x80".as_slice()
    );
    Ok(())
}
