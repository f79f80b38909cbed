//! Rows of printing and scanning, and faults at their places.

ghost use Rattle.std.specs.Prelude.{◌≤◌, length};

use crate::{ScanKind, TextFault, print, scan};
use clvm_tree::{OutOfMemory, Trees, WriteFault};
use std::alloc::Global;

// Whether the text is scanned as the tree of this spelling.
fn is_scanned(alloc: Global, text: &str, spelling: &[u8]) -> bool
    requires { length text.now ≤ 10_000 }
{
    let mut trees = Trees::new(alloc);
    match scan(alloc, &mut trees, text) {
        Ok(tree) => match trees.write(alloc, tree, 10_000) {
            Ok(bytes) => bytes.as_slice() == spelling,
            Err(_) => false,
        },
        Err(_) => false,
    }
}

// Whether the tree of this spelling is printed as the text.
fn is_printed(alloc: Global, spelling: &[u8], text: &str) -> bool
    requires { length spelling.now ≤ 10_000 }
{
    let mut trees = Trees::new(alloc);
    match trees.read_whole(alloc, spelling) {
        Ok(tree) => match print(alloc, &trees, tree, text.len()) {
            Ok(printed) => printed.as_str() == text,
            Err(_) => false,
        },
        Err(_) => false,
    }
}

fn fault_of(alloc: Global, text: &str) -> Option<TextFault>
    requires { length text.now ≤ 10_000 }
{
    scan(alloc, &mut Trees::new(alloc), text).err()
}

#[test]
fn prints_and_scans(rt: HostRuntime) {
    for (text, spelling) in [
        (
            "(a (q . 2) 1)",
            b"\xff\x02\xff\xff\x01\x02\xff\x01\x80".as_slice(),
        ),
        ("()", b"\x80".as_slice()),
        ("(() () 2)", b"\xff\x80\xff\x80\xff\x02\x80".as_slice()),
        ("255", b"\x82\x00\xff".as_slice()),
        ("-129", b"\x82\xff\x7f".as_slice()),
        ("0x00", b"\x00".as_slice()),
        ("0xff80", b"\x82\xff\x80".as_slice()),
        ("0x0a0b0c", b"\x83\x0a\x0b\x0c".as_slice()),
        ("((+) 16 . 16)", b"\xff\xff\x10\x80\xff\x10\x10".as_slice()),
        ("(15 31 35)", b"\xff\x0f\xff\x1f\xff\x23\x80".as_slice()),
        ("(sha256 11 . -1)", b"\xff\x0b\xff\x0b\x81\xff".as_slice()),
    ] {
        assert!(rt; text.len() < 100 && is_scanned(rt.alloc(), text, spelling));
        assert!(rt; spelling.len() < 100 && is_printed(rt.alloc(), spelling, text));
    }
}

#[test]
fn scans_other_spellings(rt: HostRuntime) {
    for (text, spelling) in [
        (
            "\t( + 2 ; two\n 3 )\r\n",
            b"\xff\x10\xff\x02\xff\x03\x80".as_slice(),
        ),
        (
            "(1 . (2 . (3 . ())))",
            b"\xff\x01\xff\x02\xff\x03\x80".as_slice(),
        ),
        ("-007", b"\x81\xf9".as_slice()),
        (
            "-170141183460469231731687303715884105728",
            b"\x90\x80\0\0\0\0\0\0\0\0\0\0\0\0\0\0\0".as_slice(),
        ),
        ("0x0Aff", b"\x82\x0a\xff".as_slice()),
        ("'a(b'", b"\x83a(b".as_slice()),
        ("\"it's\"", b"\x84it's".as_slice()),
        ("(1'a'5)", b"\xff\x01\xff\x61\xff\x05\x80".as_slice()),
        ("''", b"\x80".as_slice()),
    ] {
        assert!(rt; text.len() < 100 && is_scanned(rt.alloc(), text, spelling));
    }
}

#[test]
fn tells_the_first_fault(rt: HostRuntime) {
    for (text, fault) in [
        ("", TextFault::Read(ScanKind::End, 0)),
        ("(1 ", TextFault::Read(ScanKind::End, 3)),
        (" )", TextFault::Read(ScanKind::Close, 1)),
        (". 1", TextFault::Read(ScanKind::Dot, 0)),
        ("(1 . (2 . ))", TextFault::Read(ScanKind::Dot, 3)),
        ("(1 . 2 3)", TextFault::Read(ScanKind::Dot, 3)),
        ("(1 . 0x5)", TextFault::Read(ScanKind::Dot, 3)),
        ("(0x5 foo)", TextFault::Read(ScanKind::Hex, 1)),
        ("-5a", TextFault::Read(ScanKind::Number, 0)),
        (
            "170141183460469231731687303715884105728",
            TextFault::Read(ScanKind::Number, 0),
        ),
        ("(1 \"", TextFault::Read(ScanKind::Text, 3)),
        ("1\x7f", TextFault::Read(ScanKind::Byte, 1)),
        ("foo", TextFault::Name(0)),
        ("(1 . foo)", TextFault::Name(5)),
        ("(1 . foo 0x5)", TextFault::Read(ScanKind::Dot, 3)),
        ("((1 . foo) 0x5)", TextFault::Name(6)),
        ("(foo bar (1 . ))", TextFault::Name(1)),
        ("(1))", TextFault::Left(3)),
        ("1 foo", TextFault::Left(2)),
        ("1 0x", TextFault::Read(ScanKind::Hex, 2)),
    ] {
        assert!(rt; text.len() < 100 && fault_of(rt.alloc(), text) == Some(fault));
    }
}

// So many lists in one another, the innermost empty.
fn nested(alloc: Global, depth: usize) -> Result<String, OutOfMemory> {
    let mut text = String::new(alloc);
    for _ in 0..depth {
        text.push_str("(")?;
    }
    for _ in 0..depth {
        text.push_str(")")?;
    }
    Ok(text)
}

#[test]
fn nests_to_the_limit(rt: HostRuntime) -> Result<(), OutOfMemory> {
    let text = nested(rt.alloc(), 1_024)?;
    assert!(rt; text.len() < 10_000 && fault_of(rt.alloc(), text.as_str()) == None);
    let deeper = nested(rt.alloc(), 1_025)?;
    assert!(rt; deeper.len() < 10_000);
    let fault = fault_of(rt.alloc(), deeper.as_str());
    assert!(rt; fault == Some(TextFault::Read(ScanKind::Deep, 1_024)));
    Ok(())
}

#[test]
fn is_too_long_past_the_limit(rt: HostRuntime) {
    let mut trees = Trees::new(rt.alloc());
    let tree = scan(rt.alloc(), &mut trees, "(0x0a0b0c . 5)").expect(&rt, "a tree");
    let text = print(rt.alloc(), &trees, tree, 14);
    assert!(rt; text.is_ok());
    let text = print(rt.alloc(), &trees, tree, 13);
    assert!(rt; text.err() == Some(WriteFault::TooLong));
}
