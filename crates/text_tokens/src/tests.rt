//! Tokens of all kinds, and faults at their places.

use crate::{Front, HexDigits, ScanKind, Token, first_token};
use std::alloc::Global;

// Whether the token is that of an atom of these bytes.
fn is_literal(alloc: Global, token: Token<'_>, bytes: &[u8]) -> bool {
    match token {
        Token::Literal(literal) => match literal.bytes(alloc) {
            Ok(read) => read.as_slice() == bytes,
            Err(_) => false,
        },
        _ => false,
    }
}

// Whether the text begins, behind blanks, with such a token, and what is left is behind it.
fn begins_with_literal(alloc: Global, text: &str, bytes: &[u8], left: &str) -> bool {
    match first_token(text.as_bytes()) {
        Front::Took {
            token,
            from: _,
            rest,
        } => { is_literal(alloc, token, bytes) && rest == left.as_bytes() }
        _ => false,
    }
}

fn begins_with_symbol(text: &str, name: &str, left: &str) -> bool {
    match first_token(text.as_bytes()) {
        Front::Took {
            token,
            from: _,
            rest,
        } => match token {
            Token::Symbol(symbol) => symbol == name.as_bytes() && rest == left.as_bytes(),
            _ => false,
        },
        _ => false,
    }
}

fn fault_of(text: &str) -> Option<(ScanKind, usize)> {
    match first_token(text.as_bytes()) {
        Front::Unread { kind, from } => Some((kind, from.len())),
        _ => None,
    }
}

// What the token is, with how many bytes stand from it on and behind it.
fn mark_of(text: &str) -> Option<(u8, usize, usize)> {
    match first_token(text.as_bytes()) {
        Front::Took { token, from, rest } => match token {
            Token::Opening => Some((b'(', from.len(), rest.len())),
            Token::Closing => Some((b')', from.len(), rest.len())),
            Token::Point => Some((b'.', from.len(), rest.len())),
            _ => None,
        },
        _ => None,
    }
}

#[test]
fn reads_literals(rt: HostRuntime) {
    for (text, bytes, left) in [
        ("0", b"".as_slice(), ""),
        ("127 1", b"\x7f".as_slice(), " 1"),
        ("128)", b"\x00\x80".as_slice(), ")"),
        ("-007;", b"\xf9".as_slice(), ";"),
        ("-129\"a\"", b"\xff\x7f".as_slice(), "\"a\""),
        (
            "-170141183460469231731687303715884105728",
            b"\x80\0\0\0\0\0\0\0\0\0\0\0\0\0\0\0".as_slice(),
            "",
        ),
        ("0x0Aff", b"\x0a\xff".as_slice(), ""),
        ("0x00", b"\x00".as_slice(), ""),
        ("'a(b'5", b"a(b".as_slice(), "5"),
        ("\"it's\"", b"it's".as_slice(), ""),
        ("\t; one\r'\n''", b"".as_slice(), ""),
    ] {
        assert!(rt;
            begins_with_literal(rt.alloc(), text, bytes, left),
            "{text}"
        );
    }
}

#[test]
fn reads_symbols(rt: HostRuntime) {
    for (text, name, left) in [
        ("foo", "foo", ""),
        (" + 2", "+", " 2"),
        ("-)", "-", ")"),
        ("--5", "--5", ""),
        ("a.b;c", "a.b", ";c"),
        (".. 1", "..", " 1"),
        ("x0x'", "x0x", "'"),
        ("a\x7f", "a", "\x7f"),
    ] {
        assert!(rt; begins_with_symbol(text, name, left), "{text}");
    }
}

#[test]
fn reads_marks_at_their_places(rt: HostRuntime) {
    assert!(rt; mark_of(" (1") == Some((b'(', 2, 1)));
    assert!(rt; mark_of(";(\n))") == Some((b')', 2, 1)));
    assert!(rt; mark_of(". 1)") == Some((b'.', 4, 3)));
    assert!(rt; mark_of(" ;(") == None);
}

#[test]
fn tells_faults_at_their_places(rt: HostRuntime) {
    for (text, kind, from) in [
        (" 0x5", ScanKind::Hex, 3),
        ("0x", ScanKind::Hex, 2),
        ("0xfg 1", ScanKind::Hex, 6),
        ("-5a", ScanKind::Number, 3),
        ("1.5", ScanKind::Number, 3),
        (
            "170141183460469231731687303715884105728",
            ScanKind::Number,
            39,
        ),
        ("\n\"a'", ScanKind::Text, 3),
        ("\x7f1", ScanKind::Byte, 2),
        ("\x0b", ScanKind::Byte, 1),
    ] {
        assert!(rt; fault_of(text) == Some((kind, from)), "{text}");
    }
    assert!(rt; fault_of(" ; 0x5") == None);
}

#[test]
fn counts_bytes_of_digits(rt: HostRuntime) {
    match HexDigits::new(b"0aFf") {
        Some(digits) => assert!(rt; digits.len() == 2),
        None => assert!(rt; false),
    }
    assert!(rt; HexDigits::new(b"0a1").is_none());
}
