use super::arithmetic::{is_shift_amount, is_zero, leading_zero_bytes, quotient_of};
use super::{ScanKind, nests_within, number_length, shortest_bytes};

#[test]
fn calculates_as_the_table_says(rt: HostRuntime) {
    for (number, divisor, quotient) in [
        (7, 2, Some(3)),
        (-7, 2, Some(-4)),
        (7, -2, Some(-4)),
        (-7, -2, Some(3)),
        (6, -2, Some(-3)),
        (-6, 2, Some(-3)),
        (-6, -2, Some(3)),
        (0, -5, Some(0)),
        (-1, 5, Some(-1)),
        (1, -5, Some(-1)),
        (i128::MIN, -1, None),
        (i128::MAX, -1, Some(-i128::MAX)),
        (i128::MIN, 1, Some(i128::MIN)),
    ] {
        assert!(rt; !is_zero(divisor));
        assert_eq!(rt;
            quotient_of(number, divisor),
            quotient,
            "{number} / {divisor}"
        );
    }
    assert!(rt; is_zero(0));
    for (by, is_shift) in [
        (65_535, true),
        (65_536, false),
        (-65_535, true),
        (-65_536, false),
    ] {
        assert_eq!(rt; is_shift_amount(by), is_shift, "at {by}");
    }
    assert!(rt; leading_zero_bytes(&[0, 0, 2, 0]) == 2);
    assert!(rt; leading_zero_bytes(&[0]) == 1);
    assert!(rt; leading_zero_bytes(&[]) == 0);
}

#[test]
fn drops_the_bytes_that_repeat_the_sign(rt: HostRuntime) {
    for (bytes, shortest) in [
        (b"".as_slice(), b"".as_slice()),
        (b"\0\0".as_slice(), b"".as_slice()),
        (b"\0\0\x80".as_slice(), b"\0\x80".as_slice()),
        (b"\0\x7f".as_slice(), b"\x7f".as_slice()),
        (b"\xff\xff\x80".as_slice(), b"\x80".as_slice()),
        (b"\xff\x7f".as_slice(), b"\xff\x7f".as_slice()),
        (b"\xff".as_slice(), b"\xff".as_slice()),
    ] {
        assert!(rt; shortest_bytes(bytes) == shortest);
    }
}

#[test]
fn counts_the_bytes_of_shortest_atoms(rt: HostRuntime) {
    for (number, length) in [
        (0, 0),
        (127, 1),
        (128, 2),
        (-1, 1),
        (-128, 1),
        (-129, 2),
        (i128::MAX, 16),
        (i128::MIN, 16),
    ] {
        assert_eq!(rt; number_length(number), length, "of {number}");
    }
}

#[test]
fn tells_a_dots_faults(rt: HostRuntime) {
    for kind in [
        ScanKind::End,
        ScanKind::Close,
        ScanKind::Dot,
        ScanKind::Hex,
        ScanKind::Number,
        ScanKind::Text,
        ScanKind::Byte,
    ] {
        assert!(rt; kind.is_dots_fault());
    }
    assert!(rt; !ScanKind::Deep.is_dots_fault());
}

#[test]
fn tells_how_deep_a_text_nests(rt: HostRuntime) {
    for (text, room, within) in [
        (b"".as_slice(), 0, true),
        (b"word".as_slice(), 0, true),
        (b"()".as_slice(), 0, false),
        (b"()".as_slice(), 1, true),
        (b"(())".as_slice(), 1, false),
        (b"(())".as_slice(), 2, true),
        (b"() () ()".as_slice(), 1, true),
        (b"(a (q . 2) 1)".as_slice(), 1, false),
        (b"(a (q . 2) 1)".as_slice(), 2, true),
        // What closes more than it opens leaves room for more.
        (b")(".as_slice(), 0, true),
        (b")((".as_slice(), 0, false),
        (b"())((".as_slice(), 1, true),
        (b"())(((".as_slice(), 1, false),
        (b")()(".as_slice(), usize::MAX, true),
    ] {
        assert_eq!(rt; nests_within(text, room), within, "at {room}");
    }
}
