use crate::arithmetic::{bits_shifted, remainder_of, shifted};
use clvm_spec::arithmetic::is_shift_amount;

#[test]
fn leaves_what_has_the_sign_of_the_divisor(rt: HostRuntime) {
    for (number, divisor, remainder) in [
        (7, 2, 1),
        (-7, 2, 1),
        (7, -2, -1),
        (-7, -2, -1),
        (6, 2, 0),
        (-6, 2, 0),
        (6, -2, 0),
        (-6, -2, 0),
        (0, 5, 0),
        (0, -5, 0),
        (1, 5, 1),
        (-1, 5, 4),
        (1, -5, -4),
        (-1, -5, -1),
        (i128::MAX, 1, 0),
        (i128::MIN, 1, 0),
        (i128::MAX, -1, 0),
        (i128::MIN, -1, 0),
        (i128::MAX, 2, 1),
        (i128::MAX, -2, -1),
        (i128::MIN, 3, 1),
        (i128::MIN, -3, -2),
        (i128::MAX, i128::MIN, -1),
        (i128::MIN, i128::MAX, i128::MAX - 1),
        (i128::MIN, i128::MIN, 0),
        (-1, i128::MAX, i128::MAX - 1),
        (1, i128::MIN, i128::MIN + 1),
    ] {
        assert!(rt; divisor != 0);
        assert_eq!(rt;
            remainder_of(number, divisor),
            remainder,
            "of {number} by {divisor}"
        );
    }
}

#[test]
fn shifts_numbers_as_far_as_128_bits_hold_them(rt: HostRuntime) {
    let numbers = [0, 1, 5, -1, -5, i128::MAX, i128::MIN];
    let none_but_zero = [Some(0), None, None, None, None, None, None];
    let signs = [0, 0, 0, -1, -1, 0, -1];
    for (by, results) in [
        (0, numbers.map(Some)),
        (
            1,
            [Some(0), Some(2), Some(10), Some(-2), Some(-10), None, None],
        ),
        (
            63,
            [
                Some(0),
                Some(1 << 63),
                Some(5 << 63),
                Some(-(1 << 63)),
                Some(-(5 << 63)),
                None,
                None,
            ],
        ),
        (
            126,
            [
                Some(0),
                Some(1 << 126),
                None,
                Some(-(1 << 126)),
                None,
                None,
                None,
            ],
        ),
        (
            127,
            [Some(0), None, None, Some(i128::MIN), None, None, None],
        ),
        (128, none_but_zero),
        (65_535, none_but_zero),
        (-1, [0, 0, 2, -1, -3, (1 << 126) - 1, -(1 << 126)].map(Some)),
        (-127, signs.map(Some)),
        (-128, signs.map(Some)),
        (-65_535, signs.map(Some)),
    ] {
        assert!(rt; is_shift_amount(by));
        for (number, result) in numbers.iter().zip(results) {
            assert_eq!(rt; shifted(*number, by), result, "{number} by {by}");
        }
    }
}

#[test]
fn shifts_bits_as_far_as_128_bits_with_a_sign_hold_them(rt: HostRuntime) {
    let numbers = [0, 1, 5, (1 << 127) - 1, 1 << 127, u128::MAX];
    let none_but_zero = [Some(0), None, None, None, None, None];
    for (by, results) in [
        (0, [Some(0), Some(1), Some(5), Some(i128::MAX), None, None]),
        (1, [Some(0), Some(2), Some(10), None, None, None]),
        (
            63,
            [Some(0), Some(1 << 63), Some(5 << 63), None, None, None],
        ),
        (126, [Some(0), Some(1 << 126), None, None, None, None]),
        (127, none_but_zero),
        (128, none_but_zero),
        (65_535, none_but_zero),
        (-1, [0, 0, 2, (1 << 126) - 1, 1 << 126, i128::MAX].map(Some)),
        (-126, [0, 0, 0, 1, 2, 3].map(Some)),
        (-127, [0, 0, 0, 0, 1, 1].map(Some)),
        (-128, [Some(0); 6]),
        (-65_535, [Some(0); 6]),
    ] {
        assert!(rt; is_shift_amount(by));
        for (number, result) in numbers.iter().zip(results) {
            assert_eq!(rt; bits_shifted(*number, by), result, "{number} by {by}");
        }
    }
}

// What 128 bits just hold, and what they just don't.
#[test]
fn shifts_up_to_the_widest_numbers(rt: HostRuntime) {
    for (number, by, result) in [
        (3, 125, Some(3 << 125)),
        (4, 125, None),
        (-4, 125, Some(i128::MIN)),
        (-5, 125, None),
        ((1 << 126) - 1, 1, Some(i128::MAX - 1)),
        (1 << 126, 1, None),
        (-(1 << 126), 1, Some(i128::MIN)),
        (-(1 << 126) - 1, 1, None),
        (-2, 126, Some(i128::MIN)),
        (2, 126, None),
    ] {
        assert!(rt; is_shift_amount(by));
        assert_eq!(rt; shifted(number, by), result, "{number} by {by}");
    }
    for (bits, by, result) in [
        (3, 125, Some(3 << 125)),
        (4, 125, None),
        ((1 << 126) - 1, 1, Some(i128::MAX - 1)),
        (1 << 126, 1, None),
    ] {
        assert!(rt; is_shift_amount(by));
        assert_eq!(rt; bits_shifted(bits, by), result, "{bits} by {by}");
    }
}
