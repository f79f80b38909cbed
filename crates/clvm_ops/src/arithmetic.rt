//! Whole numbers of 128 bits: what a division leaves, and shifts.

ghost use Rattle.std.specs.Prelude.{◌≡◌, ◌<◌, pos, neg_ℤ, ◌+ℤ◌, ◌<ℤ◌, ◌≤ℤ◌, true, false, if◌then◌else◌};
ghost use Rattle.clvm_spec.specs.Arithmetic.{if_fits, is_zero, remainder, is_shift, shifted};

use clvm_spec::arithmetic::is_zero;

/// What the quotient rounded down leaves; it has the sign of the divisor, which isn't 0.
pub fn remainder_of(number: i128, divisor: i128) -> i128
    requires { is_zero divisor ≡ false }
    ensures { result ≡ remainder number divisor }
{
    if divisor == -1 {
        return 0;
    }
    let rest = number.rem_euclid(divisor);
    if divisor < 0 {
        lowered_unless_whole(rest, divisor)
    } else {
        rest
    }
}

fn lowered_unless_whole(rest: i128, divisor: i128) -> i128
    requires rest { pos 0 ≤ℤ rest }
    requires divisor { divisor <ℤ pos 0 }
    ensures { result ≡ if is_zero rest then rest else (rest +ℤ divisor) }
{
    if is_zero(rest) { rest } else { rest + divisor }
}

// The number times 2 to that power, None exactly where 128 bits don't hold it.
fn shifted_left(number: i128, by: u32) -> Option<i128>
    ensures { result ≡ if_fits (shifted number (pos by)) }
{
    if by < 127 {
        return number.checked_mul(1 << by);
    }
    if number == 0 {
        Some(0)
    } else if number == -1 && by == 127 {
        Some(i128::MIN)
    } else {
        None
    }
}

// The number divided by 2 to that power, rounded down.
fn shifted_right(number: i128, by: u32) -> i128
    ensures { result ≡ shifted number (neg_ℤ (pos by)) }
{
    if by < 128 {
        number >> by
    } else if number < 0 {
        -1
    } else {
        0
    }
}

// The same of a number without sign, None exactly where 128 bits with a sign don't hold it.
fn bits_shifted_left(bits: u128, by: u32) -> Option<i128>
    ensures { result ≡ if_fits (shifted (pos bits) (pos by)) }
{
    if bits == 0 {
        return Some(0);
    }
    if by < 127 {
        signed(bits.checked_mul(1 << by)?)
    } else {
        None
    }
}

fn signed(bits: u128) -> Option<i128>
    ensures { result ≡ if_fits (pos bits) }
{
    if bits < 1 << 127 {
        Some(bits as i128)
    } else {
        None
    }
}

// The number without sign divided by 2 to that power, which isn't the lowest, rounded down.
fn bits_shifted_right(bits: u128, by: u32) -> i128
    requires { 0 < by }
    ensures { result ≡ shifted (pos bits) (neg_ℤ (pos by)) }
{
    if by < 128 { (bits >> by) as i128 } else { 0 }
}

/// The number times 2 to that power, rounded down; None exactly where 128 bits don't hold it. The power is no more than the
/// limit of shifts, either way.
pub fn shifted(number: i128, by: i128) -> Option<i128>
    requires { is_shift by ≡ true }
    ensures { result ≡ if_fits (shifted number by) }
{
    if by >= 0 {
        shifted_left(number, by as u32)
    } else {
        Some(shifted_right(number, -by as u32))
    }
}

/// The same of a number without sign; what comes of it is one with a sign.
pub fn bits_shifted(bits: u128, by: i128) -> Option<i128>
    requires { is_shift by ≡ true }
    ensures { result ≡ if_fits (shifted (pos bits) by) }
{
    if by >= 0 {
        bits_shifted_left(bits, by as u32)
    } else {
        Some(bits_shifted_right(bits, -by as u32))
    }
}
