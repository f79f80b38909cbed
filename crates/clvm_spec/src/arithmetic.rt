//! Plain programs of what operators calculate with numbers, and of what a path costs.

ghost use Rattle.std.specs.Prelude.{◌≡◌, pos, ◌-ℤ◌, false, if◌then◌else◌};
ghost use Rattle.clvm_spec.specs.Arithmetic.{if_fits, is_zero, quotient, is_shift};
ghost use Rattle.clvm_spec.specs.Path.{leading_zeros};

use crate::limits::MOST_SHIFT;

/// Whether a number is 0.
pub fn is_zero(number: i128) -> bool
    ensures { result ≡ is_zero number }
{
    number == 0
}

/// The quotient rounded down, None exactly where 128 bits don't hold it. The divisor isn't 0.
pub fn quotient_of(number: i128, divisor: i128) -> Option<i128>
    requires { is_zero divisor ≡ false }
    ensures { result ≡ if_fits (quotient number divisor) }
{
    if divisor == -1 {
        return number.checked_neg();
    }
    let quotient = number.div_euclid(divisor);
    if divisor < 0 {
        less_one_unless_whole(quotient, number.rem_euclid(divisor))
    } else {
        Some(quotient)
    }
}

fn less_one_unless_whole(quotient: i128, rest: i128) -> Option<i128>
    ensures { result ≡ if_fits (if is_zero rest then quotient else (quotient -ℤ pos 1)) }
{
    if is_zero(rest) {
        Some(quotient)
    } else {
        quotient.checked_sub(1)
    }
}

/// Whether a number says by how much to shift: no more than `MOST_SHIFT` either way.
pub fn is_shift_amount(by: i128) -> bool
    ensures { result ≡ is_shift by }
{
    -(MOST_SHIFT as i128) <= by && by <= MOST_SHIFT as i128
}

/// How many zero bytes a path begins with.
pub fn leading_zero_bytes(path: &[u8]) -> usize
    ensures { result ≡ leading_zeros path.now }
{
    let mut zeros = 0;
    for byte in path {
        if *byte != 0 {
            return zeros;
        }
        zeros += 1;
    }
    zeros
}
