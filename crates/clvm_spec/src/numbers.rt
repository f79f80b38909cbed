ghost use Rattle.std.specs.Prelude.{◌≡◌, ℕ, ◌≤◌, length, pos, negsuc};
ghost use Rattle.clvm_spec.specs.declared.limits.TheConstants.{NUMBER_BYTES};
ghost use Rattle.clvm_spec.specs.Numbers.{has_sign_byte, without_sign_bytes, shortest_atom};

/// The shortest two's complement form of the same number: the bytes without the leading ones that repeat the sign.
pub fn shortest_bytes(bytes: &[u8]) -> &[u8]
    ensures { result.now ≡ without_sign_bytes bytes.now }
{
    let mut rest = bytes;
    'signs: while has_sign_byte(rest) {
        rest = &rest[1..];
    }
    rest
}

// Whether the first byte says no more than the sign of what follows it.
fn has_sign_byte(bytes: &[u8]) -> bool
    ensures { result ≡ has_sign_byte bytes.now }
{
    match bytes {
        [] => false,
        [byte] => *byte == 0,
        [byte, next, ..] => (*byte == 0 && *next < 0x80) || (*byte == 0xff && *next >= 0x80),
    }
}

/// How many bytes the shortest atom of a number has.
pub fn number_length(number: i128) -> usize
    ensures length { result ≡ length (shortest_atom number) }
    ensures few { result ≤ NUMBER_BYTES }
{
    if number == 0 {
        return 0;
    }
    let bits = 128 - without_sign(number).leading_zeros();
    bits as usize / 8 + 1
}

// The number of the bits beside the sign's, turned round where the number is negative.
fn without_sign(number: i128) -> i128
    ensures positive { (n : ℕ) → number ≡ pos n → result ≡ pos n }
    ensures negative { (n : ℕ) → number ≡ negsuc n → result ≡ pos n }
{
    if number < 0 { -1 - number } else { number }
}
