//! A plain program of how deep a text nests.

ghost use Rattle.std.specs.Prelude.{◌≡◌};
ghost use Rattle.clvm_spec.specs.TextLaws.{nests_within};

/// Whether a text without quotes and comments, as printing gives it, never has more than `room` parentheses open at
/// once.
pub fn nests_within(text: &[u8], room: usize) -> bool
    ensures { result ≡ nests_within room text.now }
{
    // How many may still be opened, in a type that holds one more for each byte.
    let mut room = room as u128;
    for byte in text {
        match *byte {
            b'(' if room == 0 => return false,
            b'(' => room -= 1,
            b')' => room += 1,
            _ => {}
        }
    }
    true
}
