//! What a word is: a number, bytes in hexadecimal, a dot or a symbol.

ghost use Rattle.std.specs.Prelude.{◌≡◌, true};
ghost use Rattle.std.specs.Str.{all_ascii_digits};
ghost use Rattle.clvm_spec.specs.Arithmetic.{if_fits};
ghost use Rattle.clvm_spec.specs.Tokens.{without_minus, begins_with_digit, is_number, word_number, hex_token, from_digit, from_hex, word_token};
ghost use Rattle.text_tokens.specs.Meanings.{meant_word};

use crate::ScanKind;
use crate::digits::HexDigits;
use crate::fronts::Token;
use crate::literals::Literal;

fn without_minus(word: &[u8]) -> &[u8]
    ensures { result.now ≡ without_minus word.now }
{
    match word {
        [b'-', digits @ ..] => digits,
        _ => word,
    }
}

fn are_digits(digits: &[u8]) -> bool
    ensures { result ≡ all_ascii_digits digits.now }
{
    digits.iter().all(|digit| digit.is_ascii_digit())
}

// Whether there are digits alone, and at least one.
fn is_number(digits: &[u8]) -> bool
    ensures { result ≡ is_number digits.now }
{
    !digits.is_empty() && are_digits(digits)
}

// The number that digits write behind a minus or none, if 128 bits hold it.
fn number(word: &[u8]) -> Option<i128>
    requires { is_number (without_minus word.now) ≡ true }
    ensures { result ≡ if_fits (word_number word.now) }
{
    match std::str::from_utf8(word) {
        Ok(text) => text.parse::<i128>().ok(),
        Err(_) => None,
    }
}

fn begins_with_digit(word: &[u8]) -> bool
    ensures { result ≡ begins_with_digit word.now }
{
    match word {
        [byte, ..] => byte.is_ascii_digit(),
        _ => false,
    }
}

fn hex_word(digits: &[u8]) -> Result<Token<'_>, ScanKind>
    ensures { meant_word result ≡ hex_token digits.now }
{
    if digits.is_empty() {
        return Err(ScanKind::Hex);
    }
    match HexDigits::new(digits) {
        Some(digits) => Ok(Token::Literal(Literal::Hex(digits))),
        None => Err(ScanKind::Hex),
    }
}

fn symbol(word: &[u8]) -> Result<Token<'_>, ScanKind>
    ensures { meant_word result ≡ from_digit word.now }
{
    if begins_with_digit(without_minus(word)) {
        Err(ScanKind::Number)
    } else if word == b".".as_slice() {
        Ok(Token::Point)
    } else {
        Ok(Token::Symbol(word))
    }
}

// What a word is that is no number.
fn no_number(word: &[u8]) -> Result<Token<'_>, ScanKind>
    ensures { meant_word result ≡ from_hex word.now }
{
    match word {
        [b'0', b'x', digits @ ..] => hex_word(digits),
        _ => symbol(word),
    }
}

/// What the word is.
#[tactic(auto, unfolding(clvm_spec::specs::Tokens::word_token))]
pub(crate) fn read_word(word: &[u8]) -> Result<Token<'_>, ScanKind>
    ensures { meant_word result ≡ word_token word.now }
{
    if is_number(without_minus(word)) {
        return match number(word) {
            Some(number) => Ok(Token::Literal(Literal::Number(number))),
            None => Err(ScanKind::Number),
        };
    }
    no_number(word)
}
