//! The token at the front of a text.

ghost use Rattle.std.specs.Prelude.{◌≡◌, ◌∷◌, false};
ghost use Rattle.clvm_spec.specs.Tokens.{is_separator, is_plain, is_word_byte, without_blanks, word_size, word_at, quoted_size, quoted, at_front, token_of};
ghost use Rattle.text_tokens.specs.Meanings.{meant_front};
ghost use Rattle.text_tokens.specs.Ends.{AreEnds};

use crate::ScanKind;
use crate::literals::Literal;
use crate::words::read_word;

/// A parenthesis, a dot, an atom or a symbol.
#[derive(Drop)]
pub enum Token<'a> {
    /// `(`
    Opening,
    /// `)`
    Closing,
    /// A lone dot.
    Point,
    /// A number, bytes in hexadecimal or a quoted text.
    Literal(Literal<'a>),
    /// Every other word.
    Symbol(&'a [u8]),
}

/// What stands at the front of a text, behind its separators and comments.
#[derive(Drop)]
pub enum Front<'a> {
    /// A token.
    Took {
        token: Token<'a>,
        /// The text from the token's first byte on.
        from: &'a [u8],
        /// The text behind the token.
        rest: &'a [u8],
    },
    /// No token can be read.
    Unread {
        kind: ScanKind,
        /// The text from the place of the fault on.
        from: &'a [u8],
    },
    /// The text ends.
    AtEnd,
}

fn is_separator(byte: u8) -> bool
    ensures { result ≡ is_separator byte }
{
    byte == b' ' || byte == b'\t' || byte == b'\r' || byte == b'\n'
}

fn is_plain(byte: u8) -> bool
    ensures { result ≡ is_plain byte }
{
    0x21 <= byte && byte <= 0x7e
}

fn is_word_byte(byte: u8) -> bool
    ensures { result ≡ is_word_byte byte }
{
    is_plain(byte)
        && !(byte == b'(' || byte == b')' || byte == b';' || byte == b'"' || byte == b'\'')
}

// The text without the separators and comments that it begins with.
fn skip_blanks(text: &[u8]) -> &[u8]
    ensures { result.now ≡ without_blanks false text.now }
{
    let mut in_comment = false;
    let mut rest = text;
    'blanks: while let [byte, after @ ..] = rest {
        if in_comment {
            in_comment = *byte != b'\n';
        } else if is_separator(*byte) || *byte == b';' {
            in_comment = *byte == b';';
        } else {
            return rest;
        }
        rest = after;
    }
    rest
}

// How many bytes the word at the front has.
fn word_len(text: &[u8]) -> usize
    ensures { result ≡ word_size text.now }
{
    let mut size = 0;
    for byte in text {
        if !is_word_byte(*byte) {
            return size;
        }
        size += 1;
    }
    size
}

// How many bytes stand before the quote.
fn quoted_len(quote: u8, text: &[u8]) -> usize
    ensures { result ≡ quoted_size quote text.now }
{
    let mut size = 0;
    for byte in text {
        if *byte == quote {
            return size;
        }
        size += 1;
    }
    size
}

// The text behind an opening quote, up to the next.
fn quoted<'a>(from: &'a [u8], quote: u8, text: &'a [u8]) -> Front<'a>
    requires { from.now ≡ quote ∷ text.now }
    ensures { meant_front result ≡ quoted quote text.now }
{
    let size = quoted_len(quote, text);
    if size < text.len() {
        let token = Token::Literal(Literal::Text(&text[..size]));
        let rest = &text[size + 1..];
        Front::Took { token, from, rest }
    } else {
        let kind = ScanKind::Text;
        Front::Unread { kind, from }
    }
}

fn word(from: &[u8]) -> Front<'_>
    ensures { meant_front result ≡ word_at from.now }
{
    let (word, rest) = from.split_at(word_len(from));
    match read_word(word) {
        Ok(token) => Front::Took { token, from, rest },
        Err(kind) => Front::Unread { kind, from },
    }
}

// What stands at the front of a text that begins with no blank.
fn at_front(from: &[u8]) -> Front<'_>
    ensures { meant_front result ≡ at_front from.now }
{
    match from {
        [b'(', rest @ ..] => {
            let token = Token::Opening;
            Front::Took { token, from, rest }
        }
        [b')', rest @ ..] => {
            let token = Token::Closing;
            Front::Took { token, from, rest }
        }
        [b'"', text @ ..] => quoted(from, b'"', text),
        [b'\'', text @ ..] => quoted(from, b'\'', text),
        [byte, ..] => {
            if is_plain(*byte) {
                return word(from);
            }
            let kind = ScanKind::Byte;
            Front::Unread { kind, from }
        }
        [] => Front::AtEnd,
    }
}

/// The first token of a text. A token takes at least one byte, and no memory.
#[tactic(auto, unfolding(clvm_spec::specs::Tokens::token_of))]
pub fn first_token(text: &[u8]) -> Front<'_>
    ensures front { meant_front result ≡ token_of text.now }
    ensures ends { AreEnds text.now (meant_front result) }
{
    at_front(skip_blanks(text))
}
