//! What is wrong with a text.

ghost use Rattle.std.specs.Prelude.{◌≡◌};
ghost use Rattle.clvm_spec.specs.Grammar.{is_dots_fault};

/// The first fault of a text, from the front.
#[derive(Clone, Copy, Debug, PartialEq, Eq)]
pub enum ScanKind {
    /// The text ends inside a list, or before a form.
    End,
    /// A `)` that closes nothing.
    Close,
    /// A dot with no form before it, or that isn't followed by exactly one form and `)`.
    Dot,
    /// A word that begins with `0x` and hasn't an even number of hexadecimal digits, at least two.
    Hex,
    /// A word that begins like a number and is none of 128 bits.
    Number,
    /// A quoted text without its end.
    Text,
    /// A byte that no token begins with.
    Byte,
    /// More than `MOST_OPEN` lists in one another.
    Deep,
}

impl ScanKind {
    /// Whether a list tells this as a fault of its dot, where it stands behind that.
    pub fn is_dots_fault(self) -> bool
        ensures { result ≡ is_dots_fault self }
    {
        !matches!(self, ScanKind::Deep)
    }
}
