//! What a symbol is as the head of an expression.

ghost use Rattle.std.specs.Prelude.{◌≡◌};
ghost use Rattle.lisp_spec.specs.Heads.{head_of, is_own};

use case_table::symbol_code;

/// What a symbol is as the head of an expression.
#[derive(Clone, Copy, Debug, PartialEq, Eq)]
pub enum Head {
    /// `q`: what follows the head is a tree.
    QuotesRest,
    /// `quote`: its one operand is a tree.
    QuotesOne,
    /// `qq`: its one operand is a template.
    Templates,
    /// `unquote`: its one operand is an expression, in a template.
    Unquotes,
    /// `if`: one of two expressions is evaluated.
    Chooses,
    /// `list`: the list of its operands.
    Lists,
    /// An operator other than `q`, by its code.
    Operates(u8),
    /// Every other symbol: a function, an inline, or nothing that is bound.
    Calls,
}

impl Head {
    /// What the symbol of this name is.
    #[tactic(auto, unfolding(crate::specs::Heads::head_of))]
    pub fn of(name: &[u8]) -> Head
        ensures { result ≡ head_of name.now }
    {
        if name == b"q".as_slice() {
            Head::QuotesRest
        } else if name == b"quote".as_slice() {
            Head::QuotesOne
        } else if name == b"qq".as_slice() {
            Head::Templates
        } else if name == b"unquote".as_slice() {
            Head::Unquotes
        } else if name == b"if".as_slice() {
            Head::Chooses
        } else if name == b"list".as_slice() {
            Head::Lists
        } else {
            match symbol_code(name) {
                Some(code) => Head::Operates(code),
                None => Head::Calls,
            }
        }
    }

    /// Whether the head is the language's own.
    pub fn is_own(self) -> bool
        ensures { result ≡ is_own self }
    {
        !matches!(self, Head::Calls)
    }
}
