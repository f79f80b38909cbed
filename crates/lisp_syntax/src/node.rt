//! What an expression is made of.

use lisp_read::{Form, Word};

/// A part of an expression, whose own parts stand before it.
#[derive(Clone, Copy)]
pub enum Node<'a> {
    /// An atom, or the tree that a form is where it is quoted.
    Literal(&'a Form),
    /// A parameter, else a constant.
    Name(&'a Word),
    /// `if` of three expressions: the second where the first isn't nil, else the third.
    Choice,
    /// `list` of operands.
    Listing,
    /// The operator of this code, of operands.
    Operation(u8),
    FunctionCall(&'a Word),
    InlineCall(&'a Word),
    /// `qq` of a template.
    Filled,
    /// No operand.
    NoMore,
    /// An expression before other operands.
    Operand,
    /// The template of an atom or a symbol.
    Plain(&'a Form),
    /// The template of two others.
    Both,
    /// The template that stands for an expression.
    Unquoted,
}

/// What a form is, once its macros are expanded. Its nodes stand one behind the other, each behind its parts, so an
/// expression is dropped at once, however deep it is.
#[derive(Drop)]
pub struct Expression<'a> {
    pub nodes: Vec<Node<'a>>,
}
