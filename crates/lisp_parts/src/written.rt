use crate::Place;
use lisp_read::{Form, Word};

/// What a definition makes.
#[derive(Clone, Copy, Debug, PartialEq, Eq)]
pub enum Role {
    Function,
    Inline,
    Macro,
    Constant,
}

/// A definition as it is written. A constant has the empty tree of parameters, and its expression is the body.
#[derive(Drop)]
pub struct Written {
    pub role: Role,
    /// Where the definition begins.
    pub place: Place,
    pub name: Word,
    pub name_place: Place,
    pub params: Form,
    pub body: Form,
}
