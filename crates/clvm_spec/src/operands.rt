//! What operators are applied to. Contracts and code share this type.

/// What each operand of an operator has to be.
#[derive(Clone, Copy, Debug, PartialEq, Eq)]
pub enum Operands {
    Any,
    Pairs,
    Atoms,
    /// Atoms of at most `NUMBER_BYTES`.
    Numbers,
    /// An atom as the first, numbers as the others.
    AtomAndNumbers,
}
