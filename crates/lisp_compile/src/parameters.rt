//! Steps down a tree of parameters.

/// One step down a tree.
#[derive(Clone, Copy, Debug, PartialEq, Eq)]
pub(crate) enum Side {
    First,
    Rest,
}
