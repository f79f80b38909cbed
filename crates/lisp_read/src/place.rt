//! Where a form begins.

/// Where something begins: the number of its text, and its first byte.
#[derive(Clone, Copy, Debug, PartialEq, Eq, PartialOrd, Ord, Hash)]
pub struct Place {
    pub text: u32,
    pub at: u32,
}
