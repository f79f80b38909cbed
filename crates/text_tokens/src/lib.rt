//! The tokens of a text, of CLVM's and of Chialisp's. A token borrows from the text; none takes memory.
#![tactic(auto)]

mod digits;
mod fronts;
mod literals;
mod words;

pub use clvm_spec::ScanKind;
pub use digits::HexDigits;
pub use fronts::{Front, Token, first_token};
pub use literals::Literal;

#[cfg(test)]
mod tests;
