//! The definitions of a session's text: the session that an input is, and what is written for a history.
#![tactic(auto)]

pub mod laws;
pub mod limits;
pub mod making;
mod member;

pub use member::Member;
