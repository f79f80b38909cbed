//! The definitions of a session's steps: its commands, their replies, and the legal histories of its lanes.
#![tactic(auto)]

mod command;
mod entry;
mod header;
pub mod laws;
mod reply;

pub use command::Command;
pub use entry::Entry;
pub use header::Header;
pub use reply::Reply;
