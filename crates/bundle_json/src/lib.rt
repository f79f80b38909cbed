//! Bundles as JSON objects, the members of a session's objects, and the codes that they name.
#![tactic(auto)]

mod attested;
mod bundles;
mod code;
mod codes;
mod fault;
mod hexadecimal;
mod members;
mod named;
mod names;
mod spends;
mod values;

pub use block_form::{Attested, Bundle, Signed, Spend, Spends};
pub use bundles::bundle;
pub use codes::Codes;
pub use coin_facts::OutOfMemory;
pub use fault::MemberFault;
pub use members::{
    bytes_member, code_member, found, hash_member, id_member, number_member, number_or,
    object_member, required,
};
pub use named::code_value;
pub use names::is_name;
pub use session_spec::Member;
pub use spends::coin_member;
pub use values::{list_of, number_between, whole_number};

#[cfg(test)]
mod tests;
