//! The definitions of the language: expansion, modules, what the source of a module means, when code agrees with
//! it, and weights.
#![tactic(auto)]

pub mod constant_laws;
pub mod expansion_laws;
pub mod head;
pub mod limits;
pub mod meaning_laws;
pub mod module_laws;
pub mod nesting_laws;
