//! The code that this project makes of a module: its definition, that it agrees with what the module means, and that it
//! is no longer than the module's bound. The compiler stands on it.
#![tactic(auto)]

pub mod code_laws;
