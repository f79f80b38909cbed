//! The classes of a bundle's spends, by their shapes and runs.
#![tactic(auto)]

mod alone;
mod bundle_classes;
mod runs;

pub use block_form::Bundle;
pub use bundle_classes::{classes, classes_of_facts};
pub use coin_facts::OutOfMemory;
pub use spend_run::{Class, FactList};
