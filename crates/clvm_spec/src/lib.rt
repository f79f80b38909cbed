//! The definitions of the machine: trees, their spelling, their hash and the numbers of atoms; paths,
//! operators, the costed evaluation, currying, and the text form.
#![tactic(auto)]

pub mod arithmetic;
pub mod arithmetic_laws;
pub mod codec_laws;
pub mod column_laws;
pub mod costs;
pub mod currying_laws;
pub mod fuel;
pub mod fuel_laws;
pub mod limits;
mod nesting;
mod numbers;
pub mod op_codes;
pub mod operands;
pub mod path_laws;
pub mod scan_kind;
#[cfg(test)]
mod tests;
pub mod text_laws;

pub use fuel::{Fuel, Which};
pub use nesting::nests_within;
pub use numbers::{number_length, shortest_bytes};
pub use operands::Operands;
pub use scan_kind::ScanKind;
