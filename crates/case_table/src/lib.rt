//! Tables of cases: the place of a row by its code and by its name, and the tables of the CLVM operators and of conditions.
#![tactic(auto)]

pub mod condition_table;
pub mod look_up;
pub mod operator_table;
pub mod row;

pub use clvm_spec::{costs, op_codes};
pub use condition_table::conditions;
pub use look_up::{find, find_name};
pub use operator_table::{ANY_COUNT, code_of, name_of, operators, symbol_code};
pub use row::{Case, Row};

#[cfg(test)]
mod tests;
