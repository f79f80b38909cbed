//! What an operator is applied to.

use clvm_tree::{Fuel, Node};
use std::alloc::Global;

/// An operator's operands, its cost whatever they are, and what is left of the fuel.
#[derive(Clone, Copy)]
pub(crate) struct Application<'a> {
    pub(crate) alloc: Global,
    pub(crate) operands: &'a [Node],
    pub(crate) cost: u32,
    pub(crate) left: Fuel,
}
