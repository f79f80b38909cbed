//! The pool of one thread: bundles are judged on the chain and admitted.
#![tactic(auto)]

mod conditions;
mod fault;
mod ids;
mod item;
mod judge;
mod operands;
mod payment;
mod pool;
mod sums;

pub use fault::AdmitFault;
pub use item::Item;
pub use pool::{Admitted, Pool};
pub use pool_spec::Limits;
