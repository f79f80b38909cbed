//! The costed run of a program: evaluation with the open forms on a stack, so that no depth of a program is too deep.
#![tactic(auto)]

ghost use Rattle.std.specs.Prelude.{◌≡◌};
ghost use Rattle.clvm_eval.specs.declared.RunFault.TheVariants as run_fault;

mod apply;
mod evaluate;
mod machine;
mod path;
mod quick;
mod state;

pub use clvm_tree::{Fuel, Node, Operators, OutOfMemory, Trees, Which};
pub use machine::run;
pub use path::{Place, cost_of_path, follow};
use std::alloc::AllocFailed;

/// Why a step fails.
#[derive(Clone, Copy, Debug, PartialEq, Eq)]
pub enum Why {
    /// A path steps into an atom.
    Path,
    /// The operands are no list ended by nil.
    List,
    /// There are too few operands or too many.
    Count,
    /// This operand, counted from 0, is a pair where an atom is needed, an atom where a pair is, or it isn't within
    /// the atom of which it tells a part.
    Operand(u32),
    /// The program itself fails, with the list of the operands.
    Raised(Node),
    /// A division by zero.
    Zero,
    /// A shift by more than 65,535 either way.
    Shift,
    /// There is no operator of that code.
    Operator,
}

/// The value of a run, and what it cost.
#[derive(Clone, Copy, Debug, PartialEq, Eq)]
pub struct Done {
    pub value: Node,
    pub cost: u64,
}

/// Why a run has no value.
#[derive(Clone, Copy, Debug, PartialEq, Eq)]
pub enum RunFault {
    /// A step fails: why, and the path or the pair that it is.
    Failed(Why, Node),
    /// This count of the fuel doesn't suffice.
    Spent(Which),
    /// A number that 128 bits don't hold.
    Wide,
    OutOfMemory,
}

impl<T: Drop> From<AllocFailed<T>> for RunFault {
    ghost from_gives = { λ _ fault. fault ≡ run_fault.OutOfMemory };

    fn from(_: AllocFailed<T>) -> RunFault {
        RunFault::OutOfMemory
    }
}

impl From<OutOfMemory> for RunFault {
    ghost from_gives = { λ _ fault. fault ≡ run_fault.OutOfMemory };

    fn from(_: OutOfMemory) -> RunFault {
        RunFault::OutOfMemory
    }
}

#[cfg(test)]
mod tests;
