//! What a table of operators is asked, and what it answers.

ghost use Rattle.std.specs.Prelude.{◌≡◌, ◌+◌, ◌<◌, ◌≤◌, ◌^◌, length, IfOk, IfErr, OnErr};
ghost use Rattle.clvm_tree.specs.Nodes.{tree_at, IsKnown, AreKnown, Grows};
ghost use Rattle.clvm_tree.specs.Operators.{trees_at, outcome_by, IsAnswer, IsWithin, IsOpFault, KeepsNodes, AnswersAreWithin};
ghost use Rattle.clvm_tree.specs.declared.operators.OpFault.TheVariants as op_fault;

use crate::{Node, OutOfMemory, Trees};
use clvm_spec::{Fuel, Which};
use std::alloc::{AllocFailed, Global};

/// What an operator gives: its value, its cost, and the new pairs and the bytes of new atoms that it is charged.
#[derive(Clone, Copy, Debug, PartialEq, Eq)]
pub struct Answer {
    pub value: Node,
    pub cost: u64,
    pub pairs: u64,
    pub bytes: u64,
}

/// Why an operator gives nothing.
#[derive(Clone, Copy, Debug, PartialEq, Eq)]
pub enum OpFault {
    /// This operand, counted from 0, is a pair where an atom is needed, an atom where a pair is, or it isn't within
    /// the atom of which it tells a part.
    Operand(u32),
    /// There are too few operands or too many.
    Count,
    /// The program itself fails, with the list of the operands.
    Raised(Node),
    ZeroDivisor,
    /// A shift by more than 65,535 either way.
    Shift,
    /// There is no operator of that code.
    NoOperator,
    /// A number that 128 bits don't hold.
    Wide,
    /// What is left of this count doesn't suffice.
    Spent(Which),
    OutOfMemory,
}

impl<T: Drop> From<AllocFailed<T>> for OpFault {
    ghost from_gives = { λ _ fault. fault ≡ op_fault.OutOfMemory };

    fn from(_: AllocFailed<T>) -> OpFault {
        OpFault::OutOfMemory
    }
}

impl From<OutOfMemory> for OpFault {
    ghost from_gives = { λ _ fault. fault ≡ op_fault.OutOfMemory };

    fn from(_: OutOfMemory) -> OpFault {
        OpFault::OutOfMemory
    }
}

/// A table of operators. Whichever it is, it answers what the definition of the operators says.
pub trait Operators {
    /// Applies the operator of this code to the operands, within what is left of the fuel. Earlier nodes stand,
    /// whatever the answer. An answer's new nodes are among the pairs and bytes that it is charged. After a fault
    /// no node is new, but the pairs of a list that is raised, one for each operand, and what was made before memory was
    /// wanting, as much as what is left allows.
    fn apply(
        &self,
        alloc: Global,
        trees: &mut Trees,
        code: Node,
        operands: &[Node],
        left: Fuel,
    ) -> Result<Answer, OpFault>
        requires code_known { IsKnown trees.old code.0 }
        requires operands_known { AreKnown trees.old operands.now }
        requires fits { length trees.old + length operands.now + left.pairs + left.bytes < 2 ^ 31 }
        ensures grows { Grows trees.old trees.new }
        ensures few { IfOk result (λ answer. length trees.new ≤ length trees.old + answer.pairs + answer.bytes) }
        ensures within { IfOk result (IsWithin left) }
        ensures gives { IfOk result (IsAnswer trees.new
            (outcome_by (tree_at trees.old code.0) (trees_at trees.old operands.now) left)) }
        ensures few_after_fault { OnErr result
            (length trees.new ≤ length trees.old + length operands.now + left.pairs + left.bytes) }
        ensures nodes { IfErr result (KeepsNodes trees.old trees.new (length operands.now)) }
        ensures fault { IfErr result (IsOpFault trees.new
            (outcome_by (tree_at trees.old code.0) (trees_at trees.old operands.now) left)) };
}

/// Whatever the operators give costs something and is within what is left, by their definition. So an implementation
/// of the trait has this clause of its law from the value that it gives.
pub fn answers_are_within()
    ensures { AnswersAreWithin }
{}
