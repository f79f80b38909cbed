//! Which operand isn't of the kind that the row of an operator tells.

ghost use Rattle.std.specs.Prelude.{◌≡◌, ◌<◌, ◌^◌, length};
ghost use Rattle.clvm_spec.specs.ColumnLaws.{pair_fault, atom_fault, number_fault, operand_fault, first_fault};
ghost use Rattle.clvm_tree.specs.Nodes.{tree_at, IsKnown, AreKnown};
ghost use Rattle.clvm_tree.specs.Operators.{trees_at};
ghost use Rattle.clvm_ops.specs.KindFaults.{Tells};

use crate::operands::is_short;
use clvm_spec::Operands;
use clvm_tree::{Node, OpFault, Sight, Trees};

fn pair_fault(trees: &Trees, place: u32, operand: Node) -> Result<(), OpFault>
    requires { IsKnown trees.now operand.0 }
    ensures { Tells trees.now (pair_fault place (tree_at trees.now operand.0)) result }
{
    match trees.look(operand) {
        Sight::Bytes(_) => Err(OpFault::Operand(place)),
        Sight::Parts(_, _) => Ok(()),
    }
}

fn atom_fault(trees: &Trees, place: u32, operand: Node) -> Result<(), OpFault>
    requires { IsKnown trees.now operand.0 }
    ensures { Tells trees.now (atom_fault place (tree_at trees.now operand.0)) result }
{
    match trees.look(operand) {
        Sight::Bytes(_) => Ok(()),
        Sight::Parts(_, _) => Err(OpFault::Operand(place)),
    }
}

fn number_fault(trees: &Trees, place: u32, operand: Node) -> Result<(), OpFault>
    requires { IsKnown trees.now operand.0 }
    ensures { Tells trees.now (number_fault place (tree_at trees.now operand.0)) result }
{
    match trees.look(operand) {
        Sight::Bytes(bytes) => {
            if is_short(bytes) {
                Ok(())
            } else {
                Err(OpFault::Wide)
            }
        }
        Sight::Parts(_, _) => Err(OpFault::Operand(place)),
    }
}

fn operand_fault(trees: &Trees, kind: Operands, place: u32, operand: Node) -> Result<(), OpFault>
    requires { IsKnown trees.now operand.0 }
    ensures { Tells trees.now (operand_fault kind place (tree_at trees.now operand.0)) result }
{
    match kind {
        Operands::Any => Ok(()),
        Operands::Pairs => pair_fault(trees, place, operand),
        Operands::Atoms => atom_fault(trees, place, operand),
        Operands::Numbers => number_fault(trees, place, operand),
        Operands::AtomAndNumbers => {
            if place == 0 {
                atom_fault(trees, place, operand)
            } else {
                number_fault(trees, place, operand)
            }
        }
    }
}

/// The fault of the first operand that isn't of its kind, `Ok` where each is: an atom where a pair is needed, a pair
/// where an atom is, or an atom too long for a number where one is.
pub fn first_fault(trees: &Trees, kind: Operands, operands: &[Node]) -> Result<(), OpFault>
    requires known { AreKnown trees.now operands.now }
    requires few { length operands.now < 2 ^ 31 }
    ensures { Tells trees.now (first_fault kind 0 (trees_at trees.now operands.now)) result }
{
    for (place, operand) in operands.iter().enumerate() {
        operand_fault(trees, kind, place as u32, *operand)?;
    }
    Ok(())
}
