//! The table of operators.

ghost use Rattle.std.specs.Prelude.{◌≡◌, ◌+◌, ◌<◌, ◌^◌, List, [], ◌∷◌, length, None, IfSome, IfNone};
ghost use Rattle.clvm_spec.specs.declared.fuel.Fuel.{Fuel};
ghost use Rattle.clvm_spec.specs.Tree.{Tree, Atom};
ghost use Rattle.clvm_spec.specs.OperatorTable.{operator_at, applied_by, applied, within};
ghost use Rattle.clvm_tree.specs.Nodes.{tree_at, IsKnown, AreKnown};
ghost use Rattle.clvm_tree.specs.Operators.{trees_at, outcome_by};
ghost use Rattle.clvm_ops.specs.Answering.{Answers};

use crate::application::Application;
use case_table::by_operator;
use clvm_spec::costs;
use clvm_tree::{Answer, Fuel, Node, OpFault, Operators, Sight, Trees};
use std::alloc::Global;

/// The operators of CLVM, but `q` and `a`, which are no operators on values.
#[derive(Clone, Copy, Debug, PartialEq, Eq)]
pub struct CoreOps;

impl Operators for CoreOps {
    fn apply(
        &self,
        alloc: Global,
        trees: &mut Trees,
        code: Node,
        operands: &[Node],
        left: Fuel,
    ) -> Result<Answer, OpFault> {
        match code_of(trees, code) {
            Some(code) => apply_code(alloc, trees, code, operands, left),
            None => Err(OpFault::NoOperator),
        }
    }
}

// The one byte of an operator's code.
fn code_of(trees: &Trees, code: Node) -> Option<u8>
    requires { IsKnown trees.now code.0 }
    ensures some { IfSome result (λ byte. tree_at trees.now code.0 ≡ Atom (byte ∷ [])) }
    ensures none { IfNone result ((operands : List Tree) (left : Fuel) →
        outcome_by (tree_at trees.now code.0) operands left ≡ within left (applied_by None operands)) }
{
    match trees.look(code) {
        Sight::Bytes(bytes) => one_byte(bytes),
        Sight::Parts(_, _) => None,
    }
}

fn one_byte(bytes: &[u8]) -> Option<u8>
    ensures some { IfSome result (λ byte. bytes.now ≡ byte ∷ []) }
    ensures none { IfNone result (operator_at bytes.now ≡ None) }
{
    match bytes {
        [byte] => Some(*byte),
        _ => None,
    }
}

#[tactic(auto, unfolding(clvm_spec::specs::OperatorTable::applied, clvm_spec::specs::OperatorTable::operator_of))]
fn apply_code(
    alloc: Global,
    trees: &mut Trees,
    code: u8,
    operands: &[Node],
    left: Fuel,
) -> Result<Answer, OpFault>
    requires known { AreKnown trees.old operands.now }
    requires fits { length trees.old + length operands.now + left.pairs + left.bytes < 2 ^ 31 }
    ensures { Answers trees.old trees.new (length operands.now) left (applied (code ∷ []) (trees_at trees.old operands.now)) result }
{
    // One for all arms: a function pays at its entry for each local that it has.
    let mut application = Application {
        alloc,
        operands,
        cost: 0,
        left,
    };
    macro_rules! arm {
        ($code:ident, $name:literal, $cost:ident, quote) => {
            Err(OpFault::NoOperator)
        };
        ($code:ident, $name:literal, $cost:ident, apply) => {
            Err(OpFault::NoOperator)
        };
        ($code:ident, $name:literal, $cost:ident, $operator:ident) => {
            {
                application.cost = costs::$cost;
                application.$operator(trees)
            }
        };
    }
    by_operator!(code, arm, Err(OpFault::NoOperator))
}
