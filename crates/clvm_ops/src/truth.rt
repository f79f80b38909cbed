//! Operators on whether trees are nil.

ghost use Rattle.std.specs.Prelude.{◌≡◌, ◌+◌, ◌*◌, length};
ghost use Rattle.clvm_spec.specs.declared.costs.TheConstants.{TRUTH_COST};
ghost use Rattle.clvm_spec.specs.Operators.{is_true, is_one_true, are_all_true, nil_flag, any_flag, all_flag};
ghost use Rattle.clvm_tree.specs.Nodes.{AreKnown};
ghost use Rattle.clvm_tree.specs.Operators.{trees_at};
ghost use Rattle.clvm_ops.specs.Answering.{CanApply, Applies};

use crate::application::Application;
use crate::on_trees::is_nil;
use clvm_spec::costs;
use clvm_tree::{Answer, Node, OpFault, Trees};

impl Application<'_> {
    pub(crate) fn nil_flag(&self, trees: &Trees) -> Result<Answer, OpFault>
        requires { CanApply trees.now self.now }
        ensures { Applies nil_flag trees.now trees.now self.now result }
    {
        let [operand] = self.operands else {
            return Err(OpFault::Count);
        };
        self.give_flag(trees, is_nil(trees, *operand), self.cost as u128)
    }

    pub(crate) fn any_flag(&self, trees: &Trees) -> Result<Answer, OpFault>
        requires { CanApply trees.now self.now }
        ensures { Applies any_flag trees.now trees.now self.now result }
    {
        self.give_flag(trees, is_one_true(trees, self.operands), self.truth_cost())
    }

    pub(crate) fn all_flag(&self, trees: &Trees) -> Result<Answer, OpFault>
        requires { CanApply trees.now self.now }
        ensures { Applies all_flag trees.now trees.now self.now result }
    {
        self.give_flag(trees, are_all_true(trees, self.operands), self.truth_cost())
    }

    // What it costs to ask for the truth of each operand.
    fn truth_cost(&self) -> u128
        ensures { result ≡ self.now.cost + TRUTH_COST * length self.now.operands.now }
    {
        self.cost as u128 + costs::TRUTH_COST as u128 * self.operands.len() as u128
    }
}

// Whether one of them isn't nil.
fn is_one_true(trees: &Trees, operands: &[Node]) -> bool
    requires { AreKnown trees.now operands.now }
    ensures { result ≡ is_one_true (trees_at trees.now operands.now) }
{
    for operand in operands {
        if !is_nil(trees, *operand) {
            return true;
        }
    }
    false
}

// Whether none of them is nil.
fn are_all_true(trees: &Trees, operands: &[Node]) -> bool
    requires { AreKnown trees.now operands.now }
    ensures { result ≡ are_all_true (trees_at trees.now operands.now) }
{
    for operand in operands {
        if is_nil(trees, *operand) {
            return false;
        }
    }
    true
}
