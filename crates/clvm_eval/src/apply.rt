//! An operator whose operands are evaluated.

ghost use Rattle.std.specs.Prelude.{◌≡◌, ◌^◌, ℕ, ◌+◌, ◌-◌, ◌<◌, ◌≤◌, ◌++◌, List, [], ◌∷◌, length, take, true, false, IfOk, IfErr, OnOk, OnErr};
ghost use Rattle.clvm_spec.specs.declared.fuel.Fuel.{Fuel};
ghost use Rattle.clvm_spec.specs.Tree.{Tree};
ghost use Rattle.clvm_spec.specs.Outcomes.{WithinFuel};
ghost use Rattle.clvm_spec.specs.Evaluation.{in_form, is_code};
ghost use Rattle.clvm_spec.specs.OperatorTable.{apply_code};
ghost use Rattle.clvm_tree.specs.Nodes.{tree_at, IsKnown, AreKnown, Grows};
ghost use Rattle.clvm_tree.specs.Operators.{trees_at, outcome_by, IsAnswer, IsWithin, IsOpFault};
ghost use Rattle.clvm_eval.specs.Runs.{IsRunFault};
ghost use Rattle.clvm_eval.specs.Steps.{IsOpen, Advances, YieldsOf, IsFaultOf, FewNodes, StepsTo, TakesAnswer, outcome_of};
ghost use Rattle.clvm_eval.specs.declared.state.Step.TheVariants as step;

use crate::quick::quick;
use crate::state::{Frame, State, Step, pay};
use crate::{RunFault, Why};
use clvm_spec::costs::APPLY_COST;
use clvm_tree::{Answer, Fuel, Node, OpFault, Operators, Trees, Which};
use std::alloc::Global;

// The fault of an operator as that of its form.
fn fault_in(form: Node, fault: OpFault) -> RunFault
    ensures { (trees : List Tree) (outcome : WithinFuel) (left : Fuel) → IsKnown trees form.0 → IsOpFault trees outcome fault →
        IsRunFault trees (in_form (tree_at trees form.0) left outcome) result }
{
    match fault {
        OpFault::Operand(place) => RunFault::Failed(Why::Operand(place), form),
        OpFault::Count => RunFault::Failed(Why::Count, form),
        OpFault::Raised(node) => RunFault::Failed(Why::Raised(node), form),
        OpFault::ZeroDivisor => RunFault::Failed(Why::Zero, form),
        OpFault::Shift => RunFault::Failed(Why::Shift, form),
        OpFault::NoOperator => RunFault::Failed(Why::Operator, form),
        OpFault::Wide => RunFault::Wide,
        OpFault::Spent(which) => RunFault::Spent(which),
        OpFault::OutOfMemory => RunFault::OutOfMemory,
    }
}

// What the table answers. It stands out of line, so that the loop of a run stays small, and it isn't given the state, so
// that the loop may keep that in registers.
#[inline(never)]
fn table_answer<O: Operators>(
    alloc: Global,
    trees: &mut Trees,
    ops: &O,
    code: Node,
    operands: &[Node],
    left: Fuel,
) -> Result<Answer, OpFault>
    requires code_known { IsKnown trees.old code.0 }
    requires operands_known { AreKnown trees.old operands.now }
    requires fits { length trees.old + length operands.now + left.pairs + left.bytes < 2 ^ 31 }
    ensures grows { Grows trees.old trees.new }
    ensures few { IfOk result (λ answer. length trees.new ≤ length trees.old + answer.pairs + answer.bytes) }
    ensures within { IfOk result (IsWithin left) }
    ensures gives { IfOk result (IsAnswer trees.new
        (outcome_by (tree_at trees.old code.0) (trees_at trees.old operands.now) left)) }
    ensures few_after_fault { OnErr result
        (length trees.new ≤ length trees.old + length operands.now + left.pairs + left.bytes) }
    ensures fault { IfErr result (IsOpFault trees.new
        (outcome_by (tree_at trees.old code.0) (trees_at trees.old operands.now) left)) }
{
    ops.apply(alloc, trees, code, operands, left)
}

impl State {
    /// Goes on with the first operand as the program and the second as the environment, at the form's depth.
    #[inline(always)]
    pub(crate) fn run_operand(&mut self, trees: &Trees, frame: Frame) -> Result<Step, RunFault>
        requires opened { IsOpen trees.now self.old frame }
        requires ready { frame.programs ≡ 0 }
        requires apply { is_code apply_code (tree_at trees.now frame.code.0) ≡ true }
        ensures { StepsTo trees.now self.old self.new (outcome_of trees.now self.old (step.Open frame)) result }
    {
        if frame.count != 2 {
            return Err(RunFault::Failed(Why::Count, frame.form));
        }
        if !pay(&mut self.left, APPLY_COST as u128) {
            return Err(RunFault::Spent(Which::Cost));
        }
        let start = self.operands.len() - 2;
        let program = self.operands[start];
        let env = self.operands[start + 1];
        self.operands.truncate(start);
        self.evaluate(trees, program, env)
    }

    // Takes the operands away, and what the answer uses.
    #[tactic(auto, using(clvm_spec::proofs::SpendingLaws::covers))]
    #[inline(always)]
    fn take_answer(&mut self, start: usize, answer: Answer)
        requires within { IsWithin self.old.left answer }
        ensures { TakesAnswer start answer self.old self.new }
    {
        self.left.cost -= answer.cost;
        if answer.pairs > 0 {
            self.left.pairs -= answer.pairs;
        }
        if answer.bytes > 0 {
            self.left.bytes -= answer.bytes;
        }
        self.operands.truncate(start);
    }

    // What an operator gives by the table.
    #[inline(always)]
    fn value_by_table<O: Operators>(
        &mut self,
        alloc: Global,
        trees: &mut Trees,
        ops: &O,
        frame: Frame,
    ) -> Result<Node, RunFault>
        requires opened { IsOpen trees.old self.old frame }
        requires ready { frame.programs ≡ 0 }
        requires other { is_code apply_code (tree_at trees.old frame.code.0) ≡ false }
        ensures grows { Grows trees.old trees.new }
        ensures ok { IfOk result (YieldsOf frame trees.old trees.new self.old self.new) }
        ensures few_after_fault { OnErr result (FewNodes trees.old trees.new self.old) }
        ensures fault { IfErr result (IsFaultOf frame trees.old trees.new self.old) }
    {
        let start = self.operands.len() - frame.count as usize;
        match table_answer(
            alloc,
            trees,
            ops,
            frame.code,
            &self.operands[start..],
            self.left,
        ) {
            Ok(answer) => {
                self.take_answer(start, answer);
                Ok(answer.value)
            }
            Err(fault) => Err(fault_in(frame.form, fault)),
        }
    }

    // What an operator gives, at once where that can be told, else by the table.
    #[inline(always)]
    fn operator_value<O: Operators>(
        &mut self,
        alloc: Global,
        trees: &mut Trees,
        ops: &O,
        frame: Frame,
    ) -> Result<Node, RunFault>
        requires opened { IsOpen trees.old self.old frame }
        requires ready { frame.programs ≡ 0 }
        requires other { is_code apply_code (tree_at trees.old frame.code.0) ≡ false }
        ensures grows { Grows trees.old trees.new }
        ensures ok { IfOk result (YieldsOf frame trees.old trees.new self.old self.new) }
        ensures few_after_fault { OnErr result (FewNodes trees.old trees.new self.old) }
        ensures fault { IfErr result (IsFaultOf frame trees.old trees.new self.old) }
    {
        let start = self.operands.len() - frame.count as usize;
        match quick(alloc, trees, frame.code, &self.operands[start..], self.left) {
            Some(answer) => {
                self.take_answer(start, answer);
                Ok(answer.value)
            }
            None => self.value_by_table(alloc, trees, ops, frame),
        }
    }
    /// Applies an operator to its operands.
    #[inline(always)]
    pub(crate) fn operate<O: Operators>(
        &mut self,
        alloc: Global,
        trees: &mut Trees,
        ops: &O,
        frame: Frame,
    ) -> Result<Step, RunFault>
        requires opened { IsOpen trees.old self.old frame }
        requires ready { frame.programs ≡ 0 }
        requires other { is_code apply_code (tree_at trees.old frame.code.0) ≡ false }
        ensures grows { Grows trees.old trees.new }
        ensures ok { IfOk result (Advances trees.old trees.new self.old self.new (outcome_of trees.old self.old (step.Open frame))) }
        ensures few_after_fault { OnErr result (FewNodes trees.old trees.new self.old) }
        ensures fault { IfErr result (IsFaultOf frame trees.old trees.new self.old) }
    {
        let value = self.operator_value(alloc, trees, ops, frame)?;
        Ok(self.give(trees, value))
    }
}
