//! A run: it goes on from one step to the next until it's done.

ghost use Rattle.std.specs.Prelude.{◌≡◌, ℕ, ◌+◌, ◌*◌, ◌<◌, ◌≤◌, ◌^◌, length, IfOk, IfErr, OnOk, OnErr};
ghost use Rattle.clvm_spec.specs.Evaluation.{run_outcome, most_pairs, most_bytes, most_depth};
ghost use Rattle.clvm_tree.specs.Nodes.{tree_at, IsKnown, Grows};
ghost use Rattle.clvm_eval.specs.Runs.{IsRunDone, IsRunFault};
ghost use Rattle.clvm_eval.specs.Steps.{IsOpen, Advances, IsFaultOf, FewNodes, outcome_of};
ghost use Rattle.clvm_eval.specs.declared.state.Step.TheVariants as step;

use crate::evaluate::is_code;
use crate::state::{Frame, State, Step};
use crate::{Done, RunFault};
use clvm_spec::op_codes::APPLY;
use clvm_tree::{Fuel, Node, Operators, Trees};
use std::alloc::Global;

impl State {
    // Goes on with the open form.
    #[inline(always)]
    fn go_on<O: Operators>(
        &mut self,
        alloc: Global,
        trees: &mut Trees,
        ops: &O,
        frame: Frame,
    ) -> Result<Step, RunFault>
        requires { IsOpen trees.old self.old frame }
        ensures grows { Grows trees.old trees.new }
        ensures ok { IfOk result (Advances trees.old trees.new self.old self.new (outcome_of trees.old self.old (step.Open frame))) }
        ensures few_after_fault { OnErr result (FewNodes trees.old trees.new self.old) }
        ensures fault { IfErr result (IsFaultOf frame trees.old trees.new self.old) }
    {
        if frame.programs > 0 {
            self.evaluate_operand(trees, frame)
        } else if is_code(trees, APPLY, frame.code) {
            self.run_operand(trees, frame)
        } else {
            self.operate(alloc, trees, ops, frame)
        }
    }
}

/// Evaluates a program in an environment, within the fuel. Earlier nodes stand, whatever the answer; a value's new
/// nodes are among the pairs and bytes of the fuel.
pub fn run<O: Operators>(
    alloc: Global,
    trees: &mut Trees,
    ops: &O,
    program: Node,
    env: Node,
    fuel: Fuel,
) -> Result<Done, RunFault>
    requires program_known { IsKnown trees.old program.0 }
    requires env_known { IsKnown trees.old env.0 }
    requires nodes { length trees.old ≤ 2 ^ 29 }
    requires pairs { fuel.pairs ≤ most_pairs }
    requires bytes { fuel.bytes ≤ most_bytes }
    requires depth { fuel.depth ≤ most_depth }
    ensures grows { Grows trees.old trees.new }
    ensures few { OnOk result (length trees.new ≤ length trees.old + fuel.pairs + fuel.bytes) }
    ensures done { IfOk result (IsRunDone trees.new fuel
        (run_outcome (tree_at trees.old program.0) (tree_at trees.old env.0) fuel)) }
    ensures few_after_fault { OnErr result (length trees.new ≤ 2 * (length trees.old + fuel.pairs + fuel.bytes)) }
    ensures fault { IfErr result (IsRunFault trees.new
        (run_outcome (tree_at trees.old program.0) (tree_at trees.old env.0) fuel)) }
{
    let mut state = State {
        frames: Vec::new(alloc),
        operands: Vec::new(alloc),
        left: fuel,
    };
    let mut next = state.evaluate(trees, program, env)?;
    'steps: loop {
        match next {
            Step::Done(value) => {
                return Ok(Done {
                    value,
                    cost: fuel.cost - state.left.cost,
                });
            }
            Step::Open(frame) => next = state.go_on(alloc, trees, ops, frame)?,
        }
    }
}
