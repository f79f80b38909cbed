//! A step of evaluation: a path, a quoted value, or the begin of an operator form.

ghost use Rattle.std.specs.Prelude.{◌≡◌, ℕ, ◌+◌, ◌<◌, ◌≤◌, Some, None, IfOk, OnOk};
ghost use Rattle.clvm_spec.specs.Tree.{Atom};
ghost use Rattle.clvm_spec.specs.Evaluation.{is_code, is_too_deep, evaluation};
ghost use Rattle.clvm_spec.specs.Operators.{is_nil};
ghost use Rattle.clvm_tree.specs.Nodes.{tree_at, IsKnown, HasParts, single_byte};
ghost use Rattle.clvm_eval.specs.declared.Why.TheVariants as why;
ghost use Rattle.clvm_eval.specs.declared.RunFault.TheVariants as fault;
ghost use Rattle.clvm_eval.specs.declared.state.Step.TheVariants as step;
ghost use Rattle.clvm_eval.specs.Steps.{IsState, IsOpen, outcome_with, outcome_of, Begins, IsForm, AddsOperands, StepsTo};

use crate::path::{cost_of_byte, cost_of_path, follow, follow_byte};
use crate::state::{Frame, State, Step, pay};
use crate::{RunFault, Why};
use clvm_spec::costs::{FORM_COST, QUOTE_COST};
use clvm_spec::op_codes::QUOTE;
use clvm_tree::{Fuel, Node, OutOfMemory, Sight, Trees, Which};

/// What a program is.
#[derive(Clone, Copy, Debug)]
pub(crate) enum Begun {
    /// A path or a quoted tree, with its value, which is paid.
    Value(Node),
    /// An operator form, by its code and the list of its operands. Nothing is paid yet.
    Form(Node, Node),
}

/// Whether the node is the atom of this one byte.
#[inline(always)]
pub(crate) fn is_code(trees: &Trees, code: u8, node: Node) -> bool
    requires { IsKnown trees.now node.0 }
    ensures { result ≡ is_code code (tree_at trees.now node.0) }
{
    match trees.byte_of(node) {
        Some(byte) => byte == code,
        None => false,
    }
}

/// Looks at a program, and evaluates it where that takes no operator.
#[inline(always)]
pub(crate) fn begin(
    trees: &Trees,
    left: &mut Fuel,
    program: Node,
    env: Node,
) -> Result<Begun, RunFault>
    requires program_known { IsKnown trees.now program.0 }
    requires env_known { IsKnown trees.now env.0 }
    ensures { Begins trees.now program.0 env.0 left.old left.new result }
{
    if let Some(path) = trees.byte_of(program) {
        return evaluate_byte(trees, left, path, program, env);
    }
    match trees.look(program) {
        Sight::Bytes(path) => evaluate_long_path(trees, left, path, program, env),
        Sight::Parts(head, rest) => begin_pair(trees, left, head, rest, program, env),
    }
}

// A step's failure comes before its lack of cost.
#[inline(always)]
fn evaluate_byte(
    trees: &Trees,
    left: &mut Fuel,
    path: u8,
    program: Node,
    env: Node,
) -> Result<Begun, RunFault>
    requires program_known { IsKnown trees.now program.0 }
    requires env_known { IsKnown trees.now env.0 }
    requires path { single_byte (tree_at trees.now program.0) ≡ Some path }
    ensures { Begins trees.now program.0 env.0 left.old left.new result }
{
    let Some(at) = follow_byte(trees, path, env) else {
        return Err(RunFault::Failed(Why::Path, program));
    };
    if !pay(left, cost_of_byte(path, at.steps) as u128) {
        return Err(RunFault::Spent(Which::Cost));
    }
    Ok(Begun::Value(at.node))
}

// The same of a path of no byte or of several, which is seldom. What is passed to it and comes back lies in memory only
// here, and not in the loop that this is inlined into.
#[inline(always)]
fn evaluate_long_path(
    trees: &Trees,
    left: &mut Fuel,
    path: &[u8],
    program: Node,
    env: Node,
) -> Result<Begun, RunFault>
    requires program_known { IsKnown trees.now program.0 }
    requires env_known { IsKnown trees.now env.0 }
    requires path { tree_at trees.now program.0 ≡ Atom path.now }
    ensures { Begins trees.now program.0 env.0 left.old left.new result }
{
    let mut after = *left;
    let begun = evaluate_path(trees, &mut after, path, program, env);
    *left = after;
    begun
}

#[inline(never)]
fn evaluate_path(
    trees: &Trees,
    left: &mut Fuel,
    path: &[u8],
    program: Node,
    env: Node,
) -> Result<Begun, RunFault>
    requires program_known { IsKnown trees.now program.0 }
    requires env_known { IsKnown trees.now env.0 }
    requires path { tree_at trees.now program.0 ≡ Atom path.now }
    ensures { Begins trees.now program.0 env.0 left.old left.new result }
{
    let Some(at) = follow(trees, path, env) else {
        return Err(RunFault::Failed(Why::Path, program));
    };
    if !pay(left, cost_of_path(path, at.steps)) {
        return Err(RunFault::Spent(Which::Cost));
    }
    Ok(Begun::Value(at.node))
}

#[inline(always)]
fn begin_pair(
    trees: &Trees,
    left: &mut Fuel,
    head: Node,
    rest: Node,
    program: Node,
    env: Node,
) -> Result<Begun, RunFault>
    requires program_known { IsKnown trees.now program.0 }
    requires env_known { IsKnown trees.now env.0 }
    requires parts { HasParts trees.now program.0 head.0 rest.0 }
    ensures { Begins trees.now program.0 env.0 left.old left.new result }
{
    let _env = env;
    match trees.byte_of(head) {
        Some(QUOTE) => {
            if !pay(left, QUOTE_COST as u128) {
                return Err(RunFault::Spent(Which::Cost));
            }
            Ok(Begun::Value(rest))
        }
        Some(_) => Ok(Begun::Form(head, rest)),
        None => match trees.as_pair(head) {
            Some(_) => Err(no_operator_at(program)),
            None => Ok(Begun::Form(head, rest)),
        },
    }
}

// The fault of a form whose head is a pair. As above, it comes back in memory only here.
#[inline(always)]
fn no_operator_at(program: Node) -> RunFault
    ensures { result ≡ fault.Failed why.Operator program }
{
    no_operator(program)
}

// The same. It stands out of line, since it is seldom.
#[cold]
#[inline(never)]
fn no_operator(program: Node) -> RunFault
    ensures { result ≡ fault.Failed why.Operator program }
{
    RunFault::Failed(Why::Operator, program)
}

/// Whether the node is the empty atom.
pub(crate) fn is_nil(trees: &Trees, node: Node) -> bool
    requires { IsKnown trees.now node.0 }
    ensures { result ≡ is_nil (tree_at trees.now node.0) }
{
    trees.is_nil(node)
}

// Adds the elements of a list, and tells how many there are, None where nil doesn't end it.
#[inline(always)]
fn add_operands(
    operands: &mut Vec<Node>,
    trees: &Trees,
    list: Node,
) -> Result<Option<u32>, OutOfMemory>
    requires { IsKnown trees.now list.0 }
    ensures { IfOk result (AddsOperands trees.now list.0 operands.old.items operands.new.items) }
{
    let mut rest = list;
    let mut count = 0;
    'elements: while let Some((program, more)) = trees.as_pair(rest) {
        operands.push(program)?;
        rest = more;
        count += 1;
    }
    if is_nil(trees, rest) {
        Ok(Some(count))
    } else {
        Ok(None)
    }
}

// Operands stand one deeper than their form, so a form that has some can't be at the limit.
fn is_too_deep(count: u32, depth: usize, limit: u32) -> bool
    ensures { result ≡ is_too_deep count depth limit }
{
    count > 0 && depth >= limit as usize
}

impl State {
    /// Opens a form: its operands are programs that are evaluated before its operator is applied.
    #[inline(always)]
    fn open_form(
        &mut self,
        trees: &Trees,
        code: Node,
        operands: Node,
        form: Node,
        env: Node,
    ) -> Result<Step, RunFault>
        requires state { IsState trees.now self.old 0 }
        requires form_known { IsKnown trees.now form.0 }
        requires env_known { IsKnown trees.now env.0 }
        requires form { IsForm trees.now form.0 code.0 operands.0 }
        ensures { StepsTo trees.now self.old self.new (outcome_with trees.now self.old form.0 env.0) result }
    {
        let depth = self.frames.len();
        let Some(count) = add_operands(&mut self.operands, trees, operands)? else {
            return Err(RunFault::Failed(Why::List, form));
        };
        if !pay(&mut self.left, FORM_COST as u128) {
            return Err(RunFault::Spent(Which::Cost));
        }
        if is_too_deep(count, depth, self.left.depth) {
            return Err(RunFault::Spent(Which::Depth));
        }
        Ok(Step::Open(Frame {
            code,
            form,
            env,
            count,
            programs: count,
        }))
    }

    /// Evaluates a program whose value the innermost form awaits, or opens it where it's a form.
    #[inline(always)]
    pub(crate) fn evaluate(
        &mut self,
        trees: &Trees,
        program: Node,
        env: Node,
    ) -> Result<Step, RunFault>
        requires state { IsState trees.now self.old 0 }
        requires program_known { IsKnown trees.now program.0 }
        requires env_known { IsKnown trees.now env.0 }
        ensures { StepsTo trees.now self.old self.new (outcome_with trees.now self.old program.0 env.0) result }
    {
        match begin(trees, &mut self.left, program, env)? {
            Begun::Value(value) => Ok(self.give(trees, value)),
            Begun::Form(code, operands) => self.open_form(trees, code, operands, program, env),
        }
    }

    /// Evaluates the last operand of the open form that is a program yet, or opens it where it's a form.
    #[inline(always)]
    pub(crate) fn evaluate_operand(&mut self, trees: &Trees, frame: Frame) -> Result<Step, RunFault>
        requires opened { IsOpen trees.now self.old frame }
        requires some { 0 < frame.programs }
        ensures { StepsTo trees.now self.old self.new (outcome_of trees.now self.old (step.Open frame)) result }
    {
        let mut programs = frame.programs;
        'operands: while programs > 0 {
            programs -= 1;
            let place = self.operands.len() - frame.count as usize + programs as usize;
            let program = self.operands[place];
            match begin(trees, &mut self.left, program, frame.env)? {
                Begun::Value(value) => self.operands[place] = value,
                Begun::Form(code, operands) => {
                    self.frames.push(Frame { programs, ..frame })?;
                    return self.open_form(trees, code, operands, program, frame.env);
                }
            }
        }
        Ok(Step::Open(Frame {
            programs: 0,
            ..frame
        }))
    }
}
