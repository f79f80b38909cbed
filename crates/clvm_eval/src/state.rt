//! The state of a run: the open forms, each around the next, and their operands on one stack.

ghost use Rattle.std.specs.Prelude.{◌≡◌, ℕ, ◌+◌, ◌-◌, ◌<◌, ◌≤◌, true, MatchBool};
ghost use Rattle.clvm_spec.specs.Spending.{exceeds};
ghost use Rattle.clvm_eval.specs.Steps.{Pays, HasValue, Gives};

use clvm_tree::{Fuel, Node, Trees};

/// An operator form whose operands are evaluated, from the last to the first, in the environment.
#[derive(Clone, Copy, Debug)]
pub(crate) struct Frame {
    pub(crate) code: Node,
    pub(crate) form: Node,
    pub(crate) env: Node,
    /// How many operands it has.
    pub(crate) count: u32,
    /// How many of them, the first ones, are programs yet. Behind them is the one that is evaluated, where the form
    /// awaits its value, and then the values.
    pub(crate) programs: u32,
}

/// The forms that await the value of an operand, the outermost first, with all their operands in the same order, and
/// behind these the operands of the form that is open.
#[derive(Debug, Drop)]
pub(crate) struct State {
    pub(crate) frames: Vec<Frame>,
    pub(crate) operands: Vec<Node>,
    pub(crate) left: Fuel,
}

/// How a run goes on.
#[derive(Clone, Copy, Debug)]
pub(crate) enum Step {
    /// It's done, with this value.
    Done(Node),
    /// This form is open.
    Open(Frame),
}

/// Takes the cost away, unless what is left doesn't suffice.
#[inline(always)]
pub(crate) fn pay(left: &mut Fuel, cost: u128) -> bool
    ensures { MatchBool result (Pays cost left.old left.new) (exceeds cost left.old.cost ≡ true) }
{
    if (left.cost as u128) < cost {
        return false;
    }
    left.cost -= cost as u64;
    true
}

impl State {
    /// Gives a value to the innermost form, which is open then, or ends the run with it.
    #[inline(always)]
    pub(crate) fn give(&mut self, _trees: &Trees, value: Node) -> Step
        requires { HasValue _trees.now self.old value.0 }
        ensures { Gives _trees.now self.old self.new value.0 result }
    {
        let Some(frame) = self.frames.pop() else {
            return Step::Done(value);
        };
        let place = self.operands.len() - frame.count as usize + frame.programs as usize;
        self.operands[place] = value;
        Step::Open(frame)
    }
}
