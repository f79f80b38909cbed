//! The command `eval`.

ghost use Rattle.std.specs.Prelude.{◌≡◌, ◌≤◌, ◌^◌, IfOk, length, string_bytes};
ghost use Rattle.clvm_spec.specs.Spelled.{spelled_tree};
ghost use Rattle.clvm_spec.specs.Evaluation.{fuel_of};
ghost use Rattle.clvm_tree.specs.Nodes.{tree_at, IsKnown};
ghost use Rattle.tool_eval.specs.Outcomes.{run_line};

use crate::Style;
use crate::words::write_run;
use clvm_eval::run;
use clvm_input::{Tool, Word};
use clvm_ops::CoreOps;
use clvm_spec::limits::{MOST_BYTES, MOST_DEPTH, MOST_PAIRS};
use clvm_tree::{Fuel, Node, OutOfMemory, Trees};
use std::alloc::Global;

/// How a program runs on an environment with this cost, in words.
#[derive(Clone, Copy, Debug)]
pub struct Eval<'a> {
    pub env: &'a Word,
    pub style: Style,
    pub cost: u64,
}

fn fuel_of(cost: u64) -> Fuel
    ensures { result ≡ fuel_of cost }
{
    Fuel {
        cost,
        pairs: MOST_PAIRS,
        bytes: MOST_BYTES,
        depth: MOST_DEPTH,
    }
}

// The line of a run.
fn run_line(
    alloc: Global,
    trees: &mut Trees,
    program: Node,
    env: Node,
    style: Style,
    cost: u64,
) -> Result<String, OutOfMemory>
    requires program_known { IsKnown trees.old program.0 }
    requires env_known { IsKnown trees.old env.0 }
    requires nodes { length trees.old ≤ 2 ^ 29 }
    ensures { IfOk result (λ line. string_bytes line ≡ run_line style cost (tree_at trees.old program.0) (tree_at trees.old env.0)) }
{
    let run = run(alloc, trees, &CoreOps, program, env, fuel_of(cost));
    let mut line = String::new(alloc);
    write_run(alloc, &mut line, trees, run, style)?;
    line.push('\n')?;
    Ok(line)
}

impl<'a> Tool for Eval<'a> {
    ghost line = { λ eval program. run_line eval.style eval.cost program (spelled_tree eval.env.now) };

    fn line(&self, alloc: Global, trees: &mut Trees, program: Node) -> Result<String, OutOfMemory> {
        let env = self.env.read(alloc, trees)?;
        run_line(alloc, trees, program, env, self.style, self.cost)
    }
}
