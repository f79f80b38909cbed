//! The commands on one CLVM input.

ghost use Rattle.std.specs.Prelude.{◌≡◌, ◌≤◌, ◌++◌, IfOk, length, string_bytes};
ghost use Rattle.clvm_spec.specs.declared.limits.TheConstants.{MOST_SPELLED};
ghost use Rattle.clvm_spec.specs.Lines.{line_feed};
ghost use Rattle.clvm_input.specs.Inputs.{clvm_input};
ghost use Rattle.clvm_input.specs.Tools.{fault_words, tool_answer};
ghost use Rattle.chia_sim.specs.Tools.{hash_line, style_of, Says};

use crate::answer::Answer;
use clvm_input::{Fault, InputFault, Tool, line_for};
use clvm_tree::{Node, Trees};
use coin_facts::OutOfMemory;
use std::alloc::Global;
use tool_eval::Style;

/// The tree hash of a tree.
#[derive(Clone, Copy, Debug)]
pub(crate) struct HashTool;

impl Tool for HashTool {
    ghost line = { λ _ tree. hash_line tree };

    fn line(&self, alloc: Global, trees: &mut Trees, tree: Node) -> Result<String, OutOfMemory> {
        let mut line = hex::encode(alloc, trees.hash(alloc, tree)?)?;
        line.push('\n')?;
        Ok(line)
    }
}

pub(crate) fn style_of(as_text: bool) -> Style
    ensures { result ≡ style_of as_text }
{
    if as_text {
        Style::Text
    } else {
        Style::Hexadecimal
    }
}

/// What a command on one tree says to an input.
pub(crate) fn tool_answer<T: Tool>(
    alloc: Global,
    tool: &T,
    input: Vec<u8>,
) -> Result<Answer, OutOfMemory>
    requires { length input.items ≤ MOST_SPELLED }
    ensures { IfOk result (Says (tool_answer (T.line tool.now) (clvm_input input.items))) }
{
    match line_for(alloc, tool, input) {
        Ok(line) => Ok(Answer::Output(line)),
        Err(InputFault::Faulty(fault)) => Ok(Answer::Refusal(fault_line(alloc, fault)?)),
        Err(InputFault::OutOfMemory) => Err(OutOfMemory),
    }
}

fn fault_line(alloc: Global, fault: Fault) -> Result<String, OutOfMemory>
    ensures { IfOk result (λ text. string_bytes text ≡ fault_words fault ++ line_feed) }
{
    let mut text = String::new(alloc);
    fault.write_words(&mut text)?;
    text.push('\n')?;
    Ok(text)
}
