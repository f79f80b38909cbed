ghost use Rattle.std.specs.Prelude.{◌≤◌, IfOk, length};
ghost use Rattle.chia_sim.specs.declared.limits.TheConstants.{MOST_INPUT};
ghost use Rattle.chia_sim.specs.Stops.{IsAnswer};

use crate::session::session_answer;
use crate::tools::{HashTool, style_of, tool_answer};
use coin_facts::OutOfMemory;
use std::alloc::Global;
use tool_curry::Curry;
use tool_eval::Eval;
use tool_words::Command;

/// What a command says to an input: its output, or the line that says why the input isn't of its form.
#[derive(Debug, Drop)]
pub(crate) enum Answer {
    Output(String),
    Refusal(String),
}

/// What a command says to an input.
pub(crate) fn answer_to(
    alloc: Global,
    command: Command,
    input: Vec<u8>,
) -> Result<Answer, OutOfMemory>
    requires { length input.items ≤ MOST_INPUT }
    ensures { IfOk result (IsAnswer command input.items) }
{
    match command {
        Command::Session => session_answer(alloc, &input),
        Command::Hash => tool_answer(alloc, &HashTool, input),
        Command::Eval { cost, as_text, env } => {
            let style = style_of(as_text);
            let env = &env;
            tool_answer(alloc, &Eval { env, style, cost }, input)
        }
        Command::Curry { arguments } => {
            let arguments = &arguments;
            tool_answer(alloc, &Curry { arguments }, input)
        }
    }
}
