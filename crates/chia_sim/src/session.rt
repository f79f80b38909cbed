// The command `session`.
ghost use Rattle.std.specs.Prelude.{IfOk};
ghost use Rattle.tool_words.specs.declared.said.Command.TheVariants as command;
ghost use Rattle.chia_sim.specs.Stops.{IsAnswer};
ghost use Rattle.chia_sim.specs.Played.{IsPlayedAs};

use crate::answer::Answer;
use crate::form::FormFault;
use crate::opening::open;
use crate::play::play;
use crate::report::report;
use coin_facts::OutOfMemory;
use std::alloc::Global;

/// Plays the session that an input is, and tells the output of its history.
pub(crate) fn session_answer(alloc: Global, input: &[u8]) -> Result<Answer, OutOfMemory>
    ensures { IfOk result (IsAnswer command.Session input.now) }
{
    match output_for(alloc, input) {
        Ok(output) => Ok(Answer::Output(output)),
        Err(FormFault::Unbuilt) => Ok(Answer::Refusal(String::from_str(alloc, "unbuilt\n")?)),
        Err(FormFault::OutOfMemory) => Err(OutOfMemory),
    }
}

fn output_for(alloc: Global, input: &[u8]) -> Result<String, FormFault>
    ensures { IsPlayedAs input.now result }
{
    let history = play(alloc, open(alloc, input)?)?;
    Ok(report(alloc, &history)?)
}
