ghost use Rattle.std.specs.Prelude.{◌≡◌};
ghost use Rattle.spend_run.specs.Breaches.{of_conditions, of_run};
ghost use Rattle.spend_run.specs.declared.fault.SpendFault.TheVariants as spend_fault;

use clvm_eval::RunFault;
use coin_facts::OutOfMemory;
use cond_parse::CondFault;

/// Which of the rules 3 to 10 a spend breaks first. The number is the place of the condition, counted from 0.
#[derive(Clone, Copy, Debug, PartialEq, Eq)]
pub enum SpendFault {
    /// The puzzle's tree hash isn't the coin's.
    PuzzleHash,
    /// The run of the puzzle on the solution fails.
    Failed,
    /// The run spends its cost, pairs, bytes or depth.
    Spent,
    /// The run meets a number that 128 bits don't hold.
    Wide,
    /// The condition is malformed.
    Malformed(u32),
    /// The condition is unknown.
    Unknown(u32),
    /// The condition creates a coin of the same puzzle hash and amount as an earlier one.
    SameOutput(u32),
    /// What the condition says of the spent coin differs from it.
    OwnFact(u32),
    OutOfMemory,
}

impl From<OutOfMemory> for SpendFault {
    ghost from_gives = { λ _ fault. fault ≡ spend_fault.OutOfMemory };

    fn from(_: OutOfMemory) -> SpendFault {
        SpendFault::OutOfMemory
    }
}

impl From<RunFault> for SpendFault {
    ghost from_gives = { λ run fault. fault ≡ of_run run };

    fn from(run: RunFault) -> SpendFault {
        match run {
            RunFault::Failed(_, _) => SpendFault::Failed,
            RunFault::Spent(_) => SpendFault::Spent,
            RunFault::Wide => SpendFault::Wide,
            RunFault::OutOfMemory => SpendFault::OutOfMemory,
        }
    }
}

impl From<CondFault> for SpendFault {
    ghost from_gives = { λ flaw fault. fault ≡ of_conditions flaw };

    fn from(flaw: CondFault) -> SpendFault {
        match flaw {
            CondFault::Malformed(place) => SpendFault::Malformed(place),
            CondFault::Unknown(place) => SpendFault::Unknown(place),
            CondFault::OutOfMemory => SpendFault::OutOfMemory,
        }
    }
}
