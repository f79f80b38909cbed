ghost use Rattle.std.specs.Prelude.{◌≡◌};
ghost use Rattle.cond_parse.specs.declared.fault.CondFault.TheVariants as cond_fault;
ghost use Rattle.cond_parse.specs.declared.fault.Flaw.TheVariants as the_flaw;

use coin_facts::OutOfMemory;

/// Why a value lists no conditions, with the place of the first broken one. Places are counted from 0.
#[derive(Clone, Copy, Debug, PartialEq, Eq)]
pub enum CondFault {
    /// It is no pair with an atom in front, or an operand is missing or of a wrong form; or the list doesn't end in nil.
    Malformed(u32),
    /// Its atom is no code of a condition, written as one byte.
    Unknown(u32),
    OutOfMemory,
}

impl From<OutOfMemory> for CondFault {
    ghost from_gives = { λ _ fault. fault ≡ cond_fault.OutOfMemory };

    fn from(_: OutOfMemory) -> CondFault {
        CondFault::OutOfMemory
    }
}

/// What is wrong with one condition.
#[derive(Clone, Copy, Debug, PartialEq, Eq)]
pub(crate) enum Flaw {
    Malformed,
    Unknown,
    OutOfMemory,
}

impl From<OutOfMemory> for Flaw {
    ghost from_gives = { λ _ flaw. flaw ≡ the_flaw.OutOfMemory };

    fn from(_: OutOfMemory) -> Flaw {
        Flaw::OutOfMemory
    }
}
