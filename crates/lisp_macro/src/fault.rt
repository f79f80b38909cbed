ghost use Rattle.std.specs.Prelude.{◌≡◌};
ghost use Rattle.lisp_macro.specs.declared.fault.MacroFault.TheVariants as macro_fault;
ghost use Rattle.lisp_macro.specs.declared.fault.Stop.TheVariants as stops;

use crate::{OutOfMemory, Place};
use std::alloc::AllocFailed;
use thiserror::Error;

/// Why a form isn't expanded. The place is that of the outermost call, the one that is written in the text.
#[derive(Clone, Copy, Debug, PartialEq, Eq, Error)]
pub enum MacroFault {
    /// No turn is left for a call or an expression of its body.
    #[error("no turn is left for the macro at {0:?}")]
    TurnsSpent(Place),
    /// What is met of the body can't be evaluated, or it gives a form that nests deeper than `MOST_NESTING`.
    #[error("bad macro at {0:?}")]
    BadMacro(Place),
    /// The body gives a form that weighs more than `MOST_WEIGHT`.
    #[error("the form is too large that the macro gives at {0:?}")]
    TooLarge(Place),
    #[error("out of memory")]
    OutOfMemory,
}

impl<T: Drop> From<AllocFailed<T>> for MacroFault {
    ghost from_gives = { λ _ fault. fault ≡ macro_fault.OutOfMemory };

    fn from(_: AllocFailed<T>) -> MacroFault {
        MacroFault::OutOfMemory
    }
}

impl From<OutOfMemory> for MacroFault {
    ghost from_gives = { λ _ fault. fault ≡ macro_fault.OutOfMemory };

    fn from(_: OutOfMemory) -> MacroFault {
        MacroFault::OutOfMemory
    }
}

/// Why a body gives no form, wherever its call stands.
#[derive(Clone, Copy, Debug, PartialEq, Eq)]
pub(crate) enum Stop {
    TurnsSpent,
    BadMacro,
    OutOfMemory,
}

impl<T: Drop> From<AllocFailed<T>> for Stop {
    ghost from_gives = { λ _ stop. stop ≡ stops.OutOfMemory };

    fn from(_: AllocFailed<T>) -> Stop {
        Stop::OutOfMemory
    }
}

impl From<OutOfMemory> for Stop {
    ghost from_gives = { λ _ stop. stop ≡ stops.OutOfMemory };

    fn from(_: OutOfMemory) -> Stop {
        Stop::OutOfMemory
    }
}
