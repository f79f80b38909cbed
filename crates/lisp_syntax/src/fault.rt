ghost use Rattle.std.specs.Prelude.{◌≡◌};
ghost use Rattle.lisp_syntax.specs.declared.fault.FormFault.TheVariants as form_fault;

use crate::{OutOfMemory, Place};
use std::alloc::AllocFailed;
use thiserror::Error;

/// Why a form isn't an expression.
#[derive(Clone, Copy, Debug, PartialEq, Eq, Error)]
pub enum FormFault {
    /// The pair at this place is no expression.
    #[error("no expression at {0:?}")]
    BadForm(Place),
    /// The symbol at this place names nothing that may stand there.
    #[error("a name without meaning at {0:?}")]
    Unbound(Place),
    #[error("out of memory")]
    OutOfMemory,
}

impl<T: Drop> From<AllocFailed<T>> for FormFault {
    ghost from_gives = { λ _ fault. fault ≡ form_fault.OutOfMemory };

    fn from(_: AllocFailed<T>) -> FormFault {
        FormFault::OutOfMemory
    }
}
