ghost use Rattle.std.specs.Prelude.{◌≡◌};
ghost use Rattle.chia_sim.specs.declared.form.FormFault.TheVariants as form_fault;

use coin_facts::OutOfMemory;
use std::alloc::AllocFailed;

/// Why no session is read: the input isn't of the form that is built so far, or there is no memory.
#[derive(Clone, Copy, Debug, PartialEq, Eq)]
pub(crate) enum FormFault {
    Unbuilt,
    OutOfMemory,
}

impl From<OutOfMemory> for FormFault {
    ghost from_gives = { λ _ fault. fault ≡ form_fault.OutOfMemory };

    fn from(_: OutOfMemory) -> FormFault {
        FormFault::OutOfMemory
    }
}

impl<T: Drop> From<AllocFailed<T>> for FormFault {
    ghost from_gives = { λ _ fault. fault ≡ form_fault.OutOfMemory };

    fn from(_: AllocFailed<T>) -> FormFault {
        FormFault::OutOfMemory
    }
}
