ghost use Rattle.std.specs.Prelude.{◌≡◌};
ghost use Rattle.singleton_forward.specs.Faults.{of_run, of_conditions};
ghost use Rattle.singleton_forward.specs.declared.fault.ShapeFault.TheVariants as shape_fault;

use clvm_eval::RunFault;
use coin_facts::OutOfMemory;
use cond_parse::CondFault;

/// Why a spend has no Forward shape.
#[derive(Clone, Copy, Debug, PartialEq, Eq)]
pub enum ShapeFault {
    /// The number, from 1 to 9, of the first check that is broken.
    Broken(u8),
    OutOfMemory,
}

/// The check that the run is done and gives conditions.
pub(crate) const RUN_CHECK: u8 = 8;

impl From<OutOfMemory> for ShapeFault {
    ghost from_gives = { λ _ fault. fault ≡ shape_fault.OutOfMemory };

    fn from(_: OutOfMemory) -> ShapeFault {
        ShapeFault::OutOfMemory
    }
}

impl From<RunFault> for ShapeFault {
    ghost from_gives = { λ run fault. fault ≡ of_run run };

    fn from(run: RunFault) -> ShapeFault {
        match run {
            RunFault::OutOfMemory => ShapeFault::OutOfMemory,
            _ => ShapeFault::Broken(RUN_CHECK),
        }
    }
}

impl From<CondFault> for ShapeFault {
    ghost from_gives = { λ flaw fault. fault ≡ of_conditions flaw };

    fn from(flaw: CondFault) -> ShapeFault {
        match flaw {
            CondFault::OutOfMemory => ShapeFault::OutOfMemory,
            _ => ShapeFault::Broken(RUN_CHECK),
        }
    }
}
