ghost use Rattle.std.specs.Prelude.{◌≡◌};
ghost use Rattle.pool_core.specs.declared.fault.AdmitFault.TheVariants as admit_fault;

use coin_facts::OutOfMemory;

/// Why a bundle isn't admitted: the first broken rule with its place, or want of memory.
#[derive(Clone, Copy, Debug, PartialEq, Eq)]
pub enum AdmitFault {
    Refused { rule: u8, place: u32 },
    OutOfMemory,
}

impl From<OutOfMemory> for AdmitFault {
    ghost from_gives = { λ _ fault. fault ≡ admit_fault.OutOfMemory };

    fn from(_: OutOfMemory) -> AdmitFault {
        AdmitFault::OutOfMemory
    }
}
