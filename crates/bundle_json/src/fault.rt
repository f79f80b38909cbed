ghost use Rattle.std.specs.Prelude.{◌≡◌};
ghost use Rattle.bundle_json.specs.declared.fault.MemberFault.TheVariants.{OutOfMemory};

use crate::OutOfMemory;
use session_spec::Member;

/// What is wrong with a member of an object: it isn't there, it isn't of its form, or it names a module that isn't there.
#[derive(Clone, Copy, Debug, PartialEq, Eq)]
pub enum MemberFault {
    Missing(Member),
    Bad(Member),
    UnknownName(Member),
    OutOfMemory,
}

impl From<OutOfMemory> for MemberFault {
    ghost from_gives = { λ _ fault. fault ≡ OutOfMemory };

    fn from(_: OutOfMemory) -> MemberFault {
        MemberFault::OutOfMemory
    }
}
