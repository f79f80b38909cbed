// Counts of faults.
ghost use Rattle.std.specs.Prelude.{◌≡◌};
ghost use Rattle.ports_io.specs.Outside.{counted};

/// A count of faults after one more: it stays at its last value.
pub fn one_more(faults: u64) -> u64
    ensures { result ≡ counted faults }
{
    faults.saturating_add(1)
}
