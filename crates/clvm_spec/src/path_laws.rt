//! A law of paths. It is the contract of a function that does nothing.

ghost use Rattle.clvm_spec.specs.PathLaws.{PathsAreWithinTheirBits};

/// A path has no more bits than its bytes have, so the definition's bound is no part of its meaning.
pub fn paths_are_within_their_bits()
    ensures { PathsAreWithinTheirBits }
{}
