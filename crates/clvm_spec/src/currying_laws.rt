//! Laws of curried programs. Each is the contract of a function that does nothing.

ghost use Rattle.clvm_spec.specs.CurryingLaws.{HashFollows, GivesPartsBack, GivesNoneWithoutArgument, WasCurried};

/// The hash of a curried program follows from the hashes of the program and its arguments.
pub fn curried_hash_follows()
    ensures { HashFollows }
{}

/// Uncurrying gives back what was curried with at least one argument, and finds nothing else.
pub fn uncurrying_gives_the_parts_back()
    ensures parts { GivesPartsBack }
    ensures none { GivesNoneWithoutArgument }
    ensures only { WasCurried }
{}
