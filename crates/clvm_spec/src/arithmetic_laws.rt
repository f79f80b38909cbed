ghost use Rattle.clvm_spec.specs.Laws.{RemainderIsLeft, RoundsDownAboveZero, RoundsDownBelowZero};

/// The law of division: a number is the divisor times the quotient, and a remainder that lies between 0 and the
/// divisor, so the quotient is rounded down.
pub fn quotients_are_rounded_down()
    ensures whole { RemainderIsLeft }
    ensures above { RoundsDownAboveZero }
    ensures below { RoundsDownBelowZero }
{}
