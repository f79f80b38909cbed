//! Laws of the values of constants. Each is the contract of a function that does nothing.

ghost use Rattle.lisp_spec.specs.ConstantLaws.{ConstantsMeanTheirValues, FailingConstantsMeanNone, ConstantsAreWhatTheyMean};

/// A constant's value is what its expression means, and where a constant fails its expression means no value.
pub fn constants_mean_their_values()
    ensures values { ConstantsMeanTheirValues }
    ensures failures { FailingConstantsMeanNone }
{}

/// Each constant of a module is what the expression of its definition means in that module.
pub fn constants_are_what_they_mean()
    ensures { ConstantsAreWhatTheyMean }
{}
