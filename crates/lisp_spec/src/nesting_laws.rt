//! Laws of what nests: the calls of inlines, and includes. Each is the contract of a function that does nothing.

ghost use Rattle.lisp_spec.specs.CycleLaws.{FindsReached, FoundIsReached, WeightsAreWithinTheNesting, WeightIsItsStep, ParametersWeighWhatTheyStandFor};
ghost use Rattle.lisp_spec.specs.InclusionLaws.{IncludeIsItsStep, IncludesKeepNumbers};

/// What an inline reaches by any number of calls is what the definition of cycles finds.
pub fn reaching_is_by_calls()
    ensures finds { FindsReached }
    ensures found { FoundIsReached }
{}

/// Where no inline reaches itself, the bound in the definition of weights is no part of its meaning: the weight of an
/// expression is that of its parts, and an inline call's that of the inline's body.
pub fn weight_is_its_step()
    ensures bound { WeightsAreWithinTheNesting }
    ensures step { WeightIsItsStep }
{}

/// A parameter of an inline weighs as much as the expression that it stands for in a call, and 1 where its path has a
/// missing step.
pub fn parameters_weigh_what_they_stand_for()
    ensures { ParametersWeighWhatTheyStandFor }
{}

/// The bound in the definition of includes is no part of its meaning: an include adds nothing where its name is there,
/// else what its text has.
pub fn include_is_its_step()
    ensures step { IncludeIsItsStep }
    ensures numbers { IncludesKeepNumbers }
{}
