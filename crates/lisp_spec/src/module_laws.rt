//! Laws of the module that a text stands for. Each is the contract of a function that does nothing.

ghost use Rattle.lisp_spec.specs.ModuleLaws.{NamesAreBound, NoNameIsWithoutMeaning, ParametersAreDistinct, DefinitionsAreNamed, InlinesEnd, WeightsAreWithinTheLimit, ValuesAreWithinTheLimit};

/// In a module without fault every name is bound, the names of one tree of parameters are distinct, and so are those of
/// definitions, none of which is a name of the language.
pub fn names_are_bound()
    ensures bound { NamesAreBound }
    ensures distinct { ParametersAreDistinct }
    ensures named { DefinitionsAreNamed }
{}

/// In a module without fault no name that is met is without meaning.
pub fn no_name_is_without_meaning()
    ensures { NoNameIsWithoutMeaning }
{}

/// In a module without fault no inline reaches itself.
pub fn inlines_end()
    ensures { InlinesEnd }
{}

/// In a module without fault no function, no inline, no constant's value and no body is past the limit of weights.
pub fn weights_are_within_the_limit()
    ensures expressions { WeightsAreWithinTheLimit }
    ensures values { ValuesAreWithinTheLimit }
{}
