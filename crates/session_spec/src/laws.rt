//! Laws of the definitions. Each is the contract of a function that does nothing.
ghost use Rattle.session_spec.specs.ConditionNames.{NamesAreTheTables};

/// The names of conditions that the language knows are those of the table.
pub fn names_of_conditions()
    ensures { NamesAreTheTables }
{}
