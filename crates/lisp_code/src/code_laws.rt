//! Laws of the code of a module. Each is the contract of a function that does nothing.

ghost use Rattle.lisp_code.specs.CodeLaws.{ModulesHaveCode, OnlyCalledAreThere, PathsAreShort, WorkEnds};

/// Where each body is an expression and no inline reaches itself, a module has code that agrees with it, fails where it
/// fails, and is no longer than its bound, made of the codes of its expressions.
pub fn modules_have_code()
    ensures { ModulesHaveCode }
{}

/// Where no inline reaches itself, the work to make it ends.
pub fn work_ends()
    ensures { WorkEnds }
{}

/// No function stands in a code that it doesn't reach, and those that do stand in a balanced tree.
pub fn functions_are_few_and_near()
    ensures few { OnlyCalledAreThere }
    ensures near { PathsAreShort }
{}
