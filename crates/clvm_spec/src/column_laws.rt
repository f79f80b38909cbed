//! Laws of the operator table's columns. Each is the contract of a function that does nothing.

ghost use Rattle.clvm_spec.specs.ColumnLaws.{CountsAreColumns, KindsAreColumns, NoOtherIsWrong, OnlyNumbersAreTooWide, CostsAreColumns};

/// The count of operands is wrong exactly where it isn't from a row's least to its most.
pub fn counts_are_columns()
    ensures { CountsAreColumns }
{}

/// The first operand that isn't of a row's kind is the fault. Where there is none, no operand is wrong, but for the
/// range of `substr`, and no number too wide, but of numbers.
pub fn kinds_are_columns()
    ensures first { KindsAreColumns }
    ensures none { NoOtherIsWrong }
    ensures held { OnlyNumbersAreTooWide }
{}

/// Whatever an operator gives costs at least its row's cost.
pub fn costs_are_columns()
    ensures { CostsAreColumns }
{}
