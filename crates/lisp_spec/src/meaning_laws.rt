//! Laws of a source's meaning on its count. Each is the contract of a function that does nothing.

ghost use Rattle.lisp_spec.specs.MeaningLaws.{LargerCountKeepsValues, LargerCountKeepsFailures, LargerCountKeepsWide, CountsGiveTheSame};

/// A larger count keeps a value, a failure, and a number too wide.
pub fn larger_count_keeps_what_is_found()
    ensures values { LargerCountKeepsValues }
    ensures failures { LargerCountKeepsFailures }
    ensures wide { LargerCountKeepsWide }
{}

/// Two counts that suffice give the same.
pub fn counts_give_the_same()
    ensures { CountsGiveTheSame }
{}
