//! Laws of the grammar. Each is the contract of a function that does nothing.

ghost use Rattle.lisp_read.specs.Laws.{HasOneReading, LeavesNothing, PlacesAreFirstBytes};

/// A text has one reading.
pub fn a_text_has_one_reading()
    ensures { HasOneReading }
{}

/// What is read leaves nothing of its text: with more lines behind it, its forms stand before those of the lines.
pub fn what_is_read_leaves_nothing()
    ensures { LeavesNothing }
{}

/// Each atom and symbol that is read has the place of its token, and each list that of its `(`.
pub fn places_are_first_bytes()
    ensures { PlacesAreFirstBytes }
{}
