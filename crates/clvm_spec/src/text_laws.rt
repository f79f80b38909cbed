//! Laws of CLVM text. Each is the contract of a function that does nothing.

ghost use Rattle.clvm_spec.specs.TextLaws.{FormsAreWithinTheText, ListIsItsStep, PrintedIsScanned, PrintedTooDeep};

/// Scanning needs no more steps than its text has bytes, so the definition's bound is no part of its meaning.
pub fn steps_are_within_the_text()
    ensures { FormsAreWithinTheText }
{}

/// What stands in a list is what its first token begins, with the same for what is behind that.
pub fn list_is_its_step()
    ensures { ListIsItsStep }
{}

/// What is printed of a tree is scanned as that tree where its text nests at most `MOST_OPEN` parentheses, and is too
/// deep where it nests more.
pub fn printed_text_is_scanned()
    ensures scanned { PrintedIsScanned }
    ensures too_deep { PrintedTooDeep }
{}
