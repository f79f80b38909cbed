//! What the program's words say.

ghost use Rattle.std.specs.Prelude.{◌≡◌};

use clvm_input::{Word, Words};

/// A command, with what its words say to it.
#[derive(Debug, Drop)]
pub enum Command {
    /// `session`: plays the session of the input.
    Session,
    /// `hash`: the tree hash of the input.
    Hash,
    /// `eval`: runs the program of the input on an environment, with at most this cost, and tells trees as text or as
    /// hexadecimal.
    Eval { cost: u64, as_text: bool, env: Word },
    /// `curry`: the program of the input, curried with these arguments.
    Curry { arguments: Words },
}

/// Why the words give no command: they aren't one, or there is no memory.
#[derive(Clone, Copy, Debug, PartialEq, Eq)]
pub enum WordsFault {
    /// The words aren't a command.
    Words,
    /// There is no memory.
    OutOfMemory,
}
