//! CLVM input and CLVM words: the hexadecimal of exactly one spelled tree.
#![tactic(auto)]

ghost use Rattle.std.specs.Prelude.{◌≡◌, ◌++◌, OnOk, string_bytes};
ghost use Rattle.clvm_input.specs.Tools.{fault_words};
ghost use Rattle.clvm_input.specs.declared.InputFault.TheVariants.{OutOfMemory};

mod input;
#[cfg(test)]
mod tests;
mod text;
mod tool;
mod word;
mod words;

pub use clvm_tree::OutOfMemory;
pub use input::read_input;
pub use tool::{Tool, line_for};
pub use word::{Word, read_word};
pub use words::{Words, read_words};

/// What is wrong with an input, at the first place where it is: it isn't hexadecimal, or its bytes aren't one spelled
/// tree. Places count the bytes that the digits stand for.
#[derive(Clone, Copy, Debug, PartialEq, Eq)]
pub enum Fault {
    /// A digit is none, or their number is odd.
    Hex,
    /// The bytes end before the tree does.
    Cut,
    /// A shorter prefix, or none, could spell the atom at this place.
    LongSpelling(u32),
    /// The byte at this place begins no tree.
    BadPrefix(u32),
    /// More bytes follow the tree, from this place on.
    Left(u32),
}

impl Fault {
    /// Appends the words that name the fault.
    pub fn write_words(self, text: &mut String) -> Result<(), OutOfMemory>
        ensures { OnOk result (string_bytes text.new ≡ string_bytes text.old ++ fault_words self) }
    {
        match self {
            Fault::Hex => text.push_str("input hex"),
            Fault::Cut => text.push_str("input cut"),
            Fault::LongSpelling(place) => write!(text, "input long-spelling {place}"),
            Fault::BadPrefix(place) => write!(text, "input bad-prefix {place}"),
            Fault::Left(place) => write!(text, "input left {place}"),
        }
    }
}

/// Why an input isn't read.
#[derive(Clone, Copy, Debug, PartialEq, Eq)]
pub enum InputFault {
    Faulty(Fault),
    OutOfMemory,
}

impl From<OutOfMemory> for InputFault {
    ghost from_gives = { λ _ fault. fault ≡ OutOfMemory };

    fn from(_: OutOfMemory) -> InputFault {
        InputFault::OutOfMemory
    }
}
