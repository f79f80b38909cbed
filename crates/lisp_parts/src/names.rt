//! Names: as texts, those of the language, and sets of them.

ghost use Rattle.std.specs.Prelude.{◌≡◌, [], ◌∷◌, ◌++◌, not, length, OnOk, OnErr, IfOk, if◌then◌else◌};
ghost use Rattle.lisp_spec.specs.Heads.{is_reserved as is_reserved_name};
ghost use Rattle.lisp_spec.specs.ModuleFaults.{is_among};
ghost use Rattle.lisp_parts.specs.Symbols.{IsAsciiName};

use crate::OutOfMemory;
use indexmap::IndexSet;
use lisp_read::Word;
use lisp_spec::head::Head;
use std::alloc::Global;
use std::marker::Model;

/// A name of ASCII characters as a text.
pub(crate) fn as_text(name: &Word) -> &str
    requires { IsAsciiName name.now }
    ensures { result.now ≡ name.now }
{
    match std::str::from_utf8(name.as_slice()) {
        Ok(text) => text,
        Err(_) => unreachable!(),
    }
}

/// Whether the language has this name itself.
#[tactic(auto, unfolding(lisp_spec::specs::Heads::is_reserved))]
pub(crate) fn is_reserved(name: &Word) -> bool
    ensures { result ≡ is_reserved_name name.now }
{
    Head::of(name.as_slice()).is_own() || name.as_slice() == b"mod".as_slice()
}

/// Names, each once, in the order in which they were added.
#[derive(Drop)]
pub(crate) struct Names {
    set: IndexSet<Word>,
}

impl Model for Names {
    ghost use Rattle.std.specs.Prelude.{ℕ, List};

    ghost Value = { List (List ℕ) };

    ghost view = { λ names. names.set.keys };
}

impl Names {
    pub(crate) fn new(alloc: Global) -> Names
        ensures { result ≡ [] }
    {
        Names {
            set: IndexSet::new(alloc),
        }
    }

    pub(crate) fn len(&self) -> usize
        ensures { result ≡ length self.now }
    {
        self.set.len()
    }

    pub(crate) fn has(&self, name: &Word) -> bool
        ensures { result ≡ is_among name.now self.now }
    {
        self.set.contains(name)
    }

    /// Adds a name behind the others, and tells whether it is new. A name that is there stays where it is.
    pub(crate) fn add(&mut self, name: Word) -> Result<bool, OutOfMemory>
        ensures new { IfOk result (λ new. new ≡ not (is_among name self.old)) }
        ensures names { OnOk result (self.new ≡ (if is_among name self.old then self.old else self.old ++ name ∷ [])) }
        ensures same { OnErr result (self.new ≡ self.old) }
    {
        let new = self.set.insert(name)?;
        Ok(new)
    }
}
