// Texts in memory as a library.
ghost use Rattle.std.specs.Prelude.{◌≡◌, ◌≢◌, ◌≤◌, ◌↔◌, ℕ, List, IfOk, IsErrOf, IsTrue, IsSome, None, OnErr, OnOk, Some, option_map};
ghost use Rattle.ports_io.specs.Outside.{Rose, counted};
ghost use Rattle.ports_io.specs.Memory.{FailsNext, after_call, all_calls};
ghost use Rattle.ports_io.specs.Texts.{text_of};

use super::calls::FailingCalls;
use crate::count::one_more;
use crate::{Library, LibraryError, OutOfMemory};
use std::alloc::Global;
use std::collections::BTreeMap;

/// A library in memory, which tells its texts.
#[derive(Drop)]
pub struct MemoryLibrary {
    texts: BTreeMap<String, Vec<u8>>,
    calls: FailingCalls,
    faults: u64,
}

impl MemoryLibrary {
    /// Has no text. The fetches whose numbers, counted from 0, stand in `failing` fail.
    pub fn new(alloc: Global, failing: Vec<u64>) -> MemoryLibrary
        ensures texts { (name : List ℕ) → text_of result name ≡ None }
        ensures calls { result.calls ≡ all_calls failing.items }
        ensures faults { result.faults ≡ 0 }
    {
        MemoryLibrary {
            texts: BTreeMap::new(alloc),
            calls: FailingCalls::new(failing),
            faults: 0,
        }
    }

    /// Is there a text of this name?
    pub fn has(&self, name: &str) -> bool
        ensures { IsTrue result ↔ IsSome (text_of self.now name.now) }
    {
        self.texts.contains_key(name)
    }

    /// Adds a text. Without memory the library has the texts that it had.
    pub fn put(&mut self, alloc: Global, name: &str, text: &[u8]) -> Result<(), OutOfMemory>
        requires { text_of self.old name.now ≡ None }
        ensures put { OnOk result (text_of self.new name.now ≡ Some text.now) }
        ensures others { (other : List ℕ) → other ≢ name.now → text_of self.new other ≡ text_of self.old other }
        ensures err { OnErr result ((other : List ℕ) → text_of self.new other ≡ text_of self.old other) }
        ensures calls { self.new.calls ≡ self.old.calls }
        ensures faults { self.new.faults ≡ self.old.faults }
    {
        let name = String::from_str(alloc, name)?;
        let text = Vec::from_slice(alloc, text)?;
        self.texts.insert(name, text)?;
        Ok(())
    }
}

impl Library for MemoryLibrary {
    ghost texts = { λ library. Some (text_of library) };

    ghost faults = { λ library. library.faults };

    /// Fails exactly at the fetches that were chosen for it.
    fn fetch(&mut self, alloc: Global, name: &str) -> Result<Option<Vec<u8>>, LibraryError>
        ensures answer { IfOk result (λ found. option_map (λ text. text.items) found ≡ text_of self.old name.now) }
        ensures texts { text_of self.new ≡ text_of self.old }
        ensures later { self.old.faults ≤ self.new.faults }
        ensures cause { IsErrOf result LibraryError.Fault → Rose self.old.faults self.new.faults }
        ensures fails { IsErrOf result LibraryError.Fault ↔ FailsNext self.old.calls }
        ensures calls { self.new.calls ≡ after_call self.old.calls }
        ensures fault { IsErrOf result LibraryError.Fault → self.new.faults ≡ counted self.old.faults }
        ensures quiet { OnOk result (self.new.faults ≡ self.old.faults) }
        ensures memory { IsErrOf result LibraryError.OutOfMemory → self.new.faults ≡ self.old.faults }
    {
        if self.calls.fails_next() {
            self.faults = one_more(self.faults);
            return Err(LibraryError::Fault);
        }
        match self.texts.get(name) {
            Some(text) => Ok(Some(Vec::from_slice(alloc, text.as_slice())?)),
            None => Ok(None),
        }
    }
}
