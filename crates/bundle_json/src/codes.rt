//! The codes of earlier modules, by name.

ghost use Rattle.std.specs.Prelude.{◌≡◌, ◌==◌, ◌<◌, [], ◌∷◌, ◌++◌, length, slice_get, None, Some, option_map, IfSome, OnOk, OnErr};
ghost use Rattle.bundle_json.specs.Codes.{IsCode, hash_of_code, code_named, HasDistinctNames};

use crate::OutOfMemory;
use crate::code::Code;
use coin_facts::{Bytes, Hash32};
use indexmap::IndexMap;
use std::alloc::Global;
use std::marker::Model;

/// The names of the earlier modules, in their order, each with its code and that code's tree hash. No two names are
/// alike. Each code is exactly one spelled tree, and is found by its name's hash.
#[derive(Debug, Drop)]
pub struct Codes {
    by_name: IndexMap<String, Code>,
}

impl Model for Codes {
    ghost use Rattle.std.specs.Prelude.{List};
    ghost use Rattle.bundle_json.specs.Codes.{NamedCode};
    ghost use Rattle.bundle_json.specs.Inside.{codes_of};

    ghost Value = { List NamedCode };

    ghost view = { λ codes. codes_of codes.by_name.entries };
}

impl Codes {
    /// No code.
    pub fn new(alloc: Global) -> Codes
        ensures { result ≡ [] }
    {
        Codes {
            by_name: IndexMap::new(alloc),
        }
    }

    /// Adds a code by a name that isn't there. Without memory nothing changes.
    pub fn add(
        &mut self,
        alloc: Global,
        name: &str,
        code: Bytes,
        hash: Hash32,
    ) -> Result<(), OutOfMemory>
        requires new { code_named self.old name.now ≡ None }
        requires code { IsCode code }
        requires hash { hash ≡ hash_of_code code }
        ensures ok { OnOk result (self.new ≡ self.old ++ record { name = name.now; code = code } ∷ []) }
        ensures out_of_memory { OnErr result (self.new ≡ self.old) }
    {
        let name = String::from_str(alloc, name)?;
        self.by_name.insert(name, Code::new(code, hash))?;
        Ok(())
    }

    /// The code of this name and its tree hash, None exactly where the name isn't there.
    pub fn code_of(&self, name: &str) -> Option<(&Bytes, &Hash32)>
        ensures code { option_map (λ found. found.0.now) result ≡ code_named self.now name.now }
        ensures is_code { IfSome result (λ found. IsCode found.0.now) }
        ensures hash { IfSome result (λ found. found.1.now ≡ hash_of_code found.0.now) }
    {
        let code = self.by_name.get(name)?;
        Some((code.bytes(), code.hash()))
    }

    /// How many codes there are.
    pub fn len(&self) -> usize
        ensures value { result ≡ length self.now }
        ensures distinct { HasDistinctNames self.now }
    {
        self.by_name.len()
    }

    /// Whether there is no code.
    pub fn is_empty(&self) -> bool
        ensures { result ≡ (length self.now == 0) }
    {
        self.by_name.len() == 0
    }

    /// The name and the code at this place.
    pub fn at(&self, place: usize) -> (&str, &Bytes)
        requires { place < length self.now }
        ensures value { slice_get self.now place ≡ Some (record { name = result.0.now; code = result.1.now }) }
        ensures is_code { IsCode result.1.now }
    {
        match self.by_name.get_index(place) {
            Some((name, code)) => (name.as_str(), code.bytes()),
            None => unreachable!(),
        }
    }
}
