//! A list of fewer than 2^32 elements.

ghost use Rattle.std.specs.Prelude.{◌≡◌, ◌+◌, ◌<◌, ◌^◌, ◌↔◌, [], ◌∷◌, ◌++◌, length, IsTrue, OnOk, OnErr};

use crate::OutOfMemory;
use std::alloc::Global;
use std::marker::Model;

/// A list of fewer than 2^32 elements. Other crates give it a name for each element, as `type Ids = ShortList<Hash32>`.
#[derive(Debug, Drop)]
pub struct ShortList<T> {
    items: Vec<T>,
}

impl<T> Model for ShortList<T> {
    ghost use Rattle.std.specs.Prelude.{◌<◌, ◌^◌, List, length};

    ghost Value = { List T };

    ghost view = { λ list. list.items.items };

    ghost invariant = { λ list. length list.items.items < 2 ^ 32 };
}

impl<T> ShortList<T> {
    /// No element.
    pub fn new(alloc: Global) -> ShortList<T>
        ensures { result ≡ [] }
    {
        ShortList {
            items: Vec::new(alloc),
        }
    }

    /// The elements, lent.
    pub fn as_slice(&self) -> &[T]
        ensures value { result.now ≡ self.now }
        ensures few { length self.now < 2 ^ 32 }
    {
        self.items.as_slice()
    }

    /// Whether one more has room.
    pub fn has_room(&self) -> bool
        ensures { IsTrue result ↔ (length self.now + 1 < 2 ^ 32) }
    {
        self.items.len() < u32::MAX as usize
    }
}

impl<T: Drop> ShortList<T> {
    /// Adds an element at the end. Without memory nothing changes.
    pub fn push(&mut self, _alloc: Global, item: T) -> Result<(), OutOfMemory>
        requires { length self.old + 1 < 2 ^ 32 }
        ensures ok { OnOk result (self.new ≡ self.old ++ item ∷ []) }
        ensures out_of_memory { OnErr result (self.new ≡ self.old) }
    {
        self.items.push(item)?;
        Ok(())
    }
}
