//! The hashes that are kept while they are needed.

ghost use Rattle.std.specs.Prelude.{◌≡◌, ℕ, ◌<◌, None, Some, length, IfOk, OnOk};
ghost use Rattle.clvm_tree.specs.Kept.{kept_at, Keeps};

use crate::hasher::Hash;
use crate::{Node, OutOfMemory};
use slab::Slab;
use std::alloc::Global;

/// The hash of a node.
#[derive(Clone, Copy)]
pub(crate) struct Slot {
    pub(crate) node: Node,
    pub(crate) hash: Hash,
}

/// Hashes of some nodes. Those that were removed leave their room to others.
#[derive(Drop)]
pub(crate) struct Kept {
    slots: Vec<u32>,
    hashes: Slab<Slot>,
}

impl Kept {
    /// None yet, of so many nodes.
    pub(crate) fn new(alloc: Global, count: usize) -> Result<Kept, OutOfMemory>
        ensures long { IfOk result (λ kept. length kept.slots.items ≡ count) }
        ensures none { IfOk result (λ kept. (node : ℕ) → kept_at kept node ≡ None) }
    {
        Ok(Kept {
            slots: vec![in alloc; 0; count]?,
            hashes: Slab::new(alloc),
        })
    }

    /// The node's hash, if it is kept.
    pub(crate) fn get(&self, node: Node) -> Option<Hash>
        requires { node.0 < length self.now.slots.items }
        ensures { result ≡ kept_at self.now node.0 }
    {
        let slot = self.hashes.get(self.slots[node.0 as usize] as usize)?;
        if slot.node.0 == node.0 {
            Some(slot.hash)
        } else {
            None
        }
    }

    /// Keeps the node's hash. There is no room for more hashes than 32 bits count.
    pub(crate) fn put(&mut self, node: Node, hash: Hash) -> Result<(), OutOfMemory>
        requires { node.0 < length self.old.slots.items }
        ensures { OnOk result (Keeps self.old self.new node.0 (Some hash)) }
    {
        let key = self.hashes.insert(Slot { node, hash })?;
        self.slots[node.0 as usize] = u32::try_from(key).map_err(|_| OutOfMemory)?;
        Ok(())
    }

    /// Lets the node's hash go, if it is kept.
    pub(crate) fn remove(&mut self, node: Node)
        requires { node.0 < length self.old.slots.items }
        ensures { Keeps self.old self.new node.0 None }
    {
        if self.get(node).is_some() {
            self.hashes.try_remove(self.slots[node.0 as usize] as usize);
        }
    }
}
