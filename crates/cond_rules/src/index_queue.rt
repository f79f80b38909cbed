//! Indexes that wait, the least of which comes first.
ghost use Rattle.std.specs.Prelude.{◌≡◌, ◌+◌, ◌<◌, ◌≤◌, ◌==◌, ◌||◌, ℕ, [], length, IfSome, IfNone, OnOk, OnSome};
ghost use Rattle.cond_rules.specs.IndexQueue.{holds, IsLeast};

use coin_facts::OutOfMemory;
use std::alloc::Global;
use std::cmp::Reverse;
use std::collections::BinaryHeap;
use std::marker::Model;

/// Indexes, in no order, of which the least is at hand.
#[derive(Debug, Drop)]
pub(crate) struct IndexQueue {
    heap: BinaryHeap<Reverse<usize>>,
}

impl Model for IndexQueue {
    ghost use Rattle.cond_rules.specs.IndexQueue.{IndexQueue as Seen};

    ghost Value = { Seen };

    ghost use Rattle.cond_rules.specs.IndexQueueInside.{seen, IsInOrder};

    ghost view = { seen };

    ghost invariant = { IsInOrder };
}

impl IndexQueue {
    /// No index.
    pub(crate) fn new(alloc: Global) -> IndexQueue
        ensures { result.indexes ≡ [] }
    {
        IndexQueue {
            heap: BinaryHeap::new(alloc),
        }
    }

    /// Makes room for so many more indexes.
    pub(crate) fn reserve(&mut self, additional: usize) -> Result<(), OutOfMemory>
        ensures ok { OnOk result (additional ≤ self.new.room) }
        ensures same { self.new.indexes ≡ self.old.indexes }
    {
        self.heap.reserve(additional)?;
        Ok(())
    }

    /// Takes in an index.
    pub(crate) fn push(&mut self, index: usize)
        requires { 0 < self.old.room }
        ensures held { (i : ℕ) → holds self.new.indexes i ≡ ((index == i) || holds self.old.indexes i) }
        ensures room { self.old.room ≤ self.new.room + 1 }
    {
        self.heap.push(Reverse(index)).unwrap();
    }

    /// The least index.
    pub(crate) fn first(&self) -> Option<usize>
        ensures least { IfSome result (IsLeast self.now.indexes) }
        ensures none { IfNone result (self.now.indexes ≡ []) }
    {
        match self.heap.peek() {
            Some(Reverse(index)) => Some(*index),
            None => None,
        }
    }

    /// Takes out the least index, once where it is held more often.
    pub(crate) fn pop(&mut self) -> Option<usize>
        ensures least { IfSome result (IsLeast self.old.indexes) }
        ensures held { IfSome result (λ first. (i : ℕ) → holds self.old.indexes i ≡ ((first == i) || holds self.new.indexes i)) }
        ensures shrinks { OnSome result (length self.new.indexes < length self.old.indexes) }
        ensures none { IfNone result (self.old.indexes ≡ []) }
    {
        let Reverse(index) = self.heap.pop()?;
        Some(index)
    }
}
