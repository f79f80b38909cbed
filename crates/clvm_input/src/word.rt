//! A CLVM word: one spelled tree as hexadecimal, with no blank around it.
ghost use Rattle.std.specs.Prelude.{◌≡◌, ◌+◌, ◌<◌, ◌≤◌, ◌^◌, length, min, IfOk, IsTrue};
ghost use Rattle.clvm_spec.specs.declared.limits.TheConstants.{MOST_SPELLED};
ghost use Rattle.clvm_spec.specs.Spelled.{is_spelled, if_spelled, spelled_tree};
ghost use Rattle.clvm_tree.specs.Nodes.{tree_at, IsKnown, Grows};
ghost use Rattle.clvm_input.specs.Words.{word_of};

use crate::InputFault;
use crate::text::bytes_of;
use clvm_tree::{Node, OutOfMemory, ReadFault, Trees, is_spelled};
use std::alloc::Global;
use std::marker::Model;

/// The bytes of exactly one spelled tree, at most 67,108,864 of them.
#[derive(Debug, Drop)]
pub struct Word {
    bytes: Vec<u8>,
}

impl Model for Word {
    ghost use Rattle.std.specs.Prelude.{ℕ, List, IsTrue};
    ghost use Rattle.clvm_spec.specs.Spelled.{is_spelled};

    ghost Value = { List ℕ };

    ghost view = { λ word. word.bytes.items };

    ghost invariant = { λ word. IsTrue (is_spelled word.bytes.items) };
}

impl Word {
    /// The bytes, lent.
    pub fn as_slice(&self) -> &[u8]
        ensures value { result.now ≡ self.now }
        ensures spelled { IsTrue (is_spelled self.now) }
    {
        self.bytes.as_slice()
    }

    /// The tree that the word stands for, made among others, where there is room for as many nodes as the word has bytes.
    /// Earlier nodes stand, whatever the answer; without memory there may be further nodes.
    pub fn read(&self, alloc: Global, trees: &mut Trees) -> Result<Node, OutOfMemory>
        requires { length trees.old + min (length self.now) MOST_SPELLED < 2 ^ 31 }
        ensures grows { Grows trees.old trees.new }
        ensures few { length trees.new ≤ length trees.old + length self.now }
        ensures short { length self.now ≤ MOST_SPELLED }
        ensures known { IfOk result (λ node. IsKnown trees.new node.0) }
        ensures stands { IfOk result (λ node. tree_at trees.new node.0 ≡ spelled_tree self.now) }
    {
        match trees.read_whole(alloc, &self.bytes) {
            Ok(node) => Ok(node),
            Err(fault) => match fault {
                ReadFault::OutOfMemory => Err(OutOfMemory),
                _ => unreachable!(),
            },
        }
    }
}

/// The bytes that a CLVM word stands for, exactly where a text is one: hexadecimal in either case, after an optional
/// `0x`, of exactly one spelled tree.
pub fn read_word(alloc: Global, text: &[u8]) -> Result<Option<Word>, OutOfMemory>
    ensures { IfOk result (λ word. word ≡ word_of text.now) }
{
    match bytes_of(alloc, text) {
        Ok(bytes) => spelled_word(alloc, bytes),
        Err(InputFault::OutOfMemory) => Err(OutOfMemory),
        Err(_) => Ok(None),
    }
}

// The word of these bytes, where they are one spelled tree and not too many.
fn spelled_word(alloc: Global, bytes: Vec<u8>) -> Result<Option<Word>, OutOfMemory>
    ensures { IfOk result (λ word. word ≡ if_spelled bytes.items) }
{
    if is_spelled(alloc, &bytes)? {
        Ok(Some(Word { bytes }))
    } else {
        Ok(None)
    }
}
