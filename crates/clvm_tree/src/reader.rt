//! Reads a tree from its spelling.

ghost use Rattle.std.specs.Prelude.{◌≡◌, ◌≢◌, ◌+◌, ◌<◌, ◌≤◌, ◌^◌, length, None, IfOk, IfErr, OnOk, vec_len};
ghost use Rattle.clvm_spec.specs.Reading.{tree_of};
ghost use Rattle.clvm_spec.specs.Spelled.{most_spelled};
ghost use Rattle.clvm_spec.specs.Spelling.{Spells};
ghost use Rattle.clvm_tree.specs.Nodes.{tree_at, IsKnown, Grows};
ghost use Rattle.clvm_tree.specs.declared.ReadFault.TheVariants as read_fault;
ghost use Rattle.clvm_tree.specs.Reads.{IsReadAs, IsReadFault, IsWholeFault, AreOpen, Closes};

use crate::arena::Trees;
use crate::heads::{Piece, head};
use crate::{Node, OutOfMemory, ReadFault};
use std::alloc::Global;

impl Trees {
    // Makes the pairs that end with this tree, and answers it where no pair is open any more. Of each open pair the
    // first is there once it is read.
    fn close(
        &mut self,
        alloc: Global,
        begun: &mut Vec<Option<Node>>,
        tree: Node,
    ) -> Result<Option<Node>, OutOfMemory>
        requires known { IsKnown self.old tree.0 }
        requires begun { AreOpen self.old begun.old.items }
        requires fits { length self.old + vec_len begun.old < 2 ^ 31 }
        ensures grows { Grows self.old self.new }
        ensures count { length self.new + vec_len begun.new ≤ length self.old + vec_len begun.old }
        ensures closes { IfOk result (Closes self.old begun.old.items (tree_at self.old tree.0) self.new begun.new.items) }
    {
        let mut whole = tree;
        'pairs: while let Some(first) = begun.pop() {
            match first {
                Some(first) => whole = self.pair(alloc, first, whole)?,
                None => {
                    begun.push(Some(whole))?;
                    return Ok(None);
                }
            }
        }
        Ok(Some(whole))
    }

    /// Reads the spelled tree at the front, and answers how many bytes it has. Earlier nodes stand, whatever the
    /// answer; without memory there may be further nodes.
    pub fn read(&mut self, alloc: Global, bytes: &[u8]) -> Result<(Node, usize), ReadFault>
        requires short { length bytes.now ≤ most_spelled }
        requires fits { length self.old + length bytes.now < 2 ^ 31 }
        ensures grows { Grows self.old self.new }
        ensures few { length self.new ≤ length self.old + length bytes.now }
        ensures found { IfOk result (λ found. IsReadAs self.new bytes.now found.0.0 found.1) }
        ensures fault { IfErr result (IsReadFault bytes.now) }
    {
        let mut begun = Vec::new(alloc);
        let mut rest = bytes;
        'heads: loop {
            let place = bytes.len() - rest.len();
            match head(rest) {
                Piece::Open(after) => {
                    begun.push(None)?;
                    rest = after;
                }
                Piece::Leaf(atom, after) => {
                    let leaf = self.atom(alloc, atom)?;
                    match self.close(alloc, &mut begun, leaf)? {
                        Some(tree) => return Ok((tree, bytes.len() - after.len())),
                        None => rest = after,
                    }
                }
                Piece::Cut => return Err(ReadFault::Cut),
                Piece::LongSpelling => return Err(ReadFault::LongSpelling(place as u32)),
                Piece::BadPrefix => return Err(ReadFault::BadPrefix(place as u32)),
            }
        }
    }

    /// Reads the tree that bytes spell, all of them. Earlier nodes stand, whatever the answer; without memory there
    /// may be further nodes.
    pub fn read_whole(&mut self, alloc: Global, bytes: &[u8]) -> Result<Node, ReadFault>
        requires short { length bytes.now ≤ most_spelled }
        requires fits { length self.old + length bytes.now < 2 ^ 31 }
        ensures grows { Grows self.old self.new }
        ensures few { length self.new ≤ length self.old + length bytes.now }
        ensures known { IfOk result (λ node. IsKnown self.new node.0) }
        ensures found { IfOk result (λ node. tree_of bytes.now ≡ Some (tree_at self.new node.0)) }
        ensures spelled { IfOk result (λ node. Spells (tree_at self.new node.0) bytes.now) }
        ensures fault { IfErr result (IsWholeFault bytes.now) }
        ensures none { IfErr result (λ fault. fault ≢ read_fault.OutOfMemory → tree_of bytes.now ≡ None) }
    {
        let (tree, count) = self.read(alloc, bytes)?;
        if count < bytes.len() {
            return Err(ReadFault::Left(count as u32));
        }
        Ok(tree)
    }
}
