//! Writes the spelling of a tree.

ghost use Rattle.std.specs.Prelude.{◌≡◌, ◌+◌, ◌<◌, ◌≤◌, ◌^◌, ◌++◌, length, IfOk, IfErr, OnOk, vec_len};
ghost use Rattle.clvm_spec.specs.Spelled.{most_spelled};
ghost use Rattle.clvm_spec.specs.Spelling.{spelling, atom_spelling, prefix, IsPrefixed, HasSpelling};
ghost use Rattle.clvm_tree.specs.Nodes.{tree_at, IsKnown};
ghost use Rattle.clvm_tree.specs.Writes.{HasSpellingWithin, IsWriteFault};

use crate::arena::{Sight, Trees};
use crate::{Node, OutOfMemory, WriteFault};
use std::alloc::Global;

fn push_prefix(out: &mut Vec<u8>, size: usize) -> Result<(), OutOfMemory>
    requires { IsPrefixed size }
    ensures { OnOk result (out.new.items ≡ out.old.items ++ prefix size) }
{
    let low = (size % 256) as u8;
    let middle = (size / 0x100 % 256) as u8;
    let high = (size / 0x1_0000 % 256) as u8;
    if size < 0x40 {
        out.push(0x80 + size as u8)?;
    } else if size < 0x2000 {
        out.extend_from_slice(&[0xc0 + (size / 0x100) as u8, low])?;
    } else if size < 0x10_0000 {
        out.extend_from_slice(&[0xe0 + (size / 0x1_0000) as u8, middle, low])?;
    } else {
        out.extend_from_slice(&[0xf0 + (size / 0x100_0000) as u8, high, middle, low])?;
    }
    Ok(())
}

fn prefix_len(size: usize) -> usize
    ensures { result ≡ length (prefix size) }
{
    match size {
        0..=0x3f => 1,
        0x40..=0x1fff => 2,
        0x2000..=0xf_ffff => 3,
        _ => 4,
    }
}

fn push_atom(out: &mut Vec<u8>, bytes: &[u8], most: usize) -> Result<(), WriteFault>
    requires most { most ≤ most_spelled }
    requires within { vec_len out.old ≤ most }
    ensures ok { OnOk result (out.new.items ≡ out.old.items ++ atom_spelling bytes.now) }
    ensures within { OnOk result (vec_len out.new ≤ most) }
    ensures too_long { IfErr result (λ fault. fault ≡ WriteFault.TooLong → most < vec_len out.old + length (atom_spelling bytes.now)) }
{
    let bare = bytes.len() == 1 && bytes[0] < 0x80;
    let room = most - out.len();
    if bytes.len() > room || !bare && bytes.len() + prefix_len(bytes.len()) > room {
        return Err(WriteFault::TooLong);
    }
    if !bare {
        push_prefix(out, bytes.len())?;
    }
    out.extend_from_slice(bytes)?;
    Ok(())
}

impl Trees {
    /// The spelling of a tree, if it has one of at most `most` bytes.
    pub fn write(&self, alloc: Global, node: Node, most: usize) -> Result<Vec<u8>, WriteFault>
        requires known { IsKnown self.now node.0 }
        requires most { most ≤ most_spelled }
        ensures spelled { IfOk result (λ bytes. bytes.items ≡ spelling (tree_at self.now node.0)) }
        ensures within { OnOk result (HasSpellingWithin most (tree_at self.now node.0)) }
        ensures fault { IfErr result (IsWriteFault most (tree_at self.now node.0)) }
    {
        let mut out = Vec::new(alloc);
        let mut pending = Vec::new(alloc);
        pending.push(node)?;
        'nodes: while let Some(next) = pending.pop() {
            match self.look(next) {
                Sight::Bytes(bytes) => {
                    push_atom(&mut out, bytes, most)?;
                }
                Sight::Parts(first, rest) => {
                    if out.len() == most {
                        return Err(WriteFault::TooLong);
                    }
                    out.push(0xff)?;
                    pending.push(rest)?;
                    pending.push(first)?;
                }
            }
        }
        Ok(out)
    }
}
