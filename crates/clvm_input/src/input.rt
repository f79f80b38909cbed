//! One spelled tree as hexadecimal.
ghost use Rattle.std.specs.Prelude.{◌≡◌, ◌+◌, ◌<◌, ◌≤◌, ◌^◌, Some, length};
ghost use Rattle.clvm_spec.specs.declared.limits.TheConstants.{MOST_SPELLED};
ghost use Rattle.clvm_tree.specs.Nodes.{Grows};
ghost use Rattle.clvm_input.specs.Inputs.{clvm_input, tree_of_bytes};
ghost use Rattle.clvm_input.specs.Answers.{IsInput, fault_of};

use crate::text::{bytes_of, trimmed};
use crate::{Fault, InputFault};
use clvm_tree::{Node, ReadFault, Trees};
use std::alloc::Global;

/// Reads the tree of an input, or tells its first fault. Earlier nodes stand, whatever the answer. The input's memory is
/// given back before any tree takes some.
pub fn read_input(alloc: Global, trees: &mut Trees, input: Vec<u8>) -> Result<Node, InputFault>
    requires short { length input.items ≤ MOST_SPELLED }
    requires fits { length trees.old + length input.items < 2 ^ 31 }
    ensures read { IsInput (clvm_input input.items) trees.new result }
    ensures grows { Grows trees.old trees.new }
    ensures few { length trees.new ≤ length trees.old + length input.items }
{
    let bytes = bytes_of(alloc, trimmed(&input))?;
    drop(input);
    read_bytes(alloc, trees, &bytes)
}

// Reads the tree that bytes spell.
fn read_bytes(alloc: Global, trees: &mut Trees, bytes: &[u8]) -> Result<Node, InputFault>
    requires short { length bytes.now ≤ MOST_SPELLED }
    requires fits { length trees.old + length bytes.now < 2 ^ 31 }
    ensures read { IsInput (tree_of_bytes (Some bytes.now)) trees.new result }
    ensures grows { Grows trees.old trees.new }
    ensures few { length trees.new ≤ length trees.old + length bytes.now }
{
    match trees.read_whole(alloc, bytes) {
        Ok(node) => Ok(node),
        Err(fault) => Err(fault_of(fault)),
    }
}

fn fault_of(fault: ReadFault) -> InputFault
    ensures { result ≡ fault_of fault }
{
    match fault {
        ReadFault::Cut => InputFault::Faulty(Fault::Cut),
        ReadFault::LongSpelling(place) => InputFault::Faulty(Fault::LongSpelling(place)),
        ReadFault::BadPrefix(place) => InputFault::Faulty(Fault::BadPrefix(place)),
        ReadFault::Left(place) => InputFault::Faulty(Fault::Left(place)),
        ReadFault::OutOfMemory => InputFault::OutOfMemory,
    }
}
