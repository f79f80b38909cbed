//! Paths as atoms.

ghost use Rattle.std.specs.Prelude.{◌≡◌, ℕ, ◌+◌, ◌<◌, ◌≤◌, ◌^◌, ◌∷◌, length, IfOk};
ghost use Rattle.clvm_tree.specs.Nodes.{Grows};
ghost use Rattle.lisp_spec.specs.Parameters.{ToFirst, ToRest};
ghost use Rattle.lisp_code.specs.Paths.{path_number, path_atom};
ghost use Rattle.lisp_code.specs.Pieces.{path_code};
ghost use Rattle.lisp_compile.specs.Pieces.{Makes};
ghost use Rattle.lisp_compile.specs.Sides.{path_in};

use crate::parameters::Side;
use clvm_tree::{Node, Trees};
use lisp_read::OutOfMemory;
use std::alloc::Global;

// The number of a short path, below 512.
fn number(sides: &[Side]) -> u16
    requires { length sides.now ≤ 8 }
    ensures { result ≡ path_number (path_in sides.now) }
{
    let mut number = 1;
    let mut at = sides.len();
    'sides: while at > 0 {
        at -= 1;
        number = match sides[at] {
            Side::First => 2 * number,
            Side::Rest => 2 * number + 1,
        };
    }
    number
}

// The bytes of a path's atom: each eight steps are a byte, the first steps the last one.
fn bytes_of(alloc: Global, sides: &[Side]) -> Result<Vec<u8>, OutOfMemory>
    ensures { IfOk result (λ bytes. bytes.items ≡ path_atom (path_in sides.now)) }
{
    let mut bytes = Vec::new(alloc);
    let mut rest = sides;
    'eights: while rest.len() >= 8 {
        let (eight, more) = rest.split_at(8);
        bytes.push((number(eight) % 256) as u8)?;
        rest = more;
    }
    bytes.push(number(rest) as u8)?;
    bytes.reverse();
    Ok(bytes)
}

/// The atom of a path.
pub(crate) fn path(alloc: Global, trees: &mut Trees, sides: &[Side]) -> Result<Node, OutOfMemory>
    requires { length trees.old + 1 < 2 ^ 31 }
    ensures grows { Grows trees.old trees.new }
    ensures ok { IfOk result (λ node. Makes trees.old trees.new node.0 (path_code (path_in sides.now)) 1) }
{
    let bytes = bytes_of(alloc, sides)?;
    trees.atom(alloc, bytes.as_slice())
}

/// The atom of the path to a parameter, which stands in the rest of the tree that code runs on.
pub(crate) fn parameter(
    alloc: Global,
    trees: &mut Trees,
    sides: &[Side],
) -> Result<Node, OutOfMemory>
    requires { length trees.old + 1 < 2 ^ 31 }
    ensures grows { Grows trees.old trees.new }
    ensures ok { IfOk result (λ node. Makes trees.old trees.new node.0 (path_code (ToRest ∷ path_in sides.now)) 1) }
{
    let mut whole = Vec::new(alloc);
    whole.push(Side::Rest)?;
    whole.extend_from_slice(sides)?;
    path(alloc, trees, whole.as_slice())
}

/// The atom of the path to a function's code, which stands at this place in the first of the tree that code runs on.
pub(crate) fn function(
    alloc: Global,
    trees: &mut Trees,
    place: &[Side],
) -> Result<Node, OutOfMemory>
    requires { length trees.old + 1 < 2 ^ 31 }
    ensures grows { Grows trees.old trees.new }
    ensures ok { IfOk result (λ node. Makes trees.old trees.new node.0 (path_code (ToFirst ∷ path_in place.now)) 1) }
{
    let mut whole = Vec::new(alloc);
    whole.push(Side::First)?;
    whole.extend_from_slice(place)?;
    path(alloc, trees, whole.as_slice())
}
