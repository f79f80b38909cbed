//! How operands are read, from the first to the last.

ghost use Rattle.std.specs.Prelude.{◌≡◌, ℕ, ◌<◌, ◌^◌, true, List, length, IfOk, IfErr};
ghost use Rattle.clvm_spec.specs.Tree.{Atom, bytes_of};
ghost use Rattle.clvm_spec.specs.Numbers.{is_short};
ghost use Rattle.clvm_spec.specs.Outcomes.{Applied, Enough};
ghost use Rattle.clvm_spec.specs.Operators.{atom_at, number_at, atoms, numbers, two_atoms, two_numbers};
ghost use Rattle.clvm_tree.specs.Nodes.{tree_at, IsKnown, AreKnown};
ghost use Rattle.clvm_tree.specs.Operators.{trees_at, IsOpFault};
ghost use Rattle.clvm_ops.specs.OperandAtoms.{HaveAtoms, HaveNumbers};

use clvm_spec::limits::NUMBER_BYTES;
use clvm_tree::{Node, OpFault, Sight, Trees};

/// The bytes of an atom; a pair has none.
pub(crate) fn bytes_of(trees: &Trees, node: Node) -> &[u8]
    requires { IsKnown trees.now node.0 }
    ensures { result.now ≡ bytes_of (tree_at trees.now node.0) }
{
    match trees.look(node) {
        Sight::Bytes(bytes) => bytes,
        Sight::Parts(_, _) => &[],
    }
}

/// The bytes of the operand at this place, where an atom is needed.
pub(crate) fn atom_at(trees: &Trees, place: u32, operand: Node) -> Result<&[u8], OpFault>
    requires { IsKnown trees.now operand.0 }
    ensures ok { IfOk result (λ bytes. tree_at trees.now operand.0 ≡ Atom bytes.now) }
    ensures err { IfErr result (λ fault. (go : List ℕ → Applied) →
        IsOpFault trees.now (Enough (atom_at place (tree_at trees.now operand.0) go)) fault) }
{
    match trees.look(operand) {
        Sight::Bytes(bytes) => Ok(bytes),
        Sight::Parts(_, _) => Err(OpFault::Operand(place)),
    }
}

/// The same where a number is needed.
pub(crate) fn number_at(trees: &Trees, place: u32, operand: Node) -> Result<&[u8], OpFault>
    requires { IsKnown trees.now operand.0 }
    ensures ok { IfOk result (λ bytes. tree_at trees.now operand.0 ≡ Atom bytes.now) }
    ensures short { IfOk result (λ bytes. is_short bytes.now ≡ true) }
    ensures err { IfErr result (λ fault. (go : List ℕ → Applied) →
        IsOpFault trees.now (Enough (number_at place (tree_at trees.now operand.0) go)) fault) }
{
    let bytes = atom_at(trees, place, operand)?;
    if is_short(bytes) {
        Ok(bytes)
    } else {
        Err(OpFault::Wide)
    }
}

/// Whether an atom has no more bytes than a number.
pub(crate) fn is_short(bytes: &[u8]) -> bool
    ensures { result ≡ is_short bytes.now }
{
    bytes.len() <= NUMBER_BYTES
}

/// The bytes of two operands, where two atoms are needed.
pub(crate) fn two_atoms<'a>(
    trees: &'a Trees,
    operands: &[Node],
) -> Result<(&'a [u8], &'a [u8]), OpFault>
    requires { AreKnown trees.now operands.now }
    ensures ok { IfOk result (λ pair. (go : List ℕ → List ℕ → Applied) →
        two_atoms (trees_at trees.now operands.now) go ≡ go pair.0.now pair.1.now) }
    ensures err { IfErr result (λ fault. (go : List ℕ → List ℕ → Applied) →
        IsOpFault trees.now (Enough (two_atoms (trees_at trees.now operands.now) go)) fault) }
{
    let [first, second] = operands else {
        return Err(OpFault::Count);
    };
    let first = atom_at(trees, 0, *first)?;
    let second = atom_at(trees, 1, *second)?;
    Ok((first, second))
}

/// The same where two numbers are needed.
pub(crate) fn two_numbers<'a>(
    trees: &'a Trees,
    operands: &[Node],
) -> Result<(&'a [u8], &'a [u8]), OpFault>
    requires { AreKnown trees.now operands.now }
    ensures ok { IfOk result (λ pair. (go : List ℕ → List ℕ → Applied) →
        two_numbers (trees_at trees.now operands.now) go ≡ go pair.0.now pair.1.now) }
    ensures first_short { IfOk result (λ pair. is_short pair.0.now ≡ true) }
    ensures second_short { IfOk result (λ pair. is_short pair.1.now ≡ true) }
    ensures err { IfErr result (λ fault. (go : List ℕ → List ℕ → Applied) →
        IsOpFault trees.now (Enough (two_numbers (trees_at trees.now operands.now) go)) fault) }
{
    let [first, second] = operands else {
        return Err(OpFault::Count);
    };
    let first = number_at(trees, 0, *first)?;
    let second = number_at(trees, 1, *second)?;
    Ok((first, second))
}

/// How many bytes the operands have in all, where atoms are needed.
pub(crate) fn atoms(trees: &Trees, operands: &[Node]) -> Result<u128, OpFault>
    requires known { AreKnown trees.now operands.now }
    requires few { length operands.now < 2 ^ 31 }
    ensures ok { IfOk result (HaveAtoms trees.now operands.now) }
    ensures err { IfErr result (λ fault. (go : List (List ℕ) → Applied) →
        IsOpFault trees.now (Enough (atoms (trees_at trees.now operands.now) go)) fault) }
{
    let mut size = 0;
    for (place, operand) in operands.iter().enumerate() {
        size += atom_at(trees, place as u32, *operand)?.len() as u128;
    }
    Ok(size)
}

/// The same where numbers are needed.
pub(crate) fn numbers(trees: &Trees, operands: &[Node]) -> Result<u64, OpFault>
    requires known { AreKnown trees.now operands.now }
    requires few { length operands.now < 2 ^ 31 }
    ensures ok { IfOk result (HaveNumbers trees.now operands.now) }
    ensures err { IfErr result (λ fault. (go : List (List ℕ) → Applied) →
        IsOpFault trees.now (Enough (numbers (trees_at trees.now operands.now) go)) fault) }
{
    let mut size = 0;
    for (place, operand) in operands.iter().enumerate() {
        size += number_at(trees, place as u32, *operand)?.len() as u64;
    }
    Ok(size)
}
