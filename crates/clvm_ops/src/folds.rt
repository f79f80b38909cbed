//! What is calculated of any count of numbers from the left.

ghost use Rattle.std.specs.Prelude.{◌≡◌, ℕ, ◌+◌, ◌<◌, ◌≤◌, ◌^◌, ℤ, ◌+ℤ◌, ◌-ℤ◌, ◌*ℤ◌, true, length};
ghost use Rattle.clvm_spec.specs.Tree.{bytes_of};
ghost use Rattle.clvm_spec.specs.Numbers.{number, shortest_atom, is_short};
ghost use Rattle.clvm_spec.specs.declared.limits.TheConstants.{NUMBER_BYTES};
ghost use Rattle.clvm_spec.specs.Outcomes.{Applied};
ghost use Rattle.clvm_spec.specs.Operators.{or_wide, new_number, from_left, factor_cost, factors_cost, terms_cost, joined, difference_of, product_of};
ghost use Rattle.clvm_tree.specs.Nodes.{tree_at, IsKnown, AreKnown};
ghost use Rattle.clvm_tree.specs.Operators.{trees_at};
ghost use Rattle.clvm_ops.specs.OperandAtoms.{atoms_at, AreNumbers, AreShort};
ghost use Rattle.clvm_ops.specs.Folds.{numbers_at, bitwise_of};

use crate::operands::bytes_of;
use clvm_spec::{costs, number_length};
use clvm_tree::{Node, Trees, number};

// The number of an operand that was read as one.
fn number_of(trees: &Trees, operand: Node) -> i128
    requires known { IsKnown trees.now operand.0 }
    requires short { is_short (bytes_of (tree_at trees.now operand.0)) ≡ true }
    ensures { result ≡ number (bytes_of (tree_at trees.now operand.0)) }
{
    number(bytes_of(trees, operand))
}

/// The number and the others in a sum, None where 128 bits don't hold it or a partial sum.
pub(crate) fn plus_others(trees: &Trees, first: i128, others: &[Node]) -> Option<i128>
    requires known { AreKnown trees.now others.now }
    requires short { AreShort trees.now others.now }
    ensures { (go : ℤ → Applied) → from_left ◌+ℤ◌ first (numbers_at trees.now others.now) go ≡ or_wide result go }
{
    let mut sum = first;
    for other in others {
        sum = sum.checked_add(number_of(trees, *other))?;
    }
    Some(sum)
}

/// The first less the others, 0 for none; None where 128 bits don't hold it or a partial difference.
pub(crate) fn difference(trees: &Trees, operands: &[Node]) -> Option<i128>
    requires known { AreKnown trees.now operands.now }
    requires short { AreShort trees.now operands.now }
    requires read { AreNumbers trees.now operands.now }
    ensures { (cost : ℕ) → difference_of cost (trees_at trees.now operands.now)
        ≡ or_wide result (new_number (cost + terms_cost (atoms_at trees.now operands.now))) }
{
    match operands {
        [] => Some(0),
        [first, others @ ..] => less_others(trees, number_of(trees, *first), others),
    }
}

// The number less the others, None where 128 bits don't hold it or a partial difference.
fn less_others(trees: &Trees, first: i128, others: &[Node]) -> Option<i128>
    requires known { AreKnown trees.now others.now }
    requires short { AreShort trees.now others.now }
    ensures { (go : ℤ → Applied) → from_left ◌-ℤ◌ first (numbers_at trees.now others.now) go ≡ or_wide result go }
{
    let mut difference = first;
    for other in others {
        difference = difference.checked_sub(number_of(trees, *other))?;
    }
    Some(difference)
}

/// A product and what it costs.
#[derive(Clone, Copy, Debug)]
pub(crate) struct Product {
    pub(crate) number: i128,
    pub(crate) cost: u64,
}

/// How bits are joined.
#[derive(Clone, Copy, Debug)]
pub(crate) enum BitStep {
    And,
    Or,
    Xor,
}

impl BitStep {
    /// Joins two numbers bit by bit.
    fn join(self, a: i128, b: i128) -> i128
        ensures { result ≡ (bitwise_of self).step a b }
    {
        match self {
            BitStep::And => a & b,
            BitStep::Or => a | b,
            BitStep::Xor => a ^ b,
        }
    }

    /// What no numbers give.
    fn none(self) -> i128
        ensures { result ≡ (bitwise_of self).none }
    {
        match self {
            BitStep::And => -1,
            BitStep::Or => 0,
            BitStep::Xor => 0,
        }
    }

    /// The bits of all operands, joined.
    pub(crate) fn of_all(self, trees: &Trees, operands: &[Node]) -> i128
        requires known { AreKnown trees.now operands.now }
        requires short { AreShort trees.now operands.now }
        ensures { result ≡ joined (bitwise_of self) (numbers_at trees.now operands.now) }
    {
        let mut bits = self.none();
        for operand in operands {
            bits = self.join(bits, number_of(trees, *operand));
        }
        bits
    }
}

// What a factor costs, beside a product of that size.
fn factor_cost(size: usize, other: usize) -> u64
    requires size { size ≤ NUMBER_BYTES }
    requires other { other ≤ NUMBER_BYTES }
    ensures cost { result ≡ factor_cost size other }
    ensures few { result ≤ 2000 }
{
    let lengths = (size * other) as u64 / costs::FACTOR_LENGTHS_DIVISOR;
    costs::FACTOR_COST + costs::FACTOR_BYTE_COST * (size + other) as u64 + lengths
}

// The number times the others, None where 128 bits don't hold it or a partial product. Each factor costs by its length and
// that of the product so far.
fn times_others(
    trees: &Trees,
    first: i128,
    size: usize,
    others: &[Node],
    cost: u32,
) -> Option<Product>
    requires size { size ≤ NUMBER_BYTES }
    requires few { length others.now < 2 ^ 31 }
    requires known { AreKnown trees.now others.now }
    requires short { AreShort trees.now others.now }
    ensures { from_left ◌*ℤ◌ first (numbers_at trees.now others.now) (new_number (cost + factors_cost size first (atoms_at trees.now others.now)))
        ≡ or_wide result (λ product. new_number product.cost product.number) }
{
    let mut number = first;
    let mut size = size;
    let mut cost = cost as u64;
    for other in others {
        cost += factor_cost(size, bytes_of(trees, *other).len());
        number = number.checked_mul(number_of(trees, *other))?;
        size = number_length(number);
    }
    Some(Product { number, cost })
}

/// The product, 1 for none, and its cost; None where 128 bits don't hold it or a partial product.
pub(crate) fn whole_product(trees: &Trees, operands: &[Node], cost: u32) -> Option<Product>
    requires few { length operands.now < 2 ^ 31 }
    requires known { AreKnown trees.now operands.now }
    requires short { AreShort trees.now operands.now }
    requires read { AreNumbers trees.now operands.now }
    ensures { product_of cost (trees_at trees.now operands.now) ≡ or_wide result (λ product. new_number product.cost product.number) }
{
    match operands {
        [] => Some(Product {
            number: 1,
            cost: cost as u64,
        }),
        [first, others @ ..] => {
            let bytes = bytes_of(trees, *first);
            times_others(trees, number(bytes), bytes.len(), others, cost)
        }
    }
}
