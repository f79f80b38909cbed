//! The operators that programs use most, on operands as they mostly are. What isn't answered here is left to the table of
//! operators, which finds each fault.

ghost use Rattle.std.specs.Prelude.{◌≡◌, ℕ, pos, ◌+◌, ◌*◌, ◌<◌, ◌≤◌, ◌^◌, [], ◌∷◌, length, IfSome};
ghost use Rattle.std.specs.Bool.{OnTrue};
ghost use Rattle.clvm_spec.specs.declared.costs.TheConstants.{CHOICE_COST, NEW_PAIR_COST, FIRST_COST, REST_COST, PAIR_FLAG_COST, EQUAL_COST, SUM_COST, DIFFERENCE_COST, GREATER_COST, TERM_COST, TERM_BYTE_COST};
ghost use Rattle.clvm_spec.specs.Operators.{is_nil, free, flag, new_number, choice, new_pair, first_of, rest_of, pair_flag, equal_flag, sum_of, difference_of, greater_flag};
ghost use Rattle.clvm_spec.specs.OperatorTable.{applied};
ghost use Rattle.clvm_spec.specs.Numbers.{number};
ghost use Rattle.clvm_spec.specs.Spending.{Suffices};
ghost use Rattle.clvm_tree.specs.Nodes.{tree_at, IsKnown, AreKnown};
ghost use Rattle.clvm_tree.specs.Operators.{trees_at, outcome_by};
ghost use Rattle.clvm_eval.specs.Quick.{IsQuickOrNone, Quickly, IsNumber};

use crate::evaluate::is_nil;
use clvm_spec::{costs, number_length, op_codes};
use clvm_tree::{Answer, Fuel, Node, Trees, number};
use std::alloc::Global;

/// What the operator of this code gives, where that can be told at once and what is left of the fuel suffices.
pub(crate) fn quick(
    alloc: Global,
    trees: &mut Trees,
    code: Node,
    operands: &[Node],
    left: Fuel,
) -> Option<Answer>
    requires code_known { IsKnown trees.old code.0 }
    requires operands_known { AreKnown trees.old operands.now }
    requires fits { length trees.old + left.pairs + left.bytes < 2 ^ 31 }
    ensures { IsQuickOrNone trees.old trees.new (outcome_by (tree_at trees.old code.0) (trees_at trees.old operands.now) left) result }
{
    let code = trees.byte_of(code)?;
    quick_by(alloc, trees, code, operands, left)
}

#[tactic(auto, unfolding(clvm_spec::specs::OperatorTable::applied, clvm_spec::specs::OperatorTable::operator_of))]
fn quick_by(
    alloc: Global,
    trees: &mut Trees,
    code: u8,
    operands: &[Node],
    left: Fuel,
) -> Option<Answer>
    requires known { AreKnown trees.old operands.now }
    requires fits { length trees.old + left.pairs + left.bytes < 2 ^ 31 }
    ensures { Quickly trees.old trees.new left (applied (code ∷ []) (trees_at trees.old operands.now)) result }
{
    match code {
        op_codes::CHOICE => choice(trees, operands, left),
        op_codes::NEW_PAIR => new_pair(alloc, trees, operands, left),
        op_codes::FIRST => first_of(trees, operands, left),
        op_codes::REST => rest_of(trees, operands, left),
        op_codes::PAIR_FLAG => pair_flag(trees, operands, left),
        op_codes::EQUAL => equal_flag(trees, operands, left),
        op_codes::SUM => sum_of(alloc, trees, operands, left),
        op_codes::DIFFERENCE => difference_of(alloc, trees, operands, left),
        op_codes::GREATER => greater_flag(trees, operands, left),
        _ => None,
    }
}

// Whether what is left suffices.
fn suffices(left: Fuel, cost: u64, pairs: u64, bytes: u64) -> bool
    ensures { OnTrue result (Suffices left (record { cost = cost; pairs = pairs; bytes = bytes })) }
{
    cost <= left.cost && pairs <= left.pairs && bytes <= left.bytes
}

// A node that is there already.
fn free(trees: &Trees, value: Node, cost: u64, left: Fuel) -> Option<Answer>
    requires { IsKnown trees.now value.0 }
    ensures { Quickly trees.now trees.now left (free (tree_at trees.now value.0) cost) result }
{
    let _ = trees.nil();
    if !suffices(left, cost, 0, 0) {
        return None;
    }
    Some(Answer {
        value,
        cost,
        pairs: 0,
        bytes: 0,
    })
}

// The atom 01 or nil.
fn flag(trees: &Trees, holds: bool, cost: u64, left: Fuel) -> Option<Answer>
    ensures { Quickly trees.now trees.now left (free (flag holds) cost) result }
{
    if holds {
        free(trees, trees.one(), cost, left)
    } else {
        free(trees, trees.nil(), cost, left)
    }
}

fn choice(trees: &Trees, operands: &[Node], left: Fuel) -> Option<Answer>
    requires { AreKnown trees.now operands.now }
    ensures { Quickly trees.now trees.now left (choice CHOICE_COST (trees_at trees.now operands.now)) result }
{
    let [test, yes, no] = operands else {
        return None;
    };
    if is_nil(trees, *test) {
        free(trees, *no, costs::CHOICE_COST as u64, left)
    } else {
        free(trees, *yes, costs::CHOICE_COST as u64, left)
    }
}

fn new_pair(alloc: Global, trees: &mut Trees, operands: &[Node], left: Fuel) -> Option<Answer>
    requires known { AreKnown trees.old operands.now }
    requires fits { length trees.old + left.pairs + left.bytes < 2 ^ 31 }
    ensures { Quickly trees.old trees.new left (new_pair NEW_PAIR_COST (trees_at trees.old operands.now)) result }
{
    let [first, rest] = operands else {
        return None;
    };
    let cost = costs::NEW_PAIR_COST as u64;
    if !suffices(left, cost, 1, 0) {
        return None;
    }
    match trees.pair(alloc, *first, *rest) {
        Ok(value) => Some(Answer {
            value,
            cost,
            pairs: 1,
            bytes: 0,
        }),
        Err(_) => None,
    }
}

fn first_of(trees: &Trees, operands: &[Node], left: Fuel) -> Option<Answer>
    requires { AreKnown trees.now operands.now }
    ensures { Quickly trees.now trees.now left (first_of FIRST_COST (trees_at trees.now operands.now)) result }
{
    let [pair] = operands else {
        return None;
    };
    let (first, _) = trees.as_pair(*pair)?;
    free(trees, first, costs::FIRST_COST as u64, left)
}

fn rest_of(trees: &Trees, operands: &[Node], left: Fuel) -> Option<Answer>
    requires { AreKnown trees.now operands.now }
    ensures { Quickly trees.now trees.now left (rest_of REST_COST (trees_at trees.now operands.now)) result }
{
    let [pair] = operands else {
        return None;
    };
    let (_, rest) = trees.as_pair(*pair)?;
    free(trees, rest, costs::REST_COST as u64, left)
}

fn pair_flag(trees: &Trees, operands: &[Node], left: Fuel) -> Option<Answer>
    requires { AreKnown trees.now operands.now }
    ensures { Quickly trees.now trees.now left (pair_flag PAIR_FLAG_COST (trees_at trees.now operands.now)) result }
{
    let [operand] = operands else {
        return None;
    };
    match trees.as_pair(*operand) {
        Some(_) => flag(trees, true, costs::PAIR_FLAG_COST as u64, left),
        None => flag(trees, false, costs::PAIR_FLAG_COST as u64, left),
    }
}

/// A number that an operand is, with how many bytes it has.
#[derive(Clone, Copy, Debug)]
struct Number {
    value: i128,
    size: u64,
}

// The number that an atom of this one byte is.
#[inline(always)]
fn byte_number(byte: u8) -> i128
    ensures { result ≡ number (byte ∷ []) }
{
    if byte < 0x80 {
        byte as i128
    } else {
        byte as i128 - 0x100
    }
}

#[inline(always)]
fn number_of(trees: &Trees, operand: Node) -> Option<Number>
    requires { IsKnown trees.now operand.0 }
    ensures { IfSome result (λ n. IsNumber (tree_at trees.now operand.0) n.value n.size) }
{
    if let Some(byte) = trees.byte_of(operand) {
        return Some(Number {
            value: byte_number(byte),
            size: 1,
        });
    }
    let bytes = trees.bytes_of(operand)?;
    if bytes.len() > 16 {
        return None;
    }
    Some(Number {
        value: number(bytes),
        size: bytes.len() as u64,
    })
}

// The shortest atom of a number, each of whose bytes costs more.
#[inline(always)]
fn new_number(
    alloc: Global,
    trees: &mut Trees,
    number: i128,
    cost: u64,
    left: Fuel,
) -> Option<Answer>
    requires low { cost < 2 ^ 32 }
    requires fits { length trees.old + left.pairs + left.bytes < 2 ^ 31 }
    ensures { Quickly trees.old trees.new left (new_number cost number) result }
{
    if 0 < number && number < 0x80 {
        small_number(trees, number as u8, cost, left)
    } else {
        any_number(alloc, trees, number, cost, left)
    }
}

// A number whose atom is one byte, which is there already.
#[inline(always)]
fn small_number(trees: &Trees, number: u8, cost: u64, left: Fuel) -> Option<Answer>
    requires low { cost < 2 ^ 32 }
    requires some { 0 < number }
    requires small { number < 0x80 }
    ensures { Quickly trees.now trees.now left (new_number cost (pos number)) result }
{
    let cost = cost + costs::RESULT_BYTE_COST;
    let bytes = 1 + costs::ATOM_OVERHEAD;
    if !suffices(left, cost, 0, bytes) {
        return None;
    }
    Some(Answer {
        value: trees.byte(number),
        cost,
        pairs: 0,
        bytes,
    })
}

// Any number. What is passed lies in memory only here, and not in the loop that this is inlined into.
#[inline(always)]
fn any_number(
    alloc: Global,
    trees: &mut Trees,
    number: i128,
    cost: u64,
    left: Fuel,
) -> Option<Answer>
    requires low { cost < 2 ^ 32 }
    requires fits { length trees.old + left.pairs + left.bytes < 2 ^ 31 }
    ensures { Quickly trees.old trees.new left (new_number cost number) result }
{
    large_number(alloc, trees, number, cost, left)
}

#[inline(never)]
fn large_number(
    alloc: Global,
    trees: &mut Trees,
    number: i128,
    cost: u64,
    left: Fuel,
) -> Option<Answer>
    requires low { cost < 2 ^ 32 }
    requires fits { length trees.old + left.pairs + left.bytes < 2 ^ 31 }
    ensures { Quickly trees.old trees.new left (new_number cost number) result }
{
    let size = number_length(number) as u64;
    let cost = cost + costs::RESULT_BYTE_COST * size;
    let bytes = size + costs::ATOM_OVERHEAD;
    if !suffices(left, cost, 0, bytes) {
        return None;
    }
    match trees.put_number(alloc, number) {
        Ok(value) => Some(Answer {
            value,
            cost,
            pairs: 0,
            bytes,
        }),
        Err(_) => None,
    }
}

fn sum_of(alloc: Global, trees: &mut Trees, operands: &[Node], left: Fuel) -> Option<Answer>
    requires known { AreKnown trees.old operands.now }
    requires fits { length trees.old + left.pairs + left.bytes < 2 ^ 31 }
    ensures { Quickly trees.old trees.new left (sum_of SUM_COST (trees_at trees.old operands.now)) result }
{
    let [first, second] = operands else {
        return None;
    };
    let first = number_of(trees, *first)?;
    let second = number_of(trees, *second)?;
    let sum = first.value.checked_add(second.value)?;
    let cost = costs::SUM_COST as u64 + terms_cost(first.size + second.size);
    new_number(alloc, trees, sum, cost, left)
}

fn difference_of(alloc: Global, trees: &mut Trees, operands: &[Node], left: Fuel) -> Option<Answer>
    requires known { AreKnown trees.old operands.now }
    requires fits { length trees.old + left.pairs + left.bytes < 2 ^ 31 }
    ensures { Quickly trees.old trees.new left (difference_of DIFFERENCE_COST (trees_at trees.old operands.now)) result }
{
    let [first, second] = operands else {
        return None;
    };
    let first = number_of(trees, *first)?;
    let second = number_of(trees, *second)?;
    let difference = first.value.checked_sub(second.value)?;
    let cost = costs::DIFFERENCE_COST as u64 + terms_cost(first.size + second.size);
    new_number(alloc, trees, difference, cost, left)
}

// What two terms of so many bytes cost.
fn terms_cost(size: u64) -> u64
    requires { size ≤ 32 }
    ensures { result ≡ TERM_COST * 2 + TERM_BYTE_COST * size }
{
    costs::TERM_COST * 2 + costs::TERM_BYTE_COST * size
}

fn equal_flag(trees: &Trees, operands: &[Node], left: Fuel) -> Option<Answer>
    requires { AreKnown trees.now operands.now }
    ensures { Quickly trees.now trees.now left (equal_flag EQUAL_COST (trees_at trees.now operands.now)) result }
{
    let [first, second] = operands else {
        return None;
    };
    let first = trees.bytes_of(*first)?;
    let second = trees.bytes_of(*second)?;
    if first.len() > 16 || second.len() > 16 {
        return None;
    }
    let size = (first.len() + second.len()) as u64;
    let cost = costs::EQUAL_COST as u64 + costs::COMPARED_BYTE_COST * size;
    flag(trees, first == second, cost, left)
}

fn greater_flag(trees: &Trees, operands: &[Node], left: Fuel) -> Option<Answer>
    requires { AreKnown trees.now operands.now }
    ensures { Quickly trees.now trees.now left (greater_flag GREATER_COST (trees_at trees.now operands.now)) result }
{
    let [first, second] = operands else {
        return None;
    };
    let first = number_of(trees, *first)?;
    let second = number_of(trees, *second)?;
    let cost = costs::GREATER_COST as u64 + costs::GREATER_BYTE_COST * (first.size + second.size);
    flag(trees, first.value > second.value, cost, left)
}
