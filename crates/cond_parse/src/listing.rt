//! The list of conditions.

ghost use Rattle.std.specs.Prelude.{◌≡◌, [], ◌∷◌, IfOk, IfErr};
ghost use Rattle.cond_spec.specs.ConditionTable.{row_of_atom};
ghost use Rattle.cond_spec.specs.Conditions.{by_row, condition_of, Lists, conditions_of};
ghost use Rattle.cond_parse.specs.Faults.{IsReading, IsReadingAt, IsFirstFault};
ghost use Rattle.clvm_tree.specs.Nodes.{tree_at, IsKnown};

use crate::CondFault;
use crate::fault::Flaw;
use crate::operands::{hash_and_amount, key_and_text, one_amount, one_hash, one_moment, one_text};
use crate::parts::{message_from, message_to};
use case_table::by_condition;
use clvm_tree::{Node, Trees};
use cond_spec::Condition;
use small_lists::ShortList;
use std::alloc::Global;

/// A list of conditions, of which there are fewer than 2^32.
pub type Conditions = ShortList<Condition>;

/// The conditions that a value lists, from the first. `Malformed` and `Unknown` come exactly where one is, with the place
/// of the first such. Source: Chia documentation of conditions.
pub fn conditions(alloc: Global, trees: &Trees, value: Node) -> Result<Conditions, CondFault>
    requires { IsKnown trees.now value.0 }
    ensures ok { IfOk result (λ list. conditions_of (tree_at trees.now value.0) ≡ Lists list) }
    ensures err { IfErr result (λ fault. IsFirstFault (conditions_of (tree_at trees.now value.0)) fault) }
{
    let mut list = Conditions::new(alloc);
    let mut place = 0;
    let mut node = value;
    while let Some((first, rest)) = trees.as_pair(node) {
        let condition = condition_at(alloc, trees, place, first)?;
        list.push(alloc, condition)?;
        place += 1;
        node = rest;
    }
    if trees.is_nil(node) {
        Ok(list)
    } else {
        Err(CondFault::Malformed(place))
    }
}

// The condition of a node, or its flaw with its place.
fn condition_at(
    alloc: Global,
    trees: &Trees,
    place: u32,
    node: Node,
) -> Result<Condition, CondFault>
    requires { IsKnown trees.now node.0 }
    ensures { IsReadingAt place (condition_of (tree_at trees.now node.0)) result }
{
    match condition(alloc, trees, node) {
        Ok(condition) => Ok(condition),
        Err(Flaw::Malformed) => Err(CondFault::Malformed(place)),
        Err(Flaw::Unknown) => Err(CondFault::Unknown(place)),
        Err(Flaw::OutOfMemory) => Err(CondFault::OutOfMemory),
    }
}

fn condition(alloc: Global, trees: &Trees, node: Node) -> Result<Condition, Flaw>
    requires { IsKnown trees.now node.0 }
    ensures { IsReading (condition_of (tree_at trees.now node.0)) result }
{
    let Some((code, operands)) = trees.as_pair(node) else {
        return Err(Flaw::Malformed);
    };
    let Some(code) = trees.bytes_of(code) else {
        return Err(Flaw::Malformed);
    };
    let [code] = code else {
        return Err(Flaw::Unknown);
    };
    condition_of_code(alloc, trees, *code, operands)
}

// How the operands of a kind are read into a variant.
macro_rules! read {
    (($alloc:expr, $trees:expr, $operands:expr) NO_OPERAND $variant:ident) => {
        Ok(Condition::$variant)
    };
    (($alloc:expr, $trees:expr, $operands:expr) KEY_AND_TEXT $variant:ident) => {{
        let (key, text) = key_and_text($alloc, $trees, $operands)?;
        Ok(Condition::$variant { key, text })
    }};
    (($alloc:expr, $trees:expr, $operands:expr) HASH_AND_AMOUNT $variant:ident) => {{
        let (puzzle_hash, amount) = hash_and_amount($trees, $operands)?;
        Ok(Condition::$variant {
            puzzle_hash,
            amount,
        })
    }};
    (($alloc:expr, $trees:expr, $operands:expr) AMOUNT $variant:ident) => {
        Ok(Condition::$variant(one_amount($trees, $operands)?))
    };
    (($alloc:expr, $trees:expr, $operands:expr) TEXT $variant:ident) => {
        Ok(Condition::$variant(one_text($alloc, $trees, $operands)?))
    };
    (($alloc:expr, $trees:expr, $operands:expr) HASH $variant:ident) => {
        Ok(Condition::$variant(one_hash($trees, $operands)?))
    };
    (($alloc:expr, $trees:expr, $operands:expr) MOMENT $variant:ident) => {
        Ok(Condition::$variant(one_moment($trees, $operands)?))
    };
    (($alloc:expr, $trees:expr, $operands:expr) MESSAGE_TO $variant:ident) => {{
        let (mode, text, receiver) = message_to($alloc, $trees, $operands)?;
        Ok(Condition::$variant {
            mode,
            text,
            receiver,
        })
    }};
    (($alloc:expr, $trees:expr, $operands:expr) MESSAGE_FROM $variant:ident) => {{
        let (mode, text, sender) = message_from($alloc, $trees, $operands)?;
        Ok(Condition::$variant { mode, text, sender })
    }};
}

fn condition_of_code(
    alloc: Global,
    trees: &Trees,
    code: u8,
    operands: Node,
) -> Result<Condition, Flaw>
    requires { IsKnown trees.now operands.0 }
    ensures { IsReading (by_row (tree_at trees.now operands.0) (row_of_atom (code ∷ []))) result }
{
    by_condition!(code, read(alloc, trees, operands), Err(Flaw::Unknown))
}
