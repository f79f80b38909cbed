ghost use Rattle.std.specs.Prelude.{◌≡◌, false, IfOk, MatchOption};
ghost use Rattle.std.specs.List.{list_all};
ghost use Rattle.clvm_tree.specs.Nodes.{tree_at, IsKnown};
ghost use Rattle.pool_core.specs.SpendPayments.{payment_at, is_paying, IsPayment, ArePayments};

use crate::conditions::{coins, is_code};
use block_form::Spend;
use clvm_tree::{Node, ReadFault, Trees};
use coin_facts::{Coin, Hash32, OutOfMemory};
use small_lists::ShortList;
use std::alloc::Global;

const QUOTE: u8 = 1;

/// What a spend's puzzle says: its tree hash, and the coins that it makes.
#[derive(Debug, Drop)]
pub(crate) struct Payment {
    pub(crate) puzzle_hash: Hash32,
    pub(crate) created: ShortList<Coin>,
}

// The payment of a puzzle that is read, None where it is none.
fn payment_at(
    alloc: Global,
    trees: &Trees,
    puzzle: Node,
    coin: &Coin,
) -> Result<Option<Payment>, OutOfMemory>
    requires { IsKnown trees.now puzzle.0 }
    ensures { IfOk result (λ found. found ≡ payment_at coin.now (tree_at trees.now puzzle.0)) }
{
    let Some((quote, value)) = trees.as_pair(puzzle) else {
        return Ok(None);
    };
    if !is_code(trees, quote, QUOTE) {
        return Ok(None);
    }
    let Some(created) = coins(alloc, trees, value, coin.id())? else {
        return Ok(None);
    };
    let puzzle_hash = Hash32 {
        bytes: trees.hash(alloc, puzzle)?,
    };
    Ok(Some(Payment {
        puzzle_hash,
        created,
    }))
}

// The payment of a spend, None where its puzzle pays nobody.
fn read_payment(alloc: Global, spend: &Spend) -> Result<Option<Payment>, OutOfMemory>
    ensures { IfOk result (IsPayment spend.now) }
{
    let mut trees = Trees::new(alloc);
    match trees.read_whole(alloc, spend.puzzle.as_slice()) {
        Ok(puzzle) => payment_at(alloc, &trees, puzzle, &spend.coin),
        Err(fault) => match fault {
            ReadFault::OutOfMemory => Err(OutOfMemory),
            _ => unreachable!(),
        },
    }
}

/// The payments of spends, None where a puzzle pays nobody.
pub(crate) fn payments(alloc: Global, spends: &[Spend]) -> Result<Option<Vec<Payment>>, OutOfMemory>
    ensures { IfOk result (λ found. MatchOption found (list_all is_paying spends.now ≡ false) (λ payments. ArePayments spends.now payments.items)) }
{
    let mut payments = Vec::with_capacity(alloc, spends.len())?;
    for spend in spends {
        let Some(payment) = read_payment(alloc, spend)? else {
            return Ok(None);
        };
        payments.push(payment)?;
    }
    Ok(Some(payments))
}
