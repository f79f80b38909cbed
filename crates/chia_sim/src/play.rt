ghost use Rattle.std.specs.Prelude.{◌≡◌, ◌+◌, ◌<◌, ◌^◌, ◌++◌, [], true, map, length, IfOk, OnOk};
ghost use Rattle.pool_spec.specs.Payment.{is_payment};
ghost use Rattle.pool_spec.specs.Step.{Admit, LookUp, reply_to};
ghost use Rattle.pool_spec.specs.History.{Answers, IsLegal};
ghost use Rattle.chia_sim.specs.Replies.{reply_of, entry_of};
ghost use Rattle.chia_sim.specs.Looks.{looks};
ghost use Rattle.chia_sim.specs.Opening.{session_of_opening, IsReady};

use crate::opening::Opening;
use crate::reply::Reply;
use crate::report::Entry;
use block_form::Bundle;
use coin_facts::{Hash32, OutOfMemory};
use pool_core::{AdmitFault, Admitted, Pool};
use std::alloc::Global;

/// Plays the commands of a session one after another: the history.
pub(crate) fn play(alloc: Global, opening: Opening) -> Result<Vec<Entry>, OutOfMemory>
    requires { IsReady opening }
    ensures { IfOk result (λ history. IsLegal (session_of_opening opening) (map entry_of history.items)) }
{
    let Opening {
        mut pool,
        bundle,
        asked,
    } = opening;
    let reply = admit(&mut pool, alloc, bundle);
    let mut history = Vec::new(alloc);
    history.push(Entry {
        lane: 0,
        number: 0,
        reply,
    })?;
    look_up_all(&pool, asked.as_slice(), &mut history)?;
    Ok(history)
}

fn admit(pool: &mut Pool, alloc: Global, bundle: Bundle) -> Reply
    requires payment { is_payment pool.old.chain bundle ≡ true }
    requires empty { pool.old.bundles ≡ [] }
    ensures { Answers pool.old (Admit bundle) (reply_of result) pool.new }
{
    match pool.admit(alloc, bundle) {
        Ok(
            Admitted {
                id,
                fee,
                cost,
                replaced,
            },
        ) => Reply::Admitted {
            id,
            fee,
            cost,
            replaced,
        },
        Err(AdmitFault::Refused { rule, place }) => Reply::Refused { rule, place },
        Err(AdmitFault::OutOfMemory) => Reply::Memory,
    }
}

fn look_up(pool: &Pool, id: &Hash32) -> Reply
    ensures { reply_of result ≡ reply_to pool.now (LookUp id.now) }
{
    match pool.store().look_up(id) {
        Some(found) => Reply::Coin(*found),
        None => Reply::NoCoin,
    }
}

// The looks, which have the numbers from 1 on.
fn look_up_all(pool: &Pool, asked: &[Hash32], history: &mut Vec<Entry>) -> Result<(), OutOfMemory>
    requires few { length asked.now < 2 ^ 32 }
    ensures { OnOk result (map entry_of history.new.items ≡ map entry_of history.old.items ++ looks pool.now 1 asked.now) }
{
    for (place, id) in asked.iter().enumerate() {
        history.push(Entry {
            lane: 0,
            number: place as u32 + 1,
            reply: look_up(pool, id),
        })?;
    }
    Ok(())
}
