//! The session that an input says, as far as its form is built: one admission, and looks at coins.
ghost use Rattle.std.specs.Prelude.{◌≡◌, ◌≤◌, codes, map, length, option_and_then};
ghost use Rattle.std.specs.List.{prefix_len};
ghost use Rattle.serde_json.specs.View.{view};
ghost use Rattle.session_spec.specs.Steps.{all_of};
ghost use Rattle.session_spec.specs.FirstForm.{is_later, is_coin_line, is_command_line, has_defaults, one, header, coin_of, does, admitted_by, asked_by, default_limits, start_coins, with_commands, first_form_of_lines, first_form_of};
ghost use Rattle.chia_sim.specs.Reads.{Reads};
ghost use Rattle.chia_sim.specs.Opening.{Opens};

use crate::bundles::bundle;
use crate::form::FormFault;
use crate::lines::objects;
use crate::members::{coin, has, hash, whole};
use block_form::Bundle;
use coin_facts::{Hash32, Ids};
use coin_store::{StartFault, Store};
use judge_spec::limits::{DEFAULT_MAX_COST, DEFAULT_POOL_COST};
use pool_core::Pool;
use pool_spec::Limits;
use serde_json::Value;
use std::alloc::Global;

/// How many bytes a session has at most so far.
const MOST_SESSION: usize = 65_536;

/// What a session says: the pool that it opens with, the bundle that it admits, and the ids of the coins that it then
/// asks for.
#[derive(Debug, Drop)]
pub(crate) struct Opening {
    pub(crate) pool: Pool,
    pub(crate) bundle: Bundle,
    pub(crate) asked: Ids,
}

fn is_later(line: &Value) -> bool
    ensures { result ≡ is_later (view line.now) }
{
    !has(line, "session") && !has(line, "module") && !has(line, "singleton")
}

fn is_coin_line(line: &Value) -> bool
    ensures { result ≡ is_coin_line (view line.now) }
{
    is_later(line) && has(line, "coin")
}

fn is_command_line(line: &Value) -> bool
    ensures { result ≡ is_command_line (view line.now) }
{
    is_later(line) && !has(line, "coin") && has(line, "do")
}

// Whether no member stands for a default.
fn has_defaults(line: &Value) -> bool
    ensures { result ≡ has_defaults (view line.now) }
{
    !has(line, "lanes") && !has(line, "max_cost") && !has(line, "pool_cost") && !has(line, "reward")
}

fn one(value: &Value) -> Option<u64>
    ensures { result ≡ one (view value.now) }
{
    whole(value).filter(|n| *n == 1)
}

// The chain of the first line, which has no coin.
fn header(alloc: Global, line: &Value) -> Option<Store>
    ensures { result ≡ header (view line.now) }
{
    line.get("session").and_then(one)?;
    let genesis = line.get("genesis").and_then(hash)?;
    let seconds = line.get("seconds").and_then(whole)?;
    if has_defaults(line) {
        Some(Store::new(alloc, genesis, seconds))
    } else {
        None
    }
}

// How many coin lines stand first.
fn coin_count(lines: &[Value]) -> usize
    ensures value { result ≡ prefix_len (λ line. is_coin_line (view line)) lines.now }
    ensures within { result ≤ length lines.now }
{
    lines.iter().take_while(|line| is_coin_line(line)).count()
}

// The chain with a coin for each line.
fn with_coins(alloc: Global, mut store: Store, lines: &[Value]) -> Result<Store, FormFault>
    ensures { Reads (option_and_then (start_coins store) (all_of coin_of (map view lines.now))) result }
{
    for line in lines {
        let coin = line.get("coin").and_then(coin).ok_or(FormFault::Unbuilt)?;
        match store.start_coin(alloc, coin) {
            Ok(()) => {}
            Err(StartFault::Exists) => return Err(FormFault::Unbuilt),
            Err(StartFault::OutOfMemory) => return Err(FormFault::OutOfMemory),
        }
    }
    Ok(store)
}

// Whether a line is a command of this word, in no lane.
fn does(line: &Value, word: &str) -> bool
    ensures { result ≡ does word.now (view line.now) }
{
    is_command_line(line)
        && !has(line, "lane")
        && line.get("do").and_then(Value::as_str) == Some(word)
}

fn admitted_by(alloc: Global, line: &Value) -> Result<Bundle, FormFault>
    ensures { Reads (admitted_by (view line.now)) result }
{
    if !does(line, "admit") {
        return Err(FormFault::Unbuilt);
    }
    bundle(alloc, line.get("bundle").ok_or(FormFault::Unbuilt)?)
}

fn asked_by(line: &Value) -> Option<Hash32>
    ensures { result ≡ asked_by (view line.now) }
{
    if does(line, "coin") {
        line.get("id").and_then(hash)
    } else {
        None
    }
}

fn asked_ids(alloc: Global, lines: &[Value]) -> Result<Ids, FormFault>
    ensures { Reads (all_of asked_by (map view lines.now)) result }
{
    let mut ids = Ids::new(alloc);
    for line in lines {
        let id = asked_by(line).ok_or(FormFault::Unbuilt)?;
        if !ids.has_room() {
            return Err(FormFault::OutOfMemory);
        }
        ids.push(alloc, id)?;
    }
    Ok(ids)
}

fn default_limits() -> Limits
    ensures { result ≡ default_limits }
{
    Limits {
        max_cost: DEFAULT_MAX_COST,
        pool_cost: DEFAULT_POOL_COST,
        reward: 0,
        singleton: Hash32 { bytes: [0; 32] },
    }
}

// The session of a chain and of the lines of its commands.
fn with_commands(alloc: Global, store: Store, lines: &[Value]) -> Result<Opening, FormFault>
    ensures { Opens (with_commands store (map view lines.now)) result }
{
    let (first, others) = lines.split_first().ok_or(FormFault::Unbuilt)?;
    let bundle = admitted_by(alloc, first)?;
    let asked = asked_ids(alloc, others)?;
    let pool = Pool::new(alloc, store, default_limits());
    if pool.is_payment(alloc, &bundle)? {
        Ok(Opening {
            pool,
            bundle,
            asked,
        })
    } else {
        Err(FormFault::Unbuilt)
    }
}

fn of_lines(alloc: Global, lines: &[Value]) -> Result<Opening, FormFault>
    ensures { Opens (first_form_of_lines (map view lines.now)) result }
{
    let (first, others) = lines.split_first().ok_or(FormFault::Unbuilt)?;
    let store = header(alloc, first).ok_or(FormFault::Unbuilt)?;
    let (coins, commands) = others.split_at(coin_count(others));
    let store = with_coins(alloc, store, coins)?;
    with_commands(alloc, store, commands)
}

/// Opens the session that an input says. `Unbuilt` comes exactly where the input is no session of the form that is
/// built.
#[tactic(auto, unfolding(session_spec::specs::FirstForm::first_form_of))]
pub(crate) fn open(alloc: Global, input: &[u8]) -> Result<Opening, FormFault>
    ensures { Opens (first_form_of input.now) result }
{
    if input.len() > MOST_SESSION {
        return Err(FormFault::Unbuilt);
    }
    let lines = objects(alloc, input)?;
    of_lines(alloc, &lines)
}
