//! Copies of forms, of one kind from another, with a stack in place of a recursion.

ghost use Rattle.std.specs.Prelude.{◌≡◌, ◌+◌, ◌<◌, IfOk};
ghost use Rattle.lisp_read.specs.Copies.{size, plugged, plug, turn_form, level_left, turn_left, left};
ghost use Rattle.lisp_read.specs.Forms.{Pair};
ghost use Rattle.lisp_read.specs.Sights.{sight_form};

use crate::{Built, OutOfMemory, Place, Seen, Sight};
use std::alloc::Global;

/// A pair of which one part is built: its rest waits, or its first is built already.
#[derive(Drop)]
enum Level<'a, S, T> {
    First(Place, &'a S),
    Rest(Place, T),
}

/// What is next: a form to be built, or one that is.
#[derive(Drop)]
enum Turn<'a, S, T> {
    Begins(&'a S),
    Ends(T),
}

// A pair begins with its first, and its rest waits.
#[tactic(auto, using(crate::proofs::CopyLaws::plug_push, crate::proofs::CopyLaws::left_push))]
fn enter<'a, S: Seen, T: Built<'a>>(
    levels: &mut Vec<Level<'a, S, T>>,
    place: Place,
    first: &'a S,
    rest: &'a S,
) -> Result<Turn<'a, S, T>, OutOfMemory>
    ensures same { IfOk result (λ turn. plug S.seen T.built levels.new.items (turn_form S.seen T.built turn) ≡ plug S.seen T.built levels.old.items (Pair place (S.seen first.now) (S.seen rest.now))) }
    ensures less { IfOk result (λ turn. left S.seen levels.new.items + turn_left S.seen turn < left S.seen levels.old.items + size (Pair place (S.seen first.now) (S.seen rest.now))) }
{
    levels.push(Level::First(place, rest))?;
    Ok(Turn::Begins(first))
}

// A leaf is built at once.
fn begin<'a, S: Seen, T: Built<'a>>(
    memory: T::Memory,
    levels: &mut Vec<Level<'a, S, T>>,
    sight: Sight<'a, S>,
) -> Result<Turn<'a, S, T>, OutOfMemory>
    ensures same { IfOk result (λ turn. plug S.seen T.built levels.new.items (turn_form S.seen T.built turn) ≡ plug S.seen T.built levels.old.items (sight_form S.seen sight.entry)) }
    ensures less { IfOk result (λ turn. left S.seen levels.new.items + turn_left S.seen turn < left S.seen levels.old.items + size (sight_form S.seen sight.entry)) }
{
    match sight {
        Sight::Atom(place, bytes) => Ok(Turn::Ends(T::atom(memory, place, bytes)?)),
        Sight::Symbol(place, name) => Ok(Turn::Ends(T::symbol(memory, place, name)?)),
        Sight::Pair(place, first, rest) => enter(levels, place, first, rest),
    }
}

// Behind a first its rest is next, and behind a rest the pair is whole.
#[tactic(auto, using(crate::proofs::CopyLaws::plug_push, crate::proofs::CopyLaws::left_push))]
fn go_on<'a, S: Seen, T: Built<'a>>(
    memory: T::Memory,
    levels: &mut Vec<Level<'a, S, T>>,
    level: Level<'a, S, T>,
    form: T,
) -> Result<Turn<'a, S, T>, OutOfMemory>
    ensures same { IfOk result (λ turn. plug S.seen T.built levels.new.items (turn_form S.seen T.built turn) ≡ plug S.seen T.built levels.old.items (plugged S.seen T.built level.entry (T.built form))) }
    ensures less { IfOk result (λ turn. left S.seen levels.new.items + turn_left S.seen turn < left S.seen levels.old.items + level_left S.seen level.entry) }
{
    match level {
        Level::First(place, rest) => {
            levels.push(Level::Rest(place, form))?;
            Ok(Turn::Begins(rest))
        }
        Level::Rest(place, first) => Ok(Turn::Ends(T::pair(memory, place, first, form)?)),
    }
}

/// The form that is seen, built in this memory, however deep it is.
pub fn copy<'a, S: Seen, T: Built<'a>>(
    alloc: Global,
    memory: T::Memory,
    form: &'a S,
) -> Result<T, OutOfMemory>
    ensures { IfOk result (λ copy. T.built copy ≡ S.seen form.now) }
{
    let mut levels = Vec::new(alloc);
    let mut turn = Turn::Begins(form);
    'turns: loop {
        match turn {
            Turn::Begins(form) => turn = begin(memory, &mut levels, form.look())?,
            Turn::Ends(form) => match levels.pop() {
                Some(level) => turn = go_on(memory, &mut levels, level, form)?,
                None => return Ok(form),
            },
        }
    }
}
