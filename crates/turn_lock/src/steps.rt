//! The kinds of step, and what each tells its pass.
use crate::replays::Replays;
use crate::rule::View;
use atomic_table::{Join, Play, Split};
use std::marker::PhantomData;

/// The turn is taken, or was found held.
pub(crate) struct Take<S> {
    of: PhantomData<S>,
}

impl<S: Replays> Play<Option<S>, View<S::Opening, S::Entry>> for Take<S> {
    ghost use Rattle.turn_lock.specs.Steps.{Takes};

    ghost then = { Takes S.opening S.history S.maker };
}

/// The length of the history is published, with an entry more or without.
pub(crate) struct Publish<S> {
    of: PhantomData<S>,
}

impl<S: Replays> Play<Option<S>, View<S::Opening, S::Entry>> for Publish<S> {
    ghost use Rattle.turn_lock.specs.Steps.{Publishes};

    ghost then = { Publishes S.history S.maker };
}

/// The place goes home.
pub(crate) struct Release<S> {
    of: PhantomData<S>,
}

impl<S: Replays> Play<Option<S>, View<S::Opening, S::Entry>> for Release<S> {
    ghost use Rattle.turn_lock.specs.Steps.{Releases};

    ghost then = { Releases };
}

/// The published history is seen.
pub(crate) struct Look<S> {
    of: PhantomData<S>,
}

impl<S: Replays> Play<Option<S>, View<S::Opening, S::Entry>> for Look<S> {
    ghost use Rattle.turn_lock.specs.Steps.{Looks};

    ghost then = { Looks };
}

/// What both of two joined passes had seen is compared.
pub(crate) struct Compare<S> {
    of: PhantomData<S>,
}

impl<S: Replays> Play<Option<S>, View<S::Opening, S::Entry>> for Compare<S> {
    ghost use Rattle.turn_lock.specs.Steps.{Compares};

    ghost then = { Compares };
}

/// A second pass comes, which has seen the same.
pub(crate) struct Part;

impl<O, E> Split<View<O, E>> for Part {
    ghost use Rattle.turn_lock.specs.Rule.{newcomer};

    ghost left = { λ view. view };

    ghost right = { λ view. newcomer view.opening view.seen };
}

/// One pass ends, and the other has seen what both had.
pub(crate) struct Unite;

impl<O, E> Join<View<O, E>> for Unite {
    ghost use Rattle.turn_lock.specs.Rule.{stranger};
    ghost use Rattle.turn_lock.specs.Steps.{with_sight_of};

    ghost both = { with_sight_of };

    ghost spent = { stranger };
}
