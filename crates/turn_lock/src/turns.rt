//! The lock's rule over its table, and what each kind of step tells.
ghost use Rattle.turn_lock.specs.Rule.{Kept};
ghost use Rattle.turn_lock.specs.Steps.{Draws, Looks, PassesOn, Peeks, Tells};
ghost use Rattle.turn_lock.specs.Views.{opening_view, spent_view, kept_view, split_view};
ghost use Rattle.turn_lock.specs.Views.{joining_view};

use crate::storied::Storied;
use crate::view::View;
use atomic_table::{Join, Play, Split, TableRule};
use std::marker::PhantomData;
use std::snapshot::Snapshot;

/// The word that counts the tickets drawn.
pub(crate) const TICKET: usize = 0;

/// The word with the ticket that is being served.
pub(crate) const SERVING: usize = 1;

/// The slot for the state.
pub(crate) const STATE: usize = 0;

/// A lock that is taken in turns. The key is the state that it was made with.
pub(crate) struct InTurn<S> {
    state: PhantomData<S>,
}

impl<S: Storied> TableRule<Option<S>, View<S::Entry, S>, Snapshot<S>> for InTurn<S> {
    ghost holds = { λ key. Kept S.entries S.label key.value };

    ghost first = { λ key. opening_view key.value };
}

/// A ticket is drawn.
pub(crate) struct Draw;

impl<E, S> Play<Option<S>, View<E, S>> for Draw {
    ghost then = { Draws };
}

/// A look at a word, which changes nothing.
pub(crate) struct Peek;

impl<E, S> Play<Option<S>, View<E, S>> for Peek {
    ghost then = { Peeks };
}

/// A look at the ticket that is being served, which takes the state if it is one's own.
pub(crate) struct Look<S> {
    state: PhantomData<S>,
}

impl<S: Storied> Play<Option<S>, View<S::Entry, S>> for Look<S> {
    ghost then = { Looks S.entries S.label };
}

/// The next ticket is served, and the state is given back.
pub(crate) struct PassOn<S> {
    state: PhantomData<S>,
}

impl<S: Storied> Play<Option<S>, View<S::Entry, S>> for PassOn<S> {
    ghost then = { PassesOn S.entries };
}

/// A pass is split in two.
pub(crate) struct Cut;

impl<E, S> Split<View<E, S>> for Cut {
    ghost left = { kept_view };

    ghost right = { split_view };
}

/// A pass is joined into another.
pub(crate) struct Both;

impl<E, S> Join<View<E, S>> for Both {
    ghost both = { joining_view };

    ghost spent = { spent_view };
}

/// A look behind a join, which tells what the two passes had in common.
pub(crate) struct Tell;

impl<E, S> Play<Option<S>, View<E, S>> for Tell {
    ghost then = { Tells };
}
