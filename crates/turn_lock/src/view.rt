//! What a pass knows. No value of these types is made: they are what contracts see of a pass.
use std::collections::LinkedList;
use std::marker::Model;

/// A part of a lock.
pub(crate) struct Part;

impl Model for Part {
    ghost use Rattle.turn_lock.specs.Parts.{Tree, Whole, tree_code};

    ghost Value = { Tree };

    ghost coded = { tree_code };

    ghost view = { λ _. Whole };
}

/// Where a pass stands with its turn.
pub(crate) enum Turn<E> {
    Outside,
    /// It has drawn this ticket.
    Waits(u64),
    /// Its ticket is being served, and it entered this list.
    Served(u64, LinkedList<E>),
    /// Between the two steps of a join: the lists that the two passes had seen, and the places that
    /// were their own.
    Joined(LinkedList<E>, LinkedList<E>, LinkedList<u64>, LinkedList<u64>),
}

/// What a pass knows of its lock.
pub(crate) struct View<E, S> {
    /// The list that it has seen.
    pub seen: LinkedList<E>,
    /// The places of the entries that its turns appended, or those of the passes that were joined
    /// into it, ascending.
    pub own: LinkedList<u64>,
    pub part: Part,
    /// The state that the lock was made with, for its label; `None` once it was joined into
    /// another.
    pub origin: Option<S>,
    pub turn: Turn<E>,
}
