//! Lists whose free room contracts see, for calls that promise to take no memory.

ghost use Rattle.std.specs.Prelude.{◌≡◌, ◌<◌, ◌≤◌, ◌↔◌, ◌+◌, ◌∷◌, ◌++◌, [], length, OnOk, OnErr};
ghost use Rattle.std.specs.Prelude.{IsOk, IsTrue};
ghost use Rattle.packet_entry.specs.ListWithRoom.{ListWithRoom};

use crate::{NoMemory, Sequence};
use std::alloc::Global;
use std::marker::Model;

/// A list that is added to at its end, and the room that it has: how many items more it takes
/// without memory. Who must not fail later makes room first.
#[derive(Debug, Drop)]
pub struct Stock<T> {
    items: Vec<T>,
}

impl<T> Model for Stock<T> {
    ghost use Rattle.std.specs.Prelude.{◌-◌, vec_capacity, vec_len};
    ghost use Rattle.packet_entry.specs.ListWithRoom.{ListWithRoom};

    ghost Value = { ListWithRoom T };

    ghost view = { λ s.
        record { items = s.items.items; room = vec_capacity s.items - vec_len s.items } };
}

impl<T> Stock<T> {
    /// No items and no room. Takes no memory.
    pub fn new(alloc: Global) -> Stock<T>
        ensures items { result.items ≡ [] }
        ensures room { result.room ≡ 0 }
    {
        Stock {
            items: Vec::new(alloc),
        }
    }

    /// Makes room for so many items more.
    pub fn make_room(&mut self, more: usize) -> Result<(), NoMemory>
        ensures items { self.new.items ≡ self.old.items }
        ensures ok { OnOk result (more ≤ self.new.room) }
        ensures err { OnErr result (self.new ≡ self.old) }
        ensures kept { self.old.room ≤ self.new.room }
        // Room that is there already is no matter of memory.
        ensures succeeds { more ≤ self.old.room → IsOk result }
    {
        Ok(self.items.reserve(more)?)
    }

    /// Adds an item at the end, for which there is room. Takes no memory.
    pub fn push(&mut self, item: T)
        requires { 0 < self.old.room }
        ensures items { self.new.items ≡ self.old.items ++ item ∷ [] }
        ensures room { self.new.room + 1 ≡ self.old.room }
    {
        self.items.push_reserved(item);
    }

    /// How many items there are.
    pub fn len(&self) -> usize
        ensures { result ≡ length self.now.items }
    {
        self.items.len()
    }

    /// Whether there are no items.
    pub fn is_empty(&self) -> bool
        ensures { IsTrue result ↔ (self.now.items ≡ []) }
    {
        self.items.is_empty()
    }

    /// The items, where they lie.
    pub fn as_slice(&self) -> &[T]
        ensures { result.now ≡ self.now.items }
    {
        &self.items
    }

    /// The items as a list that is taken from the front. Takes no memory.
    pub fn into_sequence(self) -> Sequence<T>
        ensures { result ≡ self.items }
    {
        Sequence::from_vec(self.items)
    }
}
