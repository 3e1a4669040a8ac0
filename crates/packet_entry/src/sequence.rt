//! Lists that are taken from the front and added to at the end.

ghost use Rattle.std.specs.Prelude.{◌≡◌, ◌<◌, ◌↔◌, List, [], ◌∷◌, ◌++◌, length, OnOk, IfErr, OnErr};
ghost use Rattle.std.specs.Prelude.{IsSome, IsNone, IsTrue, slice_get, option_copied};
ghost use Rattle.std.specs.Prelude.{option_to_list};
ghost use Rattle.std.specs.Option.{option_copied_mut};

use std::alloc::Global;
use std::collections::{VecDeque, vec_deque};
use std::marker::Model;

/// A list of items of its own, taken from the front and added to at the end. It is made from a
/// `Vec` and gives it back without taking memory. Places count from 0.
#[derive(Debug, Drop)]
pub struct Sequence<T> {
    items: VecDeque<T>,
}

impl<T> Model for Sequence<T> {
    ghost use Rattle.std.specs.Prelude.{List};

    ghost Value = { List T };

    ghost view = { λ s. s.items.items };
}

impl<T> Sequence<T> {
    ghost use Rattle.std.specs.Borrow.{sem};
    ghost use Rattle.packet_entry.specs.SequenceLends.{lends_item};

    /// No items. Takes no memory.
    pub fn new(alloc: Global) -> Sequence<T>
        ensures { result ≡ [] }
    {
        Sequence {
            items: VecDeque::new(alloc),
        }
    }

    /// The items of the vector, which is taken over as it is. Takes no memory.
    pub fn from_vec(items: Vec<T>) -> Sequence<T>
        ensures { result ≡ items.items }
    {
        Sequence {
            items: VecDeque::from_vec(items),
        }
    }

    /// A vector of the items. Takes no memory.
    pub fn into_vec(self) -> Vec<T>
        ensures { result.items ≡ self }
    {
        self.items.into_vec()
    }

    /// How many items there are.
    pub fn len(&self) -> usize
        ensures { result ≡ length self.now }
    {
        self.items.len()
    }

    /// Whether there are no items.
    pub fn is_empty(&self) -> bool
        ensures { IsTrue result ↔ (self.now ≡ []) }
    {
        self.items.is_empty()
    }

    /// The items in their order, each lent.
    pub fn iter(&self) -> Iter<'_, T>
        ensures { result ≡ self.now }
    {
        Iter {
            rest: self.items.iter(),
        }
    }

    /// The item at a place; `None` past the end.
    pub fn get(&self, at: usize) -> Option<&T>
        ensures value { option_copied result ≡ slice_get self.now at }
        ensures found { IsSome result ↔ (at < length self.now) }
    {
        self.items.get(at)
    }

    /// The item at a place, to be changed; `None` past the end.
    pub fn get_mut(&mut self, at: usize) -> Option<&mut T>
        ensures* writes_back { sem 𝓛 (lends_item T.row self.entry at result) }
        ensures value { option_copied_mut result ≡ slice_get self.old at }
        ensures found { IsSome result ↔ (at < length self.old) }
    {
        self.items.get_mut(at)
    }

    /// Adds an item at the end. When memory runs out, the item comes back and nothing has changed.
    pub fn push(&mut self, item: T) -> Result<(), T>
        ensures ok { OnOk result (self.new ≡ self.old ++ item ∷ []) }
        ensures returned { IfErr result (λ back. back ≡ item) }
        ensures err { OnErr result (self.new ≡ self.old) }
    {
        match self.items.push_back(item) {
            Ok(()) => Ok(()),
            Err(failed) => Err(failed.value),
        }
    }

    /// Takes the first item out; `None` where there is none.
    pub fn take_first(&mut self) -> Option<T>
        ensures first { self.old ≡ option_to_list result ++ self.new }
        ensures empty { IsNone result ↔ (self.old ≡ []) }
    {
        self.items.pop_front()
    }
}

/// The items of a [`Sequence`], lent in their order. Contracts see it as the items still to come.
#[derive(Drop)]
pub struct Iter<'a, T> {
    rest: vec_deque::Iter<'a, T>,
}

impl<'a, T> Model for Iter<'a, T> {
    ghost use Rattle.std.specs.Prelude.{List};
    ghost use Rattle.std.specs.VecDeque.Iter.{deque_iter_rest};

    ghost Value = { List T };

    ghost view = { λ it. deque_iter_rest it.rest };
}

impl<'a, T> Iterator for Iter<'a, T> {
    ghost use Rattle.std.specs.Iterator.{YieldsFirstRef, item_count};

    type Item = &'a T;

    ghost next_gives = { YieldsFirstRef (λ rest. rest) };

    ghost remaining = { item_count (λ rest. rest) };

    fn next(&mut self) -> Option<&'a T> {
        self.rest.next()
    }
}

/// The items of a [`Sequence`], given up in their order. Contracts see it as the items still to
/// come.
#[derive(Drop)]
pub struct IntoIter<T> {
    rest: Sequence<T>,
}

impl<T> Model for IntoIter<T> {
    ghost use Rattle.std.specs.Prelude.{List};

    ghost Value = { List T };

    ghost view = { λ it. it.rest };
}

impl<T: Drop> Iterator for IntoIter<T> {
    ghost use Rattle.std.specs.Iterator.{YieldsFirst, item_count};

    type Item = T;

    ghost next_gives = { YieldsFirst (λ rest. rest) };

    ghost remaining = { item_count (λ rest. rest) };

    fn next(&mut self) -> Option<T> {
        self.rest.take_first()
    }
}

impl<'a, T> IntoIterator for &'a Sequence<T> {
    type Item = &'a T;

    type IntoIter = Iter<'a, T>;

    ghost into_iter_gives = { λ items it. it ≡ items.now };

    fn into_iter(self) -> Iter<'a, T> {
        self.iter()
    }
}

impl<T: Drop> IntoIterator for Sequence<T> {
    type Item = T;

    type IntoIter = IntoIter<T>;

    ghost into_iter_gives = { λ items it. it ≡ items };

    fn into_iter(self) -> IntoIter<T> {
        IntoIter { rest: self }
    }
}
