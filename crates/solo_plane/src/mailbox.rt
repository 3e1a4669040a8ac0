//! The mailbox of a port.

ghost use Rattle.std.specs.Prelude.{◌≡◌, ◌<◌, ◌≤◌, ◌+◌, ◌++◌, ◌∷◌, [], ◌↔◌, length, IsNone, OnOk};
ghost use Rattle.std.specs.Prelude.{option_to_list};

use packet_entry::{Letter, NoMemory};
use std::alloc::Global;
use std::collections::VecDeque;
use std::marker::Model;

/// The notices that a port hasn't received, oldest first, and the room for more of them.
#[derive(Drop)]
pub(crate) struct Mailbox {
    letters: VecDeque<Letter>,
}

impl Model for Mailbox {
    ghost use Rattle.std.specs.Prelude.{◌-◌};
    ghost use Rattle.std.specs.VecDeque.{deque_len, deque_capacity};
    ghost use Rattle.packet_entry.specs.declared.letter.Letter.{Letter};
    ghost use Rattle.packet_entry.specs.ListWithRoom.{ListWithRoom};

    ghost Value = { ListWithRoom Letter };

    ghost view = { λ m. record {
      items = m.letters.items;
      room = deque_capacity m.letters - deque_len m.letters;
    } };
}

impl Mailbox {
    /// No notices. Takes no memory.
    pub(crate) fn new(alloc: Global) -> Mailbox
        ensures { result.items ≡ [] }
    {
        Mailbox {
            letters: VecDeque::new(alloc),
        }
    }

    /// How many notices there are.
    pub(crate) fn len(&self) -> usize
        ensures { result ≡ length self.now.items }
    {
        self.letters.len()
    }

    /// Makes room for one notice more.
    pub(crate) fn make_room(&mut self) -> Result<(), NoMemory>
        ensures items { self.new.items ≡ self.old.items }
        ensures ok { OnOk result (0 < self.new.room) }
    {
        Ok(self.letters.reserve(1)?)
    }

    /// Adds a notice at the end, for which there is room. Takes no memory.
    pub(crate) fn put(&mut self, letter: Letter)
        requires { 0 < self.old.room }
        ensures items { self.new.items ≡ self.old.items ++ letter ∷ [] }
        ensures room { self.new.room + 1 ≡ self.old.room }
    {
        self.letters.push_back_reserved(letter);
    }

    /// Takes the first notice out; `None` exactly where there is none.
    pub(crate) fn take(&mut self) -> Option<Letter>
        ensures first { self.old.items ≡ option_to_list result ++ self.new.items }
        ensures empty { IsNone result ↔ (self.old.items ≡ []) }
    {
        self.letters.pop_front()
    }
}
