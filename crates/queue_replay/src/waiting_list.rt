//! What waits at a queue, oldest first, and found by id.

ghost use Rattle.std.specs.Prelude.{◌≡◌, ◌++◌, ◌∷◌, [], length, drop, false};
ghost use Rattle.std.specs.Prelude.{OnOk, IfOk, MatchOption, option_copied};
ghost use Rattle.std.specs.Map.{lookup, remove_entry, keys_of};
ghost use Rattle.queue_core.specs.Ids.{is_id, is_among, fresh};
ghost use Rattle.queue_replay.specs.Waiting.{IsOldest};

use lru::{Iter, LruCache};
use packet_entry::{Card, NoMemory};
use queue_core::first_free_id;
use std::alloc::Global;
use std::marker::Model;

/// What waits, oldest first, each under an id of its own; fewer than 2^32 packets. On average the
/// time of a call doesn't grow with how many wait: ids are found by their hash, and a queue gives
/// them itself, one after the other, so that no journal picks them.
#[derive(Drop)]
pub(crate) struct WaitingList {
    /// Nothing is looked up by its use here, and nothing is evicted: what came first stands first.
    cards: LruCache<u32, Card>,
}

impl Model for WaitingList {
    ghost use Rattle.std.specs.Prelude.{◌≡◌, ◌<◌, ◌-◌, ◌^◌, ℕ, List, length};
    ghost use Rattle.packet_entry.specs.declared.packet.Card.{Card};

    ghost Value = { List (ℕ × Card) };

    ghost view = { λ w. w.cards.entries };

    ghost invariant = { λ w. (w.cards.cap ≡ 2 ^ 64 - 1) × (length w.cards.entries < 2 ^ 32) };
}

impl WaitingList {
    /// Nothing waits.
    pub(crate) fn new(alloc: Global) -> Result<WaitingList, NoMemory>
        ensures { IfOk result (λ waiting. waiting ≡ []) }
    {
        Ok(WaitingList {
            cards: LruCache::unbounded(alloc)?,
        })
    }

    /// How many packets wait.
    pub(crate) fn len(&self) -> u32
        ensures { result ≡ length self.now }
    {
        self.cards.len() as u32
    }

    /// Whether a packet waits under the id.
    pub(crate) fn contains(&self, id: u32) -> bool
        ensures { result ≡ is_among (keys_of self.now) id }
    {
        self.cards.contains(&id)
    }

    /// What waits under an id.
    pub(crate) fn get(&self, id: u32) -> Option<&Card>
        ensures { option_copied result ≡ lookup (is_id id) self.now }
    {
        self.cards.peek(&id)
    }

    /// What waits, oldest first.
    pub(crate) fn iter(&self) -> Iter<'_, u32, Card>
        ensures { result ≡ self.now }
    {
        self.cards.iter()
    }

    /// The id of the oldest.
    pub(crate) fn oldest(&self) -> Option<u32>
        ensures { MatchOption result (self.now ≡ []) (IsOldest self.now) }
    {
        match self.cards.peek_mru() {
            Some((id, _)) => Some(*id),
            None => None,
        }
    }

    /// One more waits, the youngest, under a free id. `NoMemory` comes also where 2^32 - 1 wait.
    pub(crate) fn push(&mut self, id: u32, card: Card) -> Result<(), NoMemory>
        requires free { is_among (keys_of self.old) id ≡ false }
        ensures { OnOk result (self.new ≡ self.old ++ (id, card) ∷ []) }
    {
        if self.len() == u32::MAX {
            return Err(NoMemory);
        }
        self.cards.put(id, card)?;
        self.cards.demote(&id);
        Ok(())
    }

    /// Takes out what waits under an id, if anything does.
    pub(crate) fn take(&mut self, id: u32) -> Option<Card>
        ensures found { result ≡ lookup (is_id id) self.old }
        ensures others { self.new ≡ remove_entry (is_id id) self.old }
    {
        self.cards.pop(&id)
    }

    /// Takes out the oldest, if anything waits.
    pub(crate) fn take_oldest(&mut self)
        ensures { self.new ≡ drop 1 self.old }
    {
        self.cards.pop_mru();
    }

    /// Nothing waits any more. Answers how many did.
    pub(crate) fn clear(&mut self) -> u32
        ensures count { result ≡ length self.old }
        ensures none { self.new ≡ [] }
    {
        let count = self.len();
        self.cards.clear();
        count
    }
}

/// The id that the next arrival gets, after this last one.
pub(crate) fn fresh_id(last: u32, waiting: &WaitingList) -> u32
    ensures next { result ≡ fresh last (keys_of waiting.now) }
    ensures free { is_among (keys_of waiting.now) result ≡ false }
{
    first_free_id();
    let mut id = last.wrapping_add(1);
    for _ in 0..waiting.len() {
        if !waiting.contains(id) {
            return id;
        }
        id = id.wrapping_add(1);
    }
    id
}
