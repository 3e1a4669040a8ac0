//! What waits at a queue, oldest first, and found by id.

ghost use Rattle.std.specs.Prelude.{◌≡◌, ◌++◌, ◌∷◌, [], ℕ, OnOk, IsTrue, MatchOption, None};
ghost use Rattle.std.specs.Map.{lookup, remove_entry};
ghost use Rattle.queue_core.specs.Ids.{is_id};
ghost use Rattle.queue_core.specs.Few.{IsPlace};

use crate::card_view::CardView;
use crate::indexed_list::IndexedList;
use packet_entry::NoMemory;
use std::alloc::Global;
use std::collections::VecDeque;
use std::marker::Model;

/// How many are looked through for an id: an index takes longer to keep.
const FEW: usize = 16;

/// A few packets that wait, oldest first, each under its id.
type Few<'a> = VecDeque<(u32, CardView<'a>)>;

/// What waits, oldest first, each under its id. The oldest and what is found under an id leave in
/// time that grows with the logarithm of how many wait.
#[derive(Debug, Drop)]
pub(crate) struct WaitingList<'a> {
    /// The oldest, without an index.
    few: Few<'a>,
    /// What came after those.
    many: IndexedList<'a>,
}

impl<'a> Model for WaitingList<'a> {
    ghost use Rattle.std.specs.Prelude.{ℕ, List, ◌++◌};
    ghost use Rattle.packet_entry.specs.declared.packet.Card.{Card};

    ghost Value = { List (ℕ × Card) };

    ghost view = { λ w. w.few.items ++ w.many };
}

impl<'a> WaitingList<'a> {
    /// Nothing waits.
    pub fn new(alloc: Global) -> WaitingList<'a>
        ensures { result ≡ [] }
    {
        WaitingList {
            few: VecDeque::new(alloc),
            many: IndexedList::new(alloc),
        }
    }

    /// One more waits, the youngest. No more than 2^64 ever come.
    pub fn push(&mut self, id: u32, card: CardView<'a>) -> Result<(), NoMemory>
        ensures { OnOk result (self.new ≡ self.old ++ (id, card.entry) ∷ []) }
    {
        if self.many.is_empty() && self.few.len() < FEW {
            match self.few.push_back((id, card)) {
                Ok(()) => Ok(()),
                Err(_) => Err(NoMemory),
            }
        } else {
            self.many.push(id, card)
        }
    }

    /// Takes out the oldest.
    pub fn pop_front(&mut self) -> Option<CardView<'a>>
        ensures { MatchOption result ((self.old ≡ []) × (self.new ≡ []))
            (λ card. (id : ℕ) × (self.old ≡ (id, card) ∷ self.new)) }
    {
        match self.few.pop_front() {
            Some((_, card)) => Some(card),
            None => self.many.pop_front(),
        }
    }

    /// Takes out the oldest under an id, if anything waits under it.
    pub fn take(&mut self, id: u32) -> Option<CardView<'a>>
        ensures found { result ≡ lookup (is_id id) self.old }
        ensures others { self.new ≡ remove_entry (is_id id) self.old }
    {
        if is_oldest(&self.few, id) {
            let Some((_, card)) = self.few.pop_front() else {
                unreachable!()
            };
            return Some(card);
        }
        match place_of(&self.few, id) {
            Some(place) => {
                let Some((_, card)) = self.few.remove(place) else {
                    unreachable!()
                };
                Some(card)
            }
            None => self.many.take(id),
        }
    }
}

/// Whether the oldest of all waits under the id, as it mostly does.
fn is_oldest(few: &Few<'_>, id: u32) -> bool
    ensures { IsTrue result → IsPlace few.now.items id 0 }
{
    match few.front() {
        Some(w) => w.0 == id,
        None => false,
    }
}

/// Where the oldest stands that waits under the id.
fn place_of(few: &Few<'_>, id: u32) -> Option<usize>
    ensures { MatchOption result (lookup (is_id id) few.now.items ≡ None)
        (IsPlace few.now.items id) }
{
    for place in 0..few.len() {
        if let Some(w) = few.get(place) {
            if w.0 == id {
                return Some(place);
            }
        }
    }
    None
}
