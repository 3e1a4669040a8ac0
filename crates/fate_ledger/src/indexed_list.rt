//! Many packets that wait at a queue, oldest first, and found by id.

ghost use Rattle.std.specs.Prelude.{◌≡◌, ◌++◌, ◌∷◌, ◌↔◌, ◌+◌, [], ℕ, OnOk, OnErr, IsTrue};
ghost use Rattle.std.specs.Prelude.{MatchOption, None};
ghost use Rattle.std.specs.Map.{lookup, remove_entry, values_of};
ghost use Rattle.queue_core.specs.Ids.{is_id};
ghost use Rattle.fate_ledger.specs.IndexedList.{IsIndexed, IsAhead, IsFirstPlace};
ghost use Rattle.fate_ledger.specs.IndexedList.{HasNoPlace, IsFirstFrom};

use crate::card_view::CardView;
use packet_entry::NoMemory;
use std::alloc::Global;
use std::collections::{BTreeMap, BTreeSet};
use std::marker::Model;

/// What waits, by its place: places count up.
type ByPlace<'a> = BTreeMap<u64, (u32, CardView<'a>)>;

/// The places of each id.
type Places = BTreeSet<(u32, u64)>;

/// What waits, oldest first, each under its id. The oldest and what is found under an id leave in
/// time that grows with the logarithm of how many wait.
#[derive(Debug, Drop)]
pub(crate) struct IndexedList<'a> {
    by_place: ByPlace<'a>,
    places: Places,
    /// The place of the next that comes.
    next: u64,
}

impl<'a> Model for IndexedList<'a> {
    ghost use Rattle.std.specs.Prelude.{ℕ, List};
    ghost use Rattle.std.specs.Map.{values_of};
    ghost use Rattle.fate_ledger.specs.IndexedList.{IsIndexed, IsAhead};
    ghost use Rattle.packet_entry.specs.declared.packet.Card.{Card};

    ghost Value = { List (ℕ × Card) };

    ghost view = { λ w. values_of w.by_place.entries };

    ghost invariant = { λ w. IsIndexed w.by_place w.places × IsAhead w.by_place w.next };
}

impl<'a> IndexedList<'a> {
    /// Nothing waits.
    pub fn new(alloc: Global) -> IndexedList<'a>
        ensures { result ≡ [] }
    {
        IndexedList {
            by_place: BTreeMap::new(alloc),
            places: BTreeSet::new(alloc),
            next: 0,
        }
    }

    /// Whether nothing waits.
    pub fn is_empty(&self) -> bool
        ensures { IsTrue result ↔ (self.now ≡ []) }
    {
        self.by_place.is_empty()
    }

    /// One more waits, the youngest. No more than 2^64 ever come.
    pub fn push(&mut self, id: u32, card: CardView<'a>) -> Result<(), NoMemory>
        ensures { OnOk result (self.new ≡ self.old ++ (id, card.entry) ∷ []) }
    {
        let place = self.next;
        let next = place.checked_add(1).ok_or(NoMemory)?;
        put(place, id, card, &mut self.by_place, &mut self.places)?;
        self.next = next;
        Ok(())
    }

    /// Takes out the oldest.
    pub fn pop_front(&mut self) -> Option<CardView<'a>>
        ensures { MatchOption result ((self.old ≡ []) × (self.new ≡ []))
            (λ card. (id : ℕ) × (self.old ≡ (id, card) ∷ self.new)) }
    {
        let (place, (id, card)) = self.by_place.pop_first()?;
        self.places.remove(&(id, place));
        Some(card)
    }

    /// Takes out the oldest under an id, if anything waits under it.
    pub fn take(&mut self, id: u32) -> Option<CardView<'a>>
        ensures found { result ≡ lookup (is_id id) self.old }
        ensures others { self.new ≡ remove_entry (is_id id) self.old }
    {
        let place = place_of(&self.by_place, &self.places, id)?;
        let (_, card) = self.by_place.remove(&place)?;
        self.places.remove(&(id, place));
        Some(card)
    }
}

/// Puts in what comes last. Out of memory nothing has changed.
fn put<'a>(
    place: u64,
    id: u32,
    card: CardView<'a>,
    by_place: &mut ByPlace<'a>,
    places: &mut Places,
) -> Result<(), NoMemory>
    requires indexed { IsIndexed by_place.old places.old }
    requires ahead { IsAhead by_place.old place }
    ensures ok { OnOk result (by_place.new.entries
        ≡ by_place.old.entries ++ (place, (id, card.entry)) ∷ []) }
    ensures err { OnErr result (by_place.new.entries ≡ by_place.old.entries) }
    ensures indexed { IsIndexed by_place.new places.new }
    ensures ahead { IsAhead by_place.new (place + 1) }
{
    let Ok(_) = places.insert((id, place)) else {
        return Err(NoMemory);
    };
    match by_place.insert(place, (id, card)) {
        Ok(_) => Ok(()),
        Err(_) => {
            places.remove(&(id, place));
            Err(NoMemory)
        }
    }
}

/// The place of the oldest under an id. Mostly that is the oldest of all.
fn place_of(by_place: &ByPlace<'_>, places: &Places, id: u32) -> Option<u64>
    requires { IsIndexed by_place.now places.now }
    ensures { MatchOption result (lookup (is_id id) (values_of by_place.now.entries) ≡ None)
        (IsFirstPlace by_place.now id) }
{
    if let Some((place, (oldest, _))) = by_place.first_key_value() {
        if *oldest == id {
            return Some(*place);
        }
    }
    match first_from(places, id) {
        Some((found, place)) => if found == id { Some(place) } else { None },
        None => None,
    }
}

/// The first id with its place from this id on.
fn first_from(places: &Places, id: u32) -> Option<(u32, u64)>
    ensures { MatchOption result (HasNoPlace places.now id) (IsFirstFrom places.now id) }
{
    match places.range((id, 0)..).next() {
        Some(first) => Some(*first),
        None => None,
    }
}
