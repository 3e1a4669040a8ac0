//! What waits in a queue, in order of arrival.

ghost use Rattle.std.specs.Prelude.{◌≡◌, ◌++◌, ◌∷◌, [], length, drop, slice_index_or, false, None};
ghost use Rattle.std.specs.Prelude.{IfErr, OnOk, OnErr, OnSome, IfSome, IfNone, IsNone, ◌↔◌};
ghost use Rattle.std.specs.Prelude.{MatchOption};
ghost use Rattle.std.specs.Map.{lookup, remove_entry, keys_of};
ghost use Rattle.queue_core.specs.Few.{IsPlace};
ghost use Rattle.queue_core.specs.Ids.{is_id, is_among};
ghost use Rattle.queue_core.specs.Share.{share};

use crate::ids::is_after;
use crate::many_waiting::ManyWaiting;
use packet_entry::Packet;
use std::alloc::Global;
use std::collections::VecDeque;
use std::marker::Model;

/// How many are looked through for an id: an index takes longer to keep.
const FEW: usize = 16;

/// A few packets that wait, oldest first, each under its id.
type Few = VecDeque<(u32, Packet)>;

/// Packets that wait, oldest first, each under an id of its own. What one of them costs is found in
/// a number of steps that grows as the logarithm of how many wait. It is no `Drop`: it ends by
/// `finish`, once nothing waits.
pub(crate) struct Waiting {
    /// The oldest, without an index.
    few: Few,
    /// What came after those.
    many: ManyWaiting,
}

impl Model for Waiting {
    ghost use Rattle.std.specs.Prelude.{ℕ, List, ◌++◌};
    ghost use Rattle.packet_entry.specs.declared.packet.Card.{Card};

    ghost Value = { List (ℕ × Card) };

    ghost view = { λ w. w.few.items ++ w.many };
}

impl Waiting {
    /// Nothing waits. Takes no memory.
    pub(crate) fn new(alloc: Global) -> Waiting
        ensures { result ≡ [] }
    {
        Waiting {
            few: VecDeque::new(alloc),
            many: ManyWaiting::new(alloc),
        }
    }

    /// How many packets wait.
    pub(crate) fn len(&self) -> usize
        ensures { result ≡ length self.now }
    {
        self.few.len() + self.many.len()
    }

    /// Whether a packet waits under the id.
    pub(crate) fn contains(&self, id: u32) -> bool
        ensures { result ≡ is_among (keys_of self.now) id }
    {
        place_of(&self.few, id).is_some() || self.many.contains(id)
    }

    /// Lets a packet wait under a free id, as the youngest. Where there is no memory, it comes
    /// back, and nothing has changed.
    pub(crate) fn push(&mut self, id: u32, packet: Packet) -> Result<(), Packet>
        requires free { is_among (keys_of self.old) id ≡ false }
        ensures ok { OnOk result (self.new ≡ self.old ++ (id, packet) ∷ []) }
        ensures err { OnErr result (self.new ≡ self.old) }
        ensures returned { IfErr result (λ back. back ≡ packet) }
    {
        if self.many.is_empty() && self.few.len() < FEW {
            match self.few.push_back((id, packet)) {
                Ok(()) => Ok(()),
                Err(failed) => {
                    let (_, packet) = failed.value;
                    Err(packet)
                }
            }
        } else {
            self.many.push(id, packet)
        }
    }

    /// Takes out the packet that waits under the id; `None` exactly where there is none. Takes no
    /// memory.
    pub(crate) fn take(&mut self, id: u32) -> Option<Packet>
        ensures packet { result ≡ lookup (is_id id) self.old }
        ensures others { OnSome result (self.new ≡ remove_entry (is_id id) self.old) }
        ensures unchanged { IfNone result (self.new ≡ self.old) }
    {
        match place_of(&self.few, id) {
            Some(place) => {
                let Some((_, packet)) = self.few.remove(place) else {
                    unreachable!()
                };
                Some(packet)
            }
            None => self.many.take(id),
        }
    }

    /// Takes out the oldest, with its id; `None` exactly where nothing waits. Takes no memory.
    pub(crate) fn take_oldest(&mut self) -> Option<(u32, Packet)>
        ensures value { IfSome result (λ w. w ≡ slice_index_or self.old 0 w) }
        ensures rest { self.new ≡ drop 1 self.old }
        ensures none { IsNone result ↔ (length self.old ≡ 0) }
    {
        match self.few.pop_front() {
            Some(oldest) => Some(oldest),
            None => self.many.take_oldest(),
        }
    }

    /// How many packets, from the oldest on, wait before the first whose id is after the maximum.
    pub(crate) fn share_length(&self, maximum: u32) -> usize
        ensures { result ≡ length (share self.now maximum) }
    {
        for place in 0..self.few.len() {
            let Some(w) = self.few.get(place) else {
                unreachable!()
            };
            if is_after(w.0, maximum) {
                return place;
            }
        }
        self.few.len() + self.many.share_length(maximum)
    }

    /// Ends the list, which is empty. Takes no memory.
    pub(crate) fn finish(self)
        requires empty { self ≡ [] }
    {
        let Waiting { few, many } = self;
        few.destroy_empty();
        many.finish();
    }
}

/// Where the oldest stands that waits under the id.
fn place_of(few: &Few, id: u32) -> Option<usize>
    ensures { MatchOption result (lookup (is_id id) few.now.items ≡ None)
        (IsPlace few.now.items id) }
{
    for place in 0..few.len() {
        let Some(w) = few.get(place) else {
            unreachable!()
        };
        if w.0 == id {
            return Some(place);
        }
    }
    None
}
