//! Many packets that wait, in order of arrival: a map by id whose entries name their neighbours.

ghost use Rattle.std.specs.Prelude.{◌≡◌, ◌<◌, ◌^◌, ◌++◌, ◌∷◌, [], length, drop, slice_index_or};
ghost use Rattle.std.specs.Prelude.{false};
ghost use Rattle.std.specs.Prelude.{IfErr, OnOk, OnErr, OnSome, IfSome, IfNone, IsNone, IsTrue};
ghost use Rattle.std.specs.Prelude.{◌↔◌};
ghost use Rattle.std.specs.Map.{lookup, remove_entry, keys_of};
ghost use Rattle.queue_core.specs.Ids.{is_id, is_among};
ghost use Rattle.queue_core.specs.Share.{share};

use crate::ids::is_after;
use crate::linked::{ById, Linked, name_older, name_younger, put_youngest};
use packet_entry::Packet;
use std::alloc::Global;
use std::collections::BTreeMap;
use std::marker::Model;

/// Packets that wait, oldest first, each under an id of its own. What one of them costs is found in
/// a number of steps that grows as the logarithm of how many wait. It is no `Drop`: it ends by
/// `finish`, once nothing waits.
pub(crate) struct ManyWaiting {
    by_id: ById,
    oldest: Option<u32>,
    youngest: Option<u32>,
}

impl Model for ManyWaiting {
    ghost use Rattle.std.specs.Prelude.{ℕ, List, length};
    ghost use Rattle.packet_entry.specs.declared.packet.Card.{Card};
    ghost use Rattle.queue_core.specs.Linked.{IsLinked, followed};

    ghost Value = { List (ℕ × Card) };

    ghost view = { λ w. followed (length w.by_id.entries) w.by_id.entries w.oldest };

    ghost invariant = { λ w. IsLinked w.by_id.entries w.oldest w.youngest
        (followed (length w.by_id.entries) w.by_id.entries w.oldest) };
}

impl ManyWaiting {
    /// Nothing waits. Takes no memory.
    pub(crate) fn new(alloc: Global) -> ManyWaiting
        ensures { result ≡ [] }
    {
        ManyWaiting {
            by_id: BTreeMap::new(alloc),
            oldest: None,
            youngest: None,
        }
    }

    /// How many packets wait.
    pub(crate) fn len(&self) -> usize
        ensures count { result ≡ length self.now }
        ensures few { result < 2 ^ 63 }
    {
        self.by_id.len()
    }

    /// Whether nothing waits.
    pub(crate) fn is_empty(&self) -> bool
        ensures { IsTrue result ↔ (self.now ≡ []) }
    {
        self.len() == 0
    }

    /// Whether a packet waits under the id.
    pub(crate) fn contains(&self, id: u32) -> bool
        ensures { result ≡ is_among (keys_of self.now) id }
    {
        self.by_id.contains_key(&id)
    }

    /// Lets a packet wait under a free id, as the youngest. Where there is no memory, it comes
    /// back, and nothing has changed.
    pub(crate) fn push(&mut self, id: u32, packet: Packet) -> Result<(), Packet>
        requires free { is_among (keys_of self.old) id ≡ false }
        ensures ok { OnOk result (self.new ≡ self.old ++ (id, packet) ∷ []) }
        ensures err { OnErr result (self.new ≡ self.old) }
        ensures returned { IfErr result (λ back. back ≡ packet) }
    {
        let youngest = self.youngest;
        put_youngest(&mut self.by_id, id, packet, youngest)?;
        name_younger(&mut self.by_id, &mut self.oldest, youngest, Some(id));
        self.youngest = Some(id);
        Ok(())
    }

    /// Takes out the packet that waits under the id; `None` exactly where there is none. Takes no
    /// memory.
    pub(crate) fn take(&mut self, id: u32) -> Option<Packet>
        ensures packet { result ≡ lookup (is_id id) self.old }
        ensures others { OnSome result (self.new ≡ remove_entry (is_id id) self.old) }
        ensures unchanged { IfNone result (self.new ≡ self.old) }
    {
        let Linked {
            packet,
            older,
            younger,
        } = self.by_id.remove(&id)?;
        name_younger(&mut self.by_id, &mut self.oldest, older, younger);
        name_older(&mut self.by_id, &mut self.youngest, younger, older);
        Some(packet)
    }

    /// Takes out the oldest, with its id; `None` exactly where nothing waits. Takes no memory.
    pub(crate) fn take_oldest(&mut self) -> Option<(u32, Packet)>
        ensures value { IfSome result (λ w. w ≡ slice_index_or self.old 0 w) }
        ensures rest { self.new ≡ drop 1 self.old }
        ensures none { IsNone result ↔ (length self.old ≡ 0) }
    {
        let id = self.oldest?;
        let Some(packet) = self.take(id) else {
            unreachable!()
        };
        Some((id, packet))
    }

    /// How many packets, from the oldest on, wait before the first whose id is after the maximum.
    pub(crate) fn share_length(&self, maximum: u32) -> usize
        ensures count { result ≡ length (share self.now maximum) }
        ensures few { result < 2 ^ 63 }
    {
        let mut next = self.oldest;
        for count in 0..self.by_id.len() {
            let Some(id) = next else { unreachable!() };
            let Some(linked) = self.by_id.get(&id) else {
                unreachable!()
            };
            if is_after(id, maximum) {
                return count;
            }
            next = linked.younger;
        }
        self.by_id.len()
    }

    /// Ends the list, which is empty. Takes no memory.
    pub(crate) fn finish(self)
        requires empty { self ≡ [] }
    {
        let ManyWaiting {
            by_id,
            oldest: _,
            youngest: _,
        } = self;
        by_id.destroy_empty();
    }
}
