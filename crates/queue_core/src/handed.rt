//! What verdicts and batches hand out.

ghost use Rattle.std.specs.Prelude.{◌≡◌, ◌<◌, ◌≤◌, ◌+◌, ◌++◌, ◌∷◌, [], ◌↔◌, IsNone, option_to_list};
ghost use Rattle.std.specs.Prelude.{OnOk};

use hook_chain::Decision;
use packet_entry::{NoMemory, Packet};
use std::alloc::Global;
use std::collections::VecDeque;
use std::marker::Model;

/// Packets that left a queue, each with its decision, in the order in which they left, and the room
/// for more of them. It is no `Drop`: it ends by `finish`, once each packet was taken.
pub struct Handed {
    pub(crate) packets: VecDeque<(Packet, Decision)>,
}

impl Model for Handed {
    ghost use Rattle.std.specs.Prelude.{◌-◌};
    ghost use Rattle.std.specs.VecDeque.{deque_len, deque_capacity};
    ghost use Rattle.packet_entry.specs.declared.packet.Card.{Card};
    ghost use Rattle.packet_entry.specs.ListWithRoom.{ListWithRoom};
    ghost use Rattle.hook_chain.specs.declared.chain.Decision.{Decision};

    ghost Value = { ListWithRoom (Card × Decision) };

    ghost view = { λ h. record {
      items = h.packets.items;
      room = deque_capacity h.packets - deque_len h.packets;
    } };
}

impl Handed {
    /// No packets. Takes no memory.
    pub fn new(alloc: Global) -> Handed
        ensures { result.items ≡ [] }
    {
        Handed {
            packets: VecDeque::new(alloc),
        }
    }

    /// Makes room for so many packets more.
    pub fn make_room(&mut self, more: usize) -> Result<(), NoMemory>
        ensures items { self.new.items ≡ self.old.items }
        ensures ok { OnOk result (more ≤ self.new.room) }
    {
        Ok(self.packets.reserve(more)?)
    }

    /// Adds a packet at the end, for which there is room. Takes no memory.
    pub fn put(&mut self, packet: Packet, decision: Decision)
        requires { 0 < self.old.room }
        ensures items { self.new.items ≡ self.old.items ++ (packet, decision) ∷ [] }
        ensures room { self.new.room + 1 ≡ self.old.room }
    {
        self.packets.push_back_reserved((packet, decision));
    }

    /// Takes the first packet out; `None` exactly where there is none.
    pub fn take(&mut self) -> Option<(Packet, Decision)>
        ensures first { self.old.items ≡ option_to_list result ++ self.new.items }
        ensures empty { IsNone result ↔ (self.old.items ≡ []) }
    {
        self.packets.pop_front()
    }

    /// Ends the list, which is empty. Takes no memory.
    pub fn finish(self)
        requires empty { self.items ≡ [] }
    {
        let Handed { packets } = self;
        packets.into_vec().destroy_empty();
    }
}
