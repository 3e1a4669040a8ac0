//! The places of queues, and what they share.

ghost use Rattle.std.specs.Prelude.{◌≡◌, ◌≤◌, ◌<◌, length};
ghost use Rattle.histories.specs.Places.{place_for};

use locked_place::{LockedPlace, Outlets};
use packet_moves::Setting;
use turn_lock::TurnLock;

/// Places of queues, each behind a lock of its own, with the mailboxes of the ports and the board
/// of the places' totals. Queue `q` is at place `q % places`.
pub struct Places {
    /// The tables, the key of the flow hash, and how many notices a mailbox holds.
    pub setting: Setting,
    /// The ports' mailboxes, and the board.
    pub outlets: Outlets,
    /// The lock of each place, in the places' order.
    pub locks: Vec<TurnLock<LockedPlace>>,
    pub ghost sized: { length locks.items ≡ outlets.board.places },
    pub ghost some: { 1 ≤ length locks.items },
    pub ghost few: { length locks.items ≤ 64 },
}

impl Places {
    ghost use Rattle.place_turns.specs.Places.{places_of};

    /// How many places there are.
    pub fn count(&self) -> u8
        ensures { result ≡ places_of self.now }
    {
        self.locks.len() as u8
    }

    /// The place of a queue.
    pub(crate) fn place_of(&self, queue: u16) -> usize
        ensures value { result ≡ place_for queue (places_of self.now) }
        ensures there { result < length self.now.locks.items }
        ensures few { result < 64 }
    {
        usize::from(queue) % self.locks.len()
    }
}

/// Places, as they are come to for turns that a gate is told of.
#[derive(Drop)]
pub struct Turns<'a, R, G> {
    pub places: &'a Places,
    pub rt: &'a R,
    pub gate: &'a G,
}
