//! Events of packets.

ghost use Rattle.std.specs.Prelude.{◌≡◌};
ghost use Rattle.fate_ledger.specs.Following as following;

use crate::Fate;
use crate::card_view::CardView;

/// An event of a packet.
#[derive(Debug, Drop)]
pub struct Happening<'a> {
    /// The place of its entry in the queue's history, counted from 1.
    pub at: u64,
    /// The packet there, after its edits.
    pub card: CardView<'a>,
    /// The queue where it happened.
    pub queue: u16,
    /// What became of the packet, if this is its last event and it wasn't lost.
    pub fate: Fate,
}

/// What an entry makes of the packets that it is an event of.
#[derive(Clone, Copy, Debug)]
pub(crate) struct How {
    pub queue: u16,
    pub at: u64,
    pub fate: Fate,
}

impl How {
    /// The event of this packet.
    pub fn happening<'a>(self, card: CardView<'a>) -> Happening<'a>
        ensures { result ≡ following.happening self card.entry }
    {
        Happening {
            queue: self.queue,
            at: self.at,
            fate: self.fate,
            card,
        }
    }
}
