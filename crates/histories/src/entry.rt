//! The entries of a history.

use packet_entry::Sequence;
use queue_core::{Event, Reply};
use std::mem::size_of;

/// One step of one queue.
#[derive(Debug, Drop)]
pub struct Entry {
    /// What happened there.
    pub event: Event,
    /// What the queue answered.
    pub reply: Reply,
    /// The queue's number.
    pub queue: u16,
}

// A history has two or more entries a packet.
const _: () = prove!(size_of::<Entry>() == 96);

/// Entries in their order.
pub type Entries = Sequence<Entry>;
