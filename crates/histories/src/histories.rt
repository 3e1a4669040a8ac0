//! All that happened.

use crate::{Entries, PortLog};
use packet_entry::Sequence;

/// A packet that was lost between two queues because memory ran out.
#[derive(Clone, Copy, Debug, PartialEq, Eq)]
pub struct Lost {
    /// The packet's number, counted from 1.
    pub number: u32,
    /// The visit that its next arrival would have had.
    pub visit: u32,
}

/// The logs of ports.
pub type Logs = Sequence<PortLog>;

/// Packets that were lost.
pub type Losts = Sequence<Lost>;

/// All that happened at some queues and their ports.
#[derive(Debug, Drop)]
pub struct Histories {
    /// Each queue's entries in their order, by ascending queue number.
    pub entries: Entries,
    /// What each port did.
    pub logs: Logs,
    /// The packets that were lost.
    pub lost: Losts,
}
