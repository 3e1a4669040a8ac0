//! How an arrival begins, and how it ends.

use packet_entry::{Letter, Packet};

/// What an arrival came to.
#[derive(Clone, Copy, Debug, PartialEq, Eq)]
pub enum Outcome {
    /// It waits under this id.
    Taken { id: u32 },
    /// As many packets wait as may: destroyed, counted as dropped.
    Overflow,
    /// As many packets wait as may, and the queue fails open: it goes on with the next table.
    OverflowOpen,
    /// The port's mailbox was full: destroyed, counted as user dropped. The id is used.
    UserFull { id: u32 },
    /// The port's mailbox was full, and the queue fails open: it goes on with the next table. The
    /// id is used.
    UserFullOpen { id: u32 },
    /// The queue is absent: destroyed.
    NoQueue,
    /// The queue is absent, and what sent it there has the bypass: it goes on with the next
    /// table.
    Bypassed,
    /// The queue's copy mode is `NONE`: destroyed.
    CopyNone,
    /// It has been queued 32 times before: destroyed.
    Loop,
}

/// Out of memory: the packet comes back as it was.
pub struct NoRoom {
    /// Spend it, or try again.
    pub packet: Packet,
}

/// How an arrival begins.
pub enum Begun {
    /// The packet stands offered, and this notice is for the port.
    Offered { port: u32, letter: Letter },
    /// The queue didn't take it.
    Back { outcome: Outcome, packet: Packet },
}

/// How an offer ends.
pub enum Settled {
    /// The packet waits under this id.
    Waiting { id: u32 },
    /// The queue didn't take it.
    Back { outcome: Outcome, packet: Packet },
}
