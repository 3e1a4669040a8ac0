//! What can become of a frame.

ghost use Rattle.std.specs.Prelude.{◌≡◌};
ghost use Rattle.fate_ledger.specs.Ledger as text;

use packet_entry::{Bytes, Sequence};

/// What became of a frame. The first six are releases.
#[derive(Clone, Copy, Debug, PartialEq, Eq)]
pub enum Fate {
    /// It isn't IP, or no rule matched.
    Unhooked,
    /// A verdict accepted it, and no further table queued it.
    Accept,
    /// A verdict stopped it: no further table was asked.
    Stop,
    /// A verdict repeated its table, and no rule queued it again.
    Repeat,
    /// A queue that fails open let it go on, since it or its port's mailbox was full, and no
    /// further table queued it.
    FailOpen,
    /// A queue was absent, what sent it there has the bypass, and no further table queued it.
    Bypass,
    /// A verdict dropped it.
    Dropped,
    /// As many packets waited as may.
    Overflow,
    /// The port's mailbox was full.
    UserFull,
    /// The queue was absent.
    NoQueue,
    /// The queue's copy mode was `NONE`.
    CopyNone,
    /// It had been queued 32 times before.
    Loop,
    /// Its queue was unbound while it waited.
    Unbind,
    /// Its queue's port was closed while it waited.
    PortClosed,
    /// A device of it went down while it waited.
    DeviceDown,
    /// It still waits.
    Waiting,
    /// It was lost between two queues because memory ran out.
    NoMemory,
}

impl Fate {
    /// How the ledger and the counts name it.
    pub fn name(self) -> &'static str
        ensures { result.now ≡ text.name self }
    {
        match self {
            Fate::Unhooked => "unhooked",
            Fate::Accept => "accept",
            Fate::Stop => "stop",
            Fate::Repeat => "repeat",
            Fate::FailOpen => "failopen",
            Fate::Bypass => "bypass",
            Fate::Dropped => "drop",
            Fate::Overflow => "overflow",
            Fate::UserFull => "userfull",
            Fate::NoQueue => "noqueue",
            Fate::CopyNone => "copynone",
            Fate::Loop => "loop",
            Fate::Unbind => "unbind",
            Fate::PortClosed => "portclosed",
            Fate::DeviceDown => "devicedown",
            Fate::Waiting => "waiting",
            Fate::NoMemory => "nomemory",
        }
    }

    /// Whether a frame with this fate was released.
    pub fn is_release(self) -> bool
        ensures { result ≡ text.is_release self }
    {
        match self {
            Fate::Unhooked
            | Fate::Accept
            | Fate::Stop
            | Fate::Repeat
            | Fate::FailOpen
            | Fate::Bypass => true,
            _ => false,
        }
    }
}

/// What became of one frame.
#[derive(Debug, Drop)]
pub struct FateLine {
    /// The frame's place in its capture, counted from 1.
    pub number: u32,
    /// What became of it.
    pub fate: Fate,
    /// The queue of its packet's last event; 0 where there is none.
    pub queue: u16,
    /// The place of the last event in that queue's history, counted from 1; 0 where there is none.
    pub at: u64,
    /// The packet's mark there, after its edits.
    pub mark: u32,
    /// The packet's priority there, after its edits.
    pub priority: u32,
    /// The packet's bytes there, after its edits; for a frame without an event its captured bytes,
    /// link header included.
    pub payload: Bytes,
}

/// What became of frames, in their order.
pub type FateLines = Sequence<FateLine>;
