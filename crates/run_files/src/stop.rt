//! Why a command stops before its end.

ghost use Rattle.std.specs.Prelude.{◌≡◌};
ghost use Rattle.run_files.specs.Statuses as statuses;
ghost use Rattle.run_files.specs.declared.refusal.Refusal.TheVariants as refusal;
ghost use Rattle.run_files.specs.declared.stop.Stop.TheVariants as stop;

use crate::refusal::{Limit, Refusal};
use crate::status;
use host_io::{ReadStop, WriteFault};
use journal_reading::JournalFault;
use packet_entry::NoMemory;
use pcap_io::CaptureFault;
use std::alloc::AllocError;
use text_lines::LineFault;

/// Why a command stops before its end.
#[derive(Clone, Copy, Debug, PartialEq, Eq)]
pub enum Stop {
    /// An input couldn't be read.
    ReadFault,
    /// An output couldn't be written.
    WriteFault,
    /// An input is refused.
    Refused { why: Refusal },
    NoMemory,
}

impl Stop {
    /// The exit status.
    pub fn status(self) -> u8
        ensures { result ≡ statuses.status_of self }
    {
        match self {
            Stop::ReadFault => status::READ_FAULT,
            Stop::WriteFault => status::WRITE_FAULT,
            Stop::Refused { why } => why.status(),
            Stop::NoMemory => status::NO_MEMORY,
        }
    }

    /// Of a file that wasn't read whole, of which this limit is asked.
    pub fn of_read(limit: Limit, fault: ReadStop) -> Stop
        ensures { result ≡ statuses.of_read limit fault }
    {
        match fault {
            ReadStop::ReadFault => Stop::ReadFault,
            ReadStop::TooLarge => Stop::too_large(limit),
            ReadStop::NoMemory => Stop::NoMemory,
        }
    }

    /// Something is above this limit.
    pub fn too_large(limit: Limit) -> Stop
        ensures { result ≡ stop.Refused (refusal.TooLarge limit) }
    {
        Stop::Refused {
            why: Refusal::TooLarge { limit },
        }
    }

    /// Of rules that aren't taken.
    pub fn of_rules(fault: LineFault) -> Stop
        ensures { result ≡ statuses.of_rules fault }
    {
        match fault {
            LineFault::Bad { line } => Stop::Refused {
                why: Refusal::Rules { number: line },
            },
            LineFault::NoMemory => Stop::NoMemory,
        }
    }

    /// Of a script that isn't taken.
    pub fn of_script(fault: LineFault) -> Stop
        ensures { result ≡ statuses.of_script fault }
    {
        match fault {
            LineFault::Bad { line } => Stop::Refused {
                why: Refusal::Script { number: line },
            },
            LineFault::NoMemory => Stop::NoMemory,
        }
    }

    /// Of a journal that isn't taken.
    pub fn of_journal(fault: JournalFault) -> Stop
        ensures { result ≡ statuses.of_journal fault }
    {
        match fault {
            JournalFault::Bad { line } => Stop::Refused {
                why: Refusal::Journal { number: line },
            },
            JournalFault::NoMemory => Stop::NoMemory,
        }
    }

    /// Of a capture that isn't taken.
    pub fn of_capture(fault: CaptureFault) -> Stop
        ensures { result ≡ statuses.of_capture fault }
    {
        match fault {
            CaptureFault::NoMemory => Stop::NoMemory,
            CaptureFault::Magic
            | CaptureFault::Pcapng
            | CaptureFault::Version
            | CaptureFault::LinkType { link: _ }
            | CaptureFault::Cut { frame: _, at: _ }
            | CaptureFault::TooLong {
                frame: _,
                length: _,
            } => Stop::Refused {
                why: Refusal::Capture { fault },
            },
        }
    }
}

impl From<NoMemory> for Stop {
    ghost from_gives = { λ _ e. e ≡ stop.NoMemory };

    fn from(_: NoMemory) -> Self {
        Stop::NoMemory
    }
}

impl From<AllocError> for Stop {
    ghost from_gives = { λ _ e. e ≡ stop.NoMemory };

    fn from(_: AllocError) -> Self {
        Stop::NoMemory
    }
}

impl From<WriteFault> for Stop {
    ghost from_gives = { λ _ e. e ≡ stop.WriteFault };

    fn from(_: WriteFault) -> Self {
        Stop::WriteFault
    }
}
