//! What one line of a journal says.

use histories::{Did, Entry};

/// What one line of a journal says.
#[derive(Drop)]
pub(crate) enum Line {
    /// The first line of all.
    Heading,
    /// What happened at a queue.
    EntryLine { entry: Entry },
    /// The log of this port begins.
    PortLine { port: u32 },
    /// What the last port did.
    DidLine { did: Did },
    /// The last line of all.
    End,
}
