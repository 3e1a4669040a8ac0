//! Histories, written as a journal.

use histories::{Entry, Histories};
use journals::journal_text;
use packet_entry::{NoMemory, Sequence};
use queue_core::{Event, Reply};
use std::alloc::Global;

/// The journal of queue 5, whose port 7 closed while two packets waited there.
pub fn journal_of_closing(alloc: Global) -> Result<Vec<u8>, NoMemory> {
    let mut entries = Vec::new(alloc);
    entries.push(Entry {
        queue: 5,
        event: Event::PortClosed { port: 7 },
        reply: Reply::Flushed { taken: 2 },
    })?;
    let histories = Histories {
        entries: Sequence::from_vec(entries),
        logs: Sequence::new(alloc),
        lost: Sequence::new(alloc),
    };
    let mut journal = Vec::new(alloc);
    journal_text(alloc, &histories, &mut journal)?;
    Ok(journal)
}
