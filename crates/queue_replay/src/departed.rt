//! The packets that left in entries, entry by entry.

ghost use Rattle.std.specs.Prelude.{◌≡◌, ◌≤◌, length, slice_range, OnOk, IfOk};
ghost use Rattle.queue_replay.specs.Departed as departed;

use crate::leaving::{Visits, add_leaving};
use crate::standing::Standing;
use histories::Entry;
use packet_entry::NoMemory;
use std::alloc::Global;

/// The packets that left in some entries. They are in one list, so that an entry takes 4 bytes and
/// a packet 8.
#[derive(Drop)]
pub struct Departed {
    /// One entry's packets after those of the entry before, each by its number and visit.
    pub(crate) visits: Visits,
    /// Of each entry, how many packets left in it and in those before it.
    pub(crate) ends: Vec<u32>,
}

impl Departed {
    /// Of no entries.
    pub(crate) fn new(alloc: Global) -> Departed
        ensures { departed.IsNone result }
    {
        Departed {
            visits: Vec::new(alloc),
            ends: Vec::new(alloc),
        }
    }

    /// Adds what leaves in the next entry, which comes to a queue in this state.
    pub(crate) fn add(&mut self, queue: &Option<Standing>, entry: &Entry) -> Result<(), NoMemory>
        ensures { OnOk result (departed.Adds self.old self.new queue.now entry.now) }
    {
        add_leaving(queue, entry, &mut self.visits)?;
        let Ok(end) = u32::try_from(self.visits.len()) else {
            return Err(NoMemory);
        };
        self.ends.push(end)?;
        Ok(())
    }

    /// What left in the entry at a place; nothing where there is none.
    pub(crate) fn at(&self, place: usize) -> &[(u32, u32)]
        ensures { departed.IsAt self.now place result.now }
    {
        let (start, end) = (self.start(place), self.end(place));
        if start <= end && end <= self.visits.len() {
            &self.visits[start..end]
        } else {
            &[]
        }
    }

    /// How many packets left before the entry at a place.
    fn start(&self, place: usize) -> usize
        ensures { result ≡ departed.start_at 0 self.now.ends.items place }
    {
        if place == 0 { 0 } else { self.end(place - 1) }
    }

    /// How many left in it and before it.
    fn end(&self, place: usize) -> usize
        ensures { result ≡ departed.end_at self.now.ends.items place }
    {
        match self.ends.get(place) {
            Some(end) => *end as usize,
            None => 0,
        }
    }
}
