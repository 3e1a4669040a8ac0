//! The first place where a history isn't legal.

ghost use Rattle.std.specs.Prelude.{◌≡◌, ◌↔◌, [], None, IfOk};
ghost use Rattle.histories.specs.History as history;
ghost use Rattle.queue_replay.specs.Replays.{AreFound, IsReplayOf};
ghost use Rattle.journal_audit.specs.Illegal as illegal;

use crate::watched::watch;
use histories::{Entries, Histories};
use packet_entry::{NoMemory, Sequence};
use queue_replay::{Found, Replayed, next_found, replay_all};
use std::alloc::Global;
use std::collections::BTreeMap;

/// A place in the history of one queue.
#[derive(Clone, Copy, Debug, PartialEq, Eq)]
pub struct Place1 {
    /// The queue's number.
    pub queue: u16,
    /// The number of an entry in the queue's history, counted from 1.
    pub at: u64,
}

/// Whether the history of each queue is legal: `None` exactly where each is. Otherwise the place of
/// the least queue whose history isn't, with the length of its shortest beginning that isn't.
///
/// The entries may stand in any order of their queues. `NoMemory` comes also where 2^32 packets
/// wait at one queue, or a history has 2^64 entries.
pub fn check_histories(alloc: Global, histories: &Histories) -> Result<Option<Place1>, NoMemory>
    ensures first { IfOk result (illegal.IsFirstOf histories.now.entries) }
    ensures none { IfOk result (λ place.
        (place ≡ None) ↔ history.AreLegal histories.now.entries) }
{
    let replayed = replay_all(alloc, &histories.entries)?;
    find_illegal(alloc, histories, &replayed)
}

/// The same, of histories that were replayed.
pub fn find_illegal(
    alloc: Global,
    histories: &Histories,
    replayed: &Replayed,
) -> Result<Option<Place1>, NoMemory>
    requires { IsReplayOf histories.now.entries replayed.now }
    ensures first { IfOk result (illegal.IsFirstOf histories.now.entries) }
    ensures none { IfOk result (λ place.
        (place ≡ None) ↔ history.AreLegal histories.now.entries) }
{
    first_in(alloc, &histories.entries, &replayed.found)
}

/// The first place in these entries where a history isn't legal. It is given what was found at each
/// entry.
fn first_in(
    alloc: Global,
    entries: &Entries,
    found: &Sequence<Found>,
) -> Result<Option<Place1>, NoMemory>
    requires { AreFound [] entries.now found.now }
    ensures { IfOk result (illegal.IsFirstOf entries.now) }
{
    let mut found = found.iter();
    let mut queues = BTreeMap::new(alloc);
    let mut first = None;
    for entry in entries {
        let here = next_found(&mut found);
        let at = watch(here.is_step, entry, &mut queues)?;
        first = sooner(first, entry.queue, at);
    }
    Ok(first)
}

/// The place of the lesser queue, of the first place so far and one that was found at this queue.
fn sooner(first: Option<Place1>, queue: u16, found: Option<u64>) -> Option<Place1>
    ensures { result ≡ illegal.sooner first queue found }
{
    let Some(at) = found else { return first };
    match first {
        Some(place) if place.queue <= queue => first,
        _ => Some(Place1 { queue, at }),
    }
}
