//! One queue's history, watched entry by entry.

ghost use Rattle.std.specs.Prelude.{◌≡◌, ◌+◌, ◌++◌, ◌∷◌, ◌↔◌, [], List, IsTrue, OnOk, IfOk};
ghost use Rattle.std.specs.BTreeMap.{get};
ghost use Rattle.std.specs.Ordering.{nat_cmp};
ghost use Rattle.histories.specs.History.{replay, IsStep};
ghost use Rattle.histories.specs.declared.entry.Entry.{Entry};
ghost use Rattle.journal_audit.specs.Watching as watching;

use histories::Entry;
use packet_entry::NoMemory;
use std::collections::BTreeMap;

/// A history that was watched so far.
#[derive(Drop)]
pub(crate) struct Watched {
    /// How many entries it has so far.
    pub(crate) length: u64,
    /// Whether it is legal so far.
    pub(crate) is_legal: bool,
}

impl Watched {
    /// A history without an entry.
    pub(crate) fn new() -> Watched
        ensures { watching.IsWatched [] result }
    {
        Watched {
            length: 0,
            is_legal: true,
        }
    }

    /// Watches the next entry, which is a step or not. Answers how many entries there are with it,
    /// where it is the first with which the history isn't legal. `NoMemory` comes at the 2^64th
    /// entry alone; then what is kept may be any.
    fn watch(&mut self, is_step: bool) -> Result<Option<u64>, NoMemory>
        ensures watched { OnOk result ((so_far : List Entry) (e : Entry) →
            (IsTrue is_step ↔ IsStep (replay so_far) e) → watching.IsWatched so_far self.old →
            watching.IsWatched (so_far ++ e ∷ []) self.new) }
        ensures found { IfOk result (λ found. (so_far : List Entry) (e : Entry) →
            (IsTrue is_step ↔ IsStep (replay so_far) e) → watching.IsWatched so_far self.old →
            watching.IsFound so_far e found) }
    {
        let length = one_more(self.length)?;
        self.length = length;
        if !self.is_legal {
            return Ok(None);
        }
        if is_step {
            return Ok(None);
        }
        self.is_legal = false;
        Ok(Some(length))
    }
}

/// One more than so many; `NoMemory` where this is 2^64.
fn one_more(length: u64) -> Result<u64, NoMemory>
    ensures { IfOk result (λ longer. longer ≡ length + 1) }
{
    length.checked_add(1).ok_or(NoMemory)
}

/// Histories by the queue's number; those without an entry aren't kept.
pub(crate) type WatchedQueues = BTreeMap<u16, Watched>;

/// Watches the next entry of all histories, as [`Watched::watch`] that of its queue.
pub(crate) fn watch(
    is_step: bool,
    entry: &Entry,
    queues: &mut WatchedQueues,
) -> Result<Option<u64>, NoMemory>
    ensures queues { OnOk result (watching.Watches is_step queues.old queues.new entry.now) }
    ensures found { IfOk result (λ found. (so_far : List Entry) →
        (IsTrue is_step ↔ IsStep (replay so_far) entry.now) →
        watching.IsWatchedIn so_far (get nat_cmp queues.old entry.now.queue) →
        watching.IsFound so_far entry.now found) }
{
    if !queues.contains_key(&entry.queue) {
        queues.insert(entry.queue, Watched::new())?;
    }
    let Some(watched) = queues.get_mut(&entry.queue) else {
        unreachable!()
    };
    watched.watch(is_step)
}
