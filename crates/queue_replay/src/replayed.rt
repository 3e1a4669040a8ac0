//! Histories of all queues, replayed entry by entry.

ghost use Rattle.std.specs.Prelude.{◌≡◌, ◌↔◌, ◌++◌, ◌∷◌, [], List, Some, IsTrue, OnOk, IfOk};
ghost use Rattle.std.specs.Prelude.{take, slice_get};
ghost use Rattle.std.specs.BTreeMap.{get};
ghost use Rattle.std.specs.Ordering.{nat_cmp};
ghost use Rattle.queue_core.specs.Step as queue_step;
ghost use Rattle.histories.specs.History as history;
ghost use Rattle.histories.specs.declared.entry.Entry.{Entry};
ghost use Rattle.queue_replay.specs.Departed.{Adds};
ghost use Rattle.queue_replay.specs.Going.{all_going};
ghost use Rattle.queue_replay.specs.Leaving.{visits_left};
ghost use Rattle.queue_replay.specs.Replays as replays;

use crate::departed::Departed;
use crate::found::{Found, find};
use crate::going::{Leavers, going_on};
use crate::requests::port_of;
use crate::standing::Standing;
use histories::{Entries, Entry};
use packet_entry::{NoMemory, Sequence};
use std::alloc::Global;
use std::collections::BTreeMap;

/// States by the queue's number. A queue that isn't kept is absent.
pub type Queues = BTreeMap<u16, Option<Standing>>;

/// Entries that were replayed.
#[derive(Drop)]
pub struct Replayed {
    /// What was found at each of them, in their order.
    pub found: Sequence<Found>,
    /// The packets that left in each of them, in their order.
    pub(crate) departed: Departed,
    /// The queues after the last of them.
    pub queues: Queues,
}

/// Replays these entries, which may stand in any order of their queues, whether they are steps or
/// not.
pub fn replay_all(alloc: Global, entries: &Entries) -> Result<Replayed, NoMemory>
    ensures { IfOk result (replays.IsReplayOf entries.now) }
{
    let mut replayed = Replayed::new(alloc);
    for entry in entries {
        replayed.replay(alloc, entry)?;
    }
    Ok(replayed)
}

impl Replayed {
    /// Nothing is replayed so far.
    pub fn new(alloc: Global) -> Replayed
        ensures { replays.IsReplayOf [] result }
    {
        Replayed {
            found: Sequence::new(alloc),
            departed: Departed::new(alloc),
            queues: BTreeMap::new(alloc),
        }
    }

    /// Replays the next entry, and answers whether it is a step of its queue. When memory runs
    /// out, what is kept may be any.
    pub fn replay(&mut self, alloc: Global, entry: &Entry) -> Result<bool, NoMemory>
        ensures replayed { OnOk result ((before : List Entry) →
            replays.IsReplayOf before self.old →
            replays.IsReplayOf (before ++ entry.now ∷ []) self.new) }
        ensures is { IfOk result (λ is. IsTrue is ↔ history.IsStep
            (replays.queue_in (get nat_cmp self.old.queues entry.now.queue)) entry.now) }
    {
        let here = replay(alloc, entry, &mut self.queues, &mut self.departed)?;
        keep(here, &mut self.found)?;
        Ok(here.is_step)
    }

    /// The packets that go on in the step of the next entry, as [`going_on`] tells them.
    pub fn going_on(&self, alloc: Global, entry: &Entry) -> Result<Leavers, NoMemory>
        ensures { IfOk result (λ leavers. history.IsStep
            (replays.queue_in (get nat_cmp self.now.queues entry.now.queue)) entry.now →
            leavers.items ≡ all_going (queue_step.step
            (replays.queue_in (get nat_cmp self.now.queues entry.now.queue))
            entry.now.event).left) }
    {
        match self.queues.get(&entry.queue) {
            Some(queue) => going_on(queue, alloc, entry),
            None => going_on(&None, alloc, entry),
        }
    }

    /// The packets that left in the entry at a place, each by its number and visit, in order: those
    /// that went on, and those that were destroyed. Nothing where there is no such entry.
    pub fn left_at(&self, place: usize) -> &[(u32, u32)]
        ensures { (es : List Entry) (e : Entry) → replays.IsReplayOf es self.now →
            slice_get es place ≡ Some e →
            history.IsStep (history.replay (history.history e.queue (take place es))) e →
            result.now ≡ visits_left (queue_step.step
            (history.replay (history.history e.queue (take place es))) e.event) }
    {
        self.departed.at(place)
    }
}

/// Replays the next entry at its queue, and adds what leaves. Answers what was found there.
fn replay(
    alloc: Global,
    entry: &Entry,
    queues: &mut Queues,
    departed: &mut Departed,
) -> Result<Found, NoMemory>
    ensures departed { OnOk result (Adds departed.old departed.new
        (replays.queue_in (get nat_cmp queues.old entry.now.queue)) entry.now) }
    ensures queues { OnOk result (replays.Replays queues.old queues.new entry.now) }
    ensures found { IfOk result (replays.IsFound
        (replays.queue_in (get nat_cmp queues.old entry.now.queue)) entry.now) }
{
    if !queues.contains_key(&entry.queue) {
        queues.insert(entry.queue, None)?;
    }
    let Some(queue) = queues.get_mut(&entry.queue) else {
        unreachable!()
    };
    departed.add(queue, entry)?;
    find(queue, alloc, entry)
}

/// Keeps what was found.
fn keep(here: Found, found: &mut Sequence<Found>) -> Result<(), NoMemory>
    ensures { OnOk result (found.new ≡ found.old ++ here ∷ []) }
{
    let Ok(()) = found.push(here) else {
        return Err(NoMemory);
    };
    Ok(())
}

/// The port that a queue is bound to.
pub fn port_at(queues: &Queues, queue: u16) -> Option<u32>
    ensures { result ≡ replays.port_in (replays.queue_in (get nat_cmp queues.now queue)) }
{
    match queues.get(&queue) {
        Some(state) => port_of(state),
        None => None,
    }
}
