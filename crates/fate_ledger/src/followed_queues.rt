//! Entries of all queues, followed by their replies.

ghost use Rattle.std.specs.Prelude.{◌≡◌, ℕ, OnOk, Some, false};
ghost use Rattle.std.specs.Ordering.{nat_cmp};
ghost use Rattle.std.specs.BTreeMap.{get, is_at};
ghost use Rattle.fate_ledger.specs.Following as following;

use crate::following::Followed;
use crate::last_lines::LastLines;
use histories::Entry;
use packet_entry::NoMemory;
use std::alloc::Global;
use std::collections::BTreeMap;
use std::mem;

/// Queues by their numbers.
type Queues<'a> = BTreeMap<u16, Followed<'a>>;

/// Queues whose histories were followed so far. Entries of one queue mostly stand together, so the
/// queue of the last entry is at hand.
#[derive(Debug, Drop)]
pub(crate) struct FollowedQueues<'a> {
    /// The number of the queue at hand, whatever `others` has under it.
    number: u16,
    /// The queue at hand.
    at_hand: Followed<'a>,
    others: Queues<'a>,
}

impl<'a> FollowedQueues<'a> {
    /// Queues without an entry.
    pub fn new(alloc: Global) -> FollowedQueues<'a>
        ensures { following.AreNew result }
    {
        FollowedQueues {
            number: 0,
            at_hand: Followed::new(alloc),
            others: BTreeMap::new(alloc),
        }
    }

    /// Follows the next entry, which is a step of its queue.
    pub fn follow(
        &mut self,
        alloc: Global,
        entry: &'a Entry,
        kept: &mut LastLines<'a>,
    ) -> Result<(), NoMemory>
        ensures queues { OnOk result (following.Follows self.old self.new entry.now) }
        ensures kept { OnOk result (kept.new
            ≡ following.noted_all (following.told_by self.old entry.now) kept.old) }
    {
        self.turn_to(alloc, entry.queue)?;
        self.at_hand.follow(entry, kept)?;
        Ok(())
    }

    /// Takes the queue with this number to hand.
    fn turn_to(&mut self, alloc: Global, queue: u16) -> Result<(), NoMemory>
        ensures { OnOk result (following.TurnsTo self.old self.new queue) }
    {
        if self.number == queue {
            return Ok(());
        }
        self.change(alloc, queue)
    }

    /// Takes another queue to hand.
    #[inline(never)]
    fn change(&mut self, alloc: Global, queue: u16) -> Result<(), NoMemory>
        requires other { ¬ (self.old.number ≡ queue) }
        ensures { OnOk result (following.TurnsTo self.old self.new queue) }
    {
        let next = taken(alloc, queue, &mut self.others);
        let last = mem::replace(&mut self.at_hand, next);
        self.others.insert(self.number, last)?;
        self.number = queue;
        Ok(())
    }
}

/// Takes a queue out; one without an entry where there is none.
fn taken<'a>(alloc: Global, queue: u16, queues: &mut Queues<'a>) -> Followed<'a>
    ensures queue { following.IsSameQueue (get nat_cmp queues.old queue) (Some result) }
    ensures others { (q : ℕ) → is_at (nat_cmp queue) q ≡ false →
        get nat_cmp queues.new q ≡ get nat_cmp queues.old q }
{
    match queues.remove(&queue) {
        Some(followed) => followed,
        None => Followed::new(alloc),
    }
}
