//! Arrivals at a queue that stands as its history says.

ghost use Rattle.std.specs.Prelude.{◌≡◌, Some, OnOk, IfOk};
ghost use Rattle.queue_core.specs.State as state;
ghost use Rattle.queue_core.specs.Step as queue_step;
ghost use Rattle.queue_core.specs.declared.event.Reply.TheVariants.{Arrived};

use crate::standing::Standing;
use crate::waiting_list::fresh_id;
use nfqa_msgs::NONE;
use packet_entry::{Card, NoMemory};
use queue_core::Outcome;

/// How many arrivals a packet can have; at the last one it is destroyed.
pub(crate) const LAST_VISIT: u32 = 33;

/// A packet arrives at a queue number. When memory runs out, the state may be any.
pub(crate) fn arrive(
    queue: &mut Option<Standing>,
    card: &Card,
    bypass: bool,
    room: bool,
) -> Result<Outcome, NoMemory>
    ensures reply { IfOk result (λ outcome.
        (queue_step.arrive queue.old card.now bypass room).reply ≡ Arrived outcome) }
    ensures state { OnOk result
        ((queue_step.arrive queue.old card.now bypass room).state ≡ queue.new) }
{
    if card.visit == LAST_VISIT {
        return Ok(Outcome::Loop);
    }
    match queue {
        Some(queue) => queue.arrive(card, room),
        None if bypass => Ok(Outcome::Bypassed),
        None => Ok(Outcome::NoQueue),
    }
}

impl Standing {
    /// A packet arrives at a bound queue.
    fn arrive(&mut self, card: &Card, room: bool) -> Result<Outcome, NoMemory>
        ensures reply { IfOk result (λ outcome.
            (queue_step.arrive_bound self.old card.now room).reply ≡ Arrived outcome) }
        ensures state { OnOk result
            ((queue_step.arrive_bound self.old card.now room).state ≡ Some self.new) }
    {
        if self.settings.mode == NONE {
            return Ok(Outcome::CopyNone);
        }
        if self.is_full() && self.fails_open() {
            return Ok(Outcome::OverflowOpen);
        }
        if self.is_full() {
            self.dropped = self.dropped.saturating_add(1);
            return Ok(Outcome::Overflow);
        }
        let id = fresh_id(self.last, &self.waiting);
        if room {
            self.waiting.push(id, card.share()?)?;
            self.last = id;
            return Ok(Outcome::Taken { id });
        }
        self.last = id;
        if self.fails_open() {
            return Ok(Outcome::UserFullOpen { id });
        }
        self.user_dropped = self.user_dropped.saturating_add(1);
        Ok(Outcome::UserFull { id })
    }

    /// Whether as many packets wait as may.
    fn is_full(&self) -> bool
        ensures { result ≡ queue_step.is_full self.now }
    {
        self.settings.is_full(self.waiting.len())
    }

    /// Whether a queue that is full, or whose port's mailbox is, lets packets go on.
    fn fails_open(&self) -> bool
        ensures { result ≡ state.fails_open self.now }
    {
        self.settings.fails_open()
    }

    /// Whether an arrival is decided before a notice is offered.
    pub(crate) fn turns_away(&self) -> bool
        ensures { result ≡ queue_step.turns_away self.now }
    {
        self.settings.mode == NONE || self.is_full()
    }
}
