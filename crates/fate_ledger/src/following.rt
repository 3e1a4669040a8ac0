//! Entries of one queue, followed by their replies.

ghost use Rattle.std.specs.Prelude.{◌≡◌, [], OnOk, drop};
ghost use Rattle.std.specs.Map.{lookup, remove_entry};
ghost use Rattle.queue_core.specs.Ids.{is_id};
ghost use Rattle.fate_ledger.specs.Fates as fates;
ghost use Rattle.fate_ledger.specs.Following as following;

use crate::Fate;
use crate::card_view::CardView;
use crate::happening::How;
use crate::last_lines::LastLines;
use crate::waiting_list::WaitingList;
use histories::{Entry, Event, Reply};
use nfqa_msgs::{Head, Request};
use packet_entry::{Bytes, Card, NoMemory};
use queue_core::{ACCEPT, DROP, Outcome, QUEUE, REPEAT, VERDICT_MASK};
use std::alloc::Global;

/// A queue whose history was followed so far.
#[derive(Debug, Drop)]
pub(crate) struct Followed<'a> {
    /// How many entries its history has so far, which is fewer than 2^64.
    pub at: u64,
    /// What waits.
    pub waiting: WaitingList<'a>,
}

impl<'a> Followed<'a> {
    /// A queue without an entry.
    pub fn new(alloc: Global) -> Followed<'a>
        ensures at { result.at ≡ 0 }
        ensures waiting { result.waiting ≡ [] }
    {
        Followed {
            at: 0,
            waiting: WaitingList::new(alloc),
        }
    }

    /// Follows the queue's next entry, and notes it for each packet that it is an event of, where
    /// it is the last one so far. When memory runs out, some of it may have been noted.
    pub fn follow(&mut self, entry: &'a Entry, kept: &mut LastLines<'a>) -> Result<(), NoMemory>
        ensures at { OnOk result (self.new.at ≡ following.place_after self.old.at) }
        ensures waiting { OnOk result (self.new.waiting
            ≡ following.waiting_after entry.now.event entry.now.reply self.old.waiting) }
        ensures kept { OnOk result (kept.new
            ≡ following.noted_all (following.told entry.now.queue
            (following.place_after self.old.at) entry.now.event entry.now.reply
            self.old.waiting) kept.old) }
    {
        let at = self.at.wrapping_add(1);
        self.at = at;
        let queue = entry.queue;
        let waiting = &mut self.waiting;
        match (&entry.event, entry.reply) {
            (Event::Arrive { card, .. }, Reply::Arrived { outcome }) => {
                arrive(queue, at, card, outcome, waiting, kept)
            }
            (Event::Ask { request, .. }, Reply::Answer { taken, .. }) => {
                ask(queue, at, request, taken, waiting, kept);
                Ok(())
            }
            (Event::PortClosed { .. }, Reply::Flushed { taken }) => {
                let fate = Fate::PortClosed;
                first_leave(How { queue, at, fate }, None, None, taken, waiting, kept);
                Ok(())
            }
            (Event::DeviceDown { .. }, Reply::Flushed { taken }) => {
                let fate = Fate::DeviceDown;
                first_leave(How { queue, at, fate }, None, None, taken, waiting, kept);
                Ok(())
            }
            _ => Ok(()),
        }
    }
}

/// A packet arrives; it waits where it is taken.
fn arrive<'a>(
    queue: u16,
    at: u64,
    card: &'a Card,
    outcome: Outcome,
    waiting: &mut WaitingList<'a>,
    kept: &mut LastLines<'a>,
) -> Result<(), NoMemory>
    ensures waiting { OnOk result (waiting.new
        ≡ following.waiting_after_arrival card.now outcome waiting.old) }
    ensures kept { OnOk result (kept.new
        ≡ following.noted (following.happening
        (following.how_at queue at (fates.fate_at_arrival outcome)) card.now) kept.old) }
{
    let fate = fate_at_arrival(outcome);
    kept.note(How { queue, at, fate }.happening(CardView::new(card)));
    if let Outcome::Taken { id } = outcome {
        waiting.push(id, CardView::new(card))?;
    }
    Ok(())
}

/// A request after which so many packets left.
fn ask<'a>(
    queue: u16,
    at: u64,
    request: &'a Request,
    taken: u32,
    waiting: &mut WaitingList<'a>,
    kept: &mut LastLines<'a>,
)
    ensures waiting { waiting.new
        ≡ following.waiting_after_ask request.now taken waiting.old }
    ensures kept { kept.new
        ≡ following.noted_all (following.asked queue at request.now taken waiting.old)
        kept.old }
{
    match request {
        Request::Config { .. } => {
            let fate = Fate::Unbind;
            first_leave(How { queue, at, fate }, None, None, taken, waiting, kept);
        }
        Request::Verdict {
            head: Some(Head { verdict, id }),
            mark,
            payload,
            priority,
            ..
        } => {
            if taken == 0 {
                return;
            }
            let fate = fate_of(*verdict);
            let how = How { queue, at, fate };
            one_leaves(how, *id, *mark, payload, *priority, waiting, kept);
        }
        Request::Batch {
            head: Some(Head { verdict, .. }),
            mark,
            priority,
            ..
        } => {
            let fate = fate_of(*verdict);
            let how = How { queue, at, fate };
            first_leave(how, *mark, *priority, taken, waiting, kept);
        }
        _ => {}
    }
}

/// So many of the oldest leave, each with the mark and the priority that are given.
fn first_leave<'a>(
    how: How,
    mark: Option<u32>,
    priority: Option<u32>,
    count: u32,
    waiting: &mut WaitingList<'a>,
    kept: &mut LastLines<'a>,
)
    ensures waiting { waiting.new ≡ drop count waiting.old }
    ensures kept { kept.new
        ≡ following.noted_all (following.first_leave how mark priority count waiting.old)
        kept.old }
{
    for _ in 0..count {
        let Some(card) = waiting.pop_front() else {
            return;
        };
        kept.note(how.happening(card.changed(mark, priority)));
    }
}

/// What waits under an id leaves, with the mark, the bytes and the priority that are given.
fn one_leaves<'a>(
    how: How,
    id: u32,
    mark: Option<u32>,
    payload: &'a Option<Bytes>,
    priority: Option<u32>,
    waiting: &mut WaitingList<'a>,
    kept: &mut LastLines<'a>,
)
    ensures waiting { waiting.new ≡ remove_entry (is_id id) waiting.old }
    ensures kept { kept.new
        ≡ following.noted_all (following.one_leaves how mark payload.now priority
        (lookup (is_id id) waiting.old)) kept.old }
{
    if let Some(card) = waiting.take(id) {
        let card = card.changed(mark, priority).replaced(payload);
        kept.note(how.happening(card));
    }
}

/// An arrival's fate: what is taken waits.
fn fate_at_arrival(outcome: Outcome) -> Fate
    ensures { result ≡ fates.fate_at_arrival outcome }
{
    match outcome {
        Outcome::Taken { .. } => Fate::Waiting,
        Outcome::Overflow => Fate::Overflow,
        Outcome::OverflowOpen => Fate::FailOpen,
        Outcome::UserFull { .. } => Fate::UserFull,
        Outcome::UserFullOpen { .. } => Fate::FailOpen,
        Outcome::NoQueue => Fate::NoQueue,
        Outcome::Bypassed => Fate::Bypass,
        Outcome::CopyNone => Fate::CopyNone,
        Outcome::Loop => Fate::Loop,
    }
}

/// The fate of what leaves by a verdict that isn't refused. What goes to another queue is lost,
/// unless it arrives there.
fn fate_of(verdict: u32) -> Fate
    ensures { result ≡ following.fate_of verdict }
{
    match verdict % (VERDICT_MASK + 1) {
        DROP => Fate::Dropped,
        ACCEPT => Fate::Accept,
        QUEUE => Fate::NoMemory,
        REPEAT => Fate::Repeat,
        _ => Fate::Stop,
    }
}
