//! Sets of pairs and of notices.

ghost use Rattle.std.specs.Prelude.{◌≡◌, ◌||◌, ℕ, OnOk, IfOk};
ghost use Rattle.order_audit.specs.Sets as sets;

use histories::{Entries, Entry, Event, Reply};
use packet_entry::{Card, NoMemory};
use queue_core::Outcome;
use std::alloc::Global;
use std::collections::BTreeSet;

/// Packets by number and visit, or messages by port and number.
pub(crate) type Pairs = BTreeSet<(u32, u32)>;

/// Notices: a queue, a packet's number and its visit.
pub(crate) type Notices = BTreeSet<(u16, (u32, u32))>;

/// Puts in a pair.
pub(crate) fn put(first: u32, second: u32, pairs: &mut Pairs) -> Result<(), NoMemory>
    ensures { OnOk result ((a b : ℕ) → sets.has pairs.new a b
        ≡ sets.is_pair a b (first, second) || sets.has pairs.old a b) }
{
    pairs.insert((first, second))?;
    Ok(())
}

/// Puts in these visits.
pub(crate) fn put_all(visits: &[(u32, u32)], pairs: &mut Pairs) -> Result<(), NoMemory>
    ensures { OnOk result ((a b : ℕ) → sets.has pairs.new a b
        ≡ sets.is_among a b visits.now || sets.has pairs.old a b) }
{
    for (number, visit) in visits {
        put(*number, *visit, pairs)?;
    }
    Ok(())
}

/// Notes the notice of an arrival that its queue took.
pub(crate) fn note(entry: &Entry, notices: &mut Notices) -> Result<(), NoMemory>
    ensures { OnOk result ((queue number visit : ℕ) → sets.has_notice notices.new queue number visit
        ≡ sets.notifies queue number visit entry.now
        || sets.has_notice notices.old queue number visit) }
{
    match &entry.event {
        Event::Arrive { card, .. } => note_reply(entry.queue, card, entry.reply, notices),
        Event::Ask { .. } => Ok(()),
        Event::PortClosed { .. } => Ok(()),
        Event::DeviceDown { .. } => Ok(()),
    }
}

/// Notes the notice of an arrival with this reply.
fn note_reply(queue: u16, card: &Card, reply: Reply, notices: &mut Notices) -> Result<(), NoMemory>
    ensures { OnOk result ((at number visit : ℕ) → sets.has_notice notices.new at number visit
        ≡ sets.notifies_as at number visit (queue, (card.now.number, card.now.visit)) reply
        || sets.has_notice notices.old at number visit) }
{
    match reply {
        Reply::Arrived { outcome } => note_outcome(queue, card, outcome, notices),
        Reply::Answer { .. } => Ok(()),
        Reply::Flushed { .. } => Ok(()),
    }
}

/// Notes the notice of an arrival with this outcome.
fn note_outcome(
    queue: u16,
    card: &Card,
    outcome: Outcome,
    notices: &mut Notices,
) -> Result<(), NoMemory>
    ensures { OnOk result ((at number visit : ℕ) → sets.has_notice notices.new at number visit
        ≡ sets.notifies_with at number visit (queue, (card.now.number, card.now.visit)) outcome
        || sets.has_notice notices.old at number visit) }
{
    if is_taken(outcome) {
        notices.insert((queue, (card.number, card.visit)))?;
    }
    Ok(())
}

/// Whether a queue took what arrived.
fn is_taken(outcome: Outcome) -> bool
    ensures { result ≡ sets.is_taken outcome }
{
    match outcome {
        Outcome::Taken { .. } => true,
        Outcome::Overflow => false,
        Outcome::OverflowOpen => false,
        Outcome::UserFull { .. } => false,
        Outcome::UserFullOpen { .. } => false,
        Outcome::NoQueue => false,
        Outcome::Bypassed => false,
        Outcome::CopyNone => false,
        Outcome::Loop => false,
    }
}

/// The messages that ask something of a queue.
pub(crate) fn asked_in(alloc: Global, entries: &Entries) -> Result<Pairs, NoMemory>
    ensures { IfOk result (λ asked. (port call : ℕ) →
        sets.has asked port call ≡ sets.is_asked port call entries.now) }
{
    let mut asked = Pairs::new(alloc);
    for entry in entries {
        note_asked(entry, &mut asked)?;
    }
    Ok(asked)
}

/// Notes the message of a request.
fn note_asked(entry: &Entry, asked: &mut Pairs) -> Result<(), NoMemory>
    ensures { OnOk result ((port call : ℕ) → sets.has asked.new port call
        ≡ sets.asks port call entry.now || sets.has asked.old port call) }
{
    match &entry.event {
        Event::Ask { port, call, .. } => put(*port, *call, asked),
        Event::Arrive { .. } => Ok(()),
        Event::PortClosed { .. } => Ok(()),
        Event::DeviceDown { .. } => Ok(()),
    }
}
