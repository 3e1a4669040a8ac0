//! Histories that are gone over, entry by entry and log by log.

ghost use Rattle.std.specs.Prelude.{◌≡◌, OnOk, IfOk, option_copied};
ghost use Rattle.order_audit.specs.Cursors as cursor;
ghost use Rattle.order_audit.specs.Walking as walking;

use crate::cursors::{Cursors, cursors_of, next, pass};
use crate::rows::{Rows, first, rows_of, shorten};
use crate::sets::{Notices, Pairs, asked_in, note, put_all};
use histories::{Did, Entry, Event, Histories, Logs};
use packet_entry::NoMemory;
use std::alloc::Global;

/// How far histories are gone over.
#[derive(Drop)]
pub(crate) struct Walk {
    /// What is left of each queue's history.
    pub(crate) rows: Rows,
    /// How far each port's log is gone over.
    pub(crate) cursors: Cursors,
    /// The packets that left a queue.
    pub(crate) left: Pairs,
    /// The notices of packets that queues took.
    pub(crate) taken: Notices,
    /// All messages that ask something of a queue.
    pub(crate) asked: Pairs,
}

/// Nothing is gone over.
pub(crate) fn begin(alloc: Global, histories: &Histories) -> Result<Walk, NoMemory>
    ensures { IfOk result (walking.IsWalk histories.now) }
{
    Ok(Walk {
        rows: rows_of(alloc, &histories.entries)?,
        cursors: cursors_of(alloc, &histories.logs)?,
        left: Pairs::new(alloc),
        taken: Notices::new(alloc),
        asked: asked_in(alloc, &histories.entries)?,
    })
}

/// Whether the first entry that is left of a queue's history can go.
pub(crate) fn can_some_go(walk: &Walk, histories: &Histories, queue: u16) -> bool
    ensures { result ≡ walking.can_some_go histories.now.logs walk.now
        (walking.first_of histories.now.entries walk.now queue) }
{
    match first(&walk.rows, queue) {
        Some(place) => match histories.entries.get(place) {
            Some(entry) => can_go(walk, &histories.logs, &entry.event),
            None => false,
        },
        None => false,
    }
}

/// Whether an event can go.
pub(crate) fn can_go(walk: &Walk, logs: &Logs, event: &Event) -> bool
    ensures { result ≡ walking.can_go logs.now walk.now event.now }
{
    match event {
        Event::Arrive { card, .. } => {
            card.visit < 2 || walk.left.contains(&(card.number, card.visit - 1))
        }
        Event::Ask { port, call, .. } => is_sent(*call, next(&walk.cursors, logs, *port)),
        Event::PortClosed { port } => next(&walk.cursors, logs, *port).is_none(),
        Event::DeviceDown { .. } => true,
    }
}

/// Whether this is the message with the number.
fn is_sent(wanted: u32, did: Option<&Did>) -> bool
    ensures { result ≡ walking.is_sent wanted (option_copied did.entry) }
{
    match did {
        Some(Did::Sent { call, .. }) => *call == wanted,
        Some(Did::Received { .. }) => false,
        Some(Did::Closed) => false,
        None => false,
    }
}

/// Whether a port's log can be gone over by one more.
pub(crate) fn can_pass(walk: &Walk, logs: &Logs, port: u32) -> bool
    ensures { result ≡ walking.can_pass walk.now port
        (cursor.next_of logs.now walk.now.cursors port) }
{
    match next(&walk.cursors, logs, port) {
        Some(
            Did::Received {
                queue,
                number,
                visit,
            },
        ) => walk.taken.contains(&(*queue, (*number, *visit))),
        Some(Did::Sent { call, .. }) => !walk.asked.contains(&(port, *call)),
        Some(Did::Closed) => true,
        None => false,
    }
}

impl Walk {
    /// An entry goes, which is the first that is left of its queue's history. These packets leave
    /// in its step.
    pub(crate) fn go(&mut self, entry: &Entry, visits: &[(u32, u32)]) -> Result<(), NoMemory>
        ensures { OnOk result (walking.Goes self.old self.new entry.now visits.now) }
    {
        put_all(visits, &mut self.left)?;
        note(entry, &mut self.taken)?;
        move_on(&entry.event, &mut self.cursors)?;
        shorten(entry.queue, &mut self.rows);
        Ok(())
    }

    /// A port's log is gone over by one more.
    pub(crate) fn pass(&mut self, port: u32) -> Result<(), NoMemory>
        ensures { OnOk result (walking.Passes self.old self.new port) }
    {
        pass(port, &mut self.cursors)
    }
}

/// A request goes, and so its port's log is gone over by one more.
fn move_on(event: &Event, cursors: &mut Cursors) -> Result<(), NoMemory>
    ensures { OnOk result (walking.MovesBy event.now cursors.old cursors.new) }
{
    match event {
        Event::Ask { port, .. } => pass(*port, cursors),
        Event::Arrive { .. } => Ok(()),
        Event::PortClosed { .. } => Ok(()),
        Event::DeviceDown { .. } => Ok(()),
    }
}
