//! How far the log of each port is gone over.

ghost use Rattle.std.specs.Prelude.{◌≡◌, IsTrue, OnOk, IfOk, option_copied};
ghost use Rattle.order_audit.specs.Cursors as cursor;

use histories::{Did, Dids, Logs};
use packet_entry::NoMemory;
use std::alloc::Global;
use std::collections::BTreeMap;

/// How far a log is gone over.
#[derive(Clone, Copy, Debug, Drop)]
pub(crate) struct Cursor {
    /// The place of the log among all logs.
    pub(crate) log: usize,
    /// The place of the next thing in it.
    pub(crate) at: usize,
}

/// Cursors by port. Of one port the first log counts.
pub(crate) type Cursors = BTreeMap<u32, Cursor>;

/// Each at the beginning of its log. `NoMemory` comes also where the numbers of a log's messages
/// don't ascend, as in a log of 2^32 messages.
pub(crate) fn cursors_of(alloc: Global, logs: &Logs) -> Result<Cursors, NoMemory>
    ensures { IfOk result (cursor.AreNew logs.now) }
{
    let mut cursors = BTreeMap::new(alloc);
    for place in 0..logs.len() {
        let Some(log) = logs.get(place) else {
            unreachable!()
        };
        if !ascend(&log.dids) {
            return Err(NoMemory);
        }
        keep_first(log.port, Cursor { log: place, at: 0 }, &mut cursors)?;
    }
    Ok(cursors)
}

/// Keeps a port's cursor, unless it has one.
fn keep_first(port: u32, new: Cursor, cursors: &mut Cursors) -> Result<(), NoMemory>
    ensures { OnOk result (cursor.KeepsFirst cursors.old cursors.new port new) }
{
    if !cursors.contains_key(&port) {
        cursors.insert(port, new)?;
    }
    Ok(())
}

/// Whether the numbers of messages ascend.
fn ascend(dids: &Dids) -> bool
    ensures { IsTrue result → cursor.Ascend 0 dids.now }
{
    let mut low: u64 = 0;
    for did in dids {
        if let Did::Sent { call, .. } = did {
            if u64::from(*call) < low {
                return false;
            }
            low = u64::from(*call) + 1;
        }
    }
    true
}

/// What is next in a port's log.
pub(crate) fn next<'a>(cursors: &Cursors, logs: &'a Logs, port: u32) -> Option<&'a Did>
    ensures { option_copied result ≡ cursor.next_of logs.now cursors.now port }
{
    match cursors.get(&port) {
        Some(cursor) => match logs.get(cursor.log) {
            Some(log) => log.dids.get(cursor.at),
            None => None,
        },
        None => None,
    }
}

/// A port's log is gone over by one more.
pub(crate) fn pass(port: u32, cursors: &mut Cursors) -> Result<(), NoMemory>
    ensures { OnOk result (cursor.Moves cursors.old cursors.new port) }
{
    if let Some(cursor) = cursors.get_mut(&port) {
        cursor.at = cursor.at.checked_add(1).ok_or(NoMemory)?;
    }
    Ok(())
}
