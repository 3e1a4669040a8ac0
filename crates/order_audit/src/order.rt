//! Whether one order of all events exists.

ghost use Rattle.std.specs.Prelude.{◌≡◌, ◌↔◌, None, IsTrue, OnOk, IfOk};
ghost use Rattle.histories.specs.History as history;
ghost use Rattle.queue_replay.specs.Replays.{IsReplayOf};
ghost use Rattle.total_order.specs.Orders.{EachIs};
ghost use Rattle.total_order.specs.TotalOrder.{HasTotalOrder};
ghost use Rattle.order_audit.specs.Walking as walking;

use crate::cursors::next;
use crate::hints::{Hints, Task};
use crate::rows::first;
use crate::walk::{Walk, begin, can_go, can_pass, can_some_go};
use histories::{Entries, Histories};
use packet_entry::NoMemory;
use queue_replay::Replayed;
use std::alloc::Global;
use total_order::total_orders_are_orders_of_steps;

/// Whether one order of all events exists: a list of the entries of all queues in which nothing
/// comes before what it rests on. The histories were replayed.
///
/// The entries may stand in any order of their queues. `NoMemory` comes only where memory runs out,
/// or where the numbers of a log's messages don't ascend, as in a log of 2^32 messages.
pub fn has_total_order(
    alloc: Global,
    histories: &Histories,
    replayed: &Replayed,
) -> Result<bool, NoMemory>
    requires legal { history.AreLegal histories.now.entries }
    requires replayed { IsReplayOf histories.now.entries replayed.now }
    ensures { IfOk result (λ yes. IsTrue yes ↔ HasTotalOrder histories.now) }
{
    total_orders_are_orders_of_steps();
    let mut walk = begin(alloc, histories)?;
    let mut hints = Hints::new(alloc);
    for _ in 0..u64::MAX {
        hints.add_all(histories)?;
        go_on(alloc, histories, replayed, &mut walk, &mut hints)?;
        if is_stuck(&walk, histories) {
            return Ok(is_whole(&walk, &histories.entries));
        }
    }
    Err(NoMemory)
}

/// Goes on as long as there is something to look at.
fn go_on(
    alloc: Global,
    histories: &Histories,
    replayed: &Replayed,
    walk: &mut Walk,
    hints: &mut Hints,
) -> Result<(), NoMemory>
    requires legal { history.AreLegal histories.now.entries }
    requires replayed { IsReplayOf histories.now.entries replayed.now }
    requires walk { walking.IsWalk histories.now walk.old }
    ensures { OnOk result (walking.IsWalk histories.now walk.new) }
{
    for _ in 0..u64::MAX {
        match hints.next() {
            Some(Task::Queue(queue)) => look_at_queue(
                alloc, histories, replayed, queue, walk, hints,
            )?,
            Some(Task::Port(port)) => look_at_port(histories, port, walk, hints)?,
            None => return Ok(()),
        }
    }
    Ok(())
}

/// A queue's next entry goes, if it can.
fn look_at_queue(
    alloc: Global,
    histories: &Histories,
    replayed: &Replayed,
    queue: u16,
    walk: &mut Walk,
    hints: &mut Hints,
) -> Result<(), NoMemory>
    requires legal { history.AreLegal histories.now.entries }
    requires replayed { IsReplayOf histories.now.entries replayed.now }
    requires walk { walking.IsWalk histories.now walk.old }
    ensures { OnOk result (walking.IsWalk histories.now walk.new) }
{
    total_orders_are_orders_of_steps();
    let Some(place) = first(&walk.rows, queue) else {
        return Ok(());
    };
    let Some(entry) = histories.entries.get(place) else {
        unreachable!()
    };
    if can_go(walk, &histories.logs, &entry.event) {
        let visits = replayed.left_at(place);
        walk.go(entry, visits)?;
        hints.gone(entry, visits)
    } else {
        hints.queue_waits(alloc, entry)
    }
}

/// A port's log is gone over by one more, if it can be.
fn look_at_port(
    histories: &Histories,
    port: u32,
    walk: &mut Walk,
    hints: &mut Hints,
) -> Result<(), NoMemory>
    requires { walking.IsWalk histories.now walk.old }
    ensures { OnOk result (walking.IsWalk histories.now walk.new) }
{
    if can_pass(walk, &histories.logs, port) {
        walk.pass(port)?;
        hints.passed(port)
    } else {
        hints.port_waits(port, next(&walk.cursors, &histories.logs, port))
    }
}

/// Whether nothing can go any more.
fn is_stuck(walk: &Walk, histories: &Histories) -> bool
    ensures { IsTrue result → walking.IsStuck histories.now walk.now }
{
    queues_wait(walk, histories) && ports_wait(walk, histories)
}

/// Whether no queue's next entry can go.
fn queues_wait(walk: &Walk, histories: &Histories) -> bool
    ensures { IsTrue result → EachIs (walking.Waits histories.now walk.now) histories.now.entries }
{
    for entry in &histories.entries {
        if can_some_go(walk, histories, entry.queue) {
            return false;
        }
    }
    true
}

/// Whether no port's log can be gone over any further.
fn ports_wait(walk: &Walk, histories: &Histories) -> bool
    ensures { IsTrue result → EachIs (walking.Rests histories.now walk.now) histories.now.logs }
{
    for log in &histories.logs {
        if can_pass(walk, &histories.logs, log.port) {
            return false;
        }
    }
    true
}

/// Whether no entry is left.
fn is_whole(walk: &Walk, entries: &Entries) -> bool
    ensures { IsTrue result ↔ EachIs (walking.IsLast walk.now) entries.now }
{
    for entry in entries {
        if first(&walk.rows, entry.queue).is_some() {
            return false;
        }
    }
    true
}
