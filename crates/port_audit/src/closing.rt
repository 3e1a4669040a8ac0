//! Part: a port that closed has one closing at a queue at most, asks nothing behind it, and no
//! queue is bound to it in the end.

ghost use Rattle.std.specs.Prelude.{◌≡◌, ◌↔◌, ◌<◌, ◌++◌, ◌∷◌, [], ℕ, List, filter, IsTrue, IfOk};
ghost use Rattle.std.specs.Prelude.{OnOk};
ghost use Rattle.std.specs.BTreeMap.{get};
ghost use Rattle.std.specs.List.{list_any};
ghost use Rattle.std.specs.Ordering.{nat_cmp};
ghost use Rattle.histories.specs.Numbers.{queue_count};
ghost use Rattle.run_parts.specs.Closing.{is_closed};
ghost use Rattle.run_parts.specs.Log.{Note};
ghost use Rattle.run_parts.specs.Run.{ClosingHolds};
ghost use Rattle.queue_replay.specs.Replays as replays;
ghost use Rattle.port_audit.specs.Closing as closing;
ghost use Rattle.port_audit.specs.Told.{AreTold};

use crate::logs::{is_among, log_of};
use crate::queues::is_queue_number;
use histories::{Did, Dids, Entries, Entry, Event, Histories, Logs};
use inspector_script::Script;
use packet_entry::NoMemory;
use queue_replay::{Queues, Replayed, Standing, port_of};
use std::alloc::Global;
use std::collections::BTreeMap;

/// The ports that closed at a queue, by the queue's number.
type Shut = BTreeMap<u16, Vec<u32>>;

/// Whether each port of the script whose log has its closing closes once at most at each queue,
/// asks nothing there behind it, and no queue is bound to it in the end; and whether no other port
/// of the script closes. It doesn't matter what else is told of the ports.
pub fn are_closings(
    alloc: Global,
    script: &Script,
    histories: &Histories,
    replayed: &Replayed,
) -> Result<bool, NoMemory>
    requires { replays.IsReplayOf histories.now.entries replayed.now }
    ensures { IfOk result (λ are. (notes : ℕ → List Note) →
        AreTold script.now histories.now notes →
        (IsTrue are ↔ ClosingHolds script.now histories.now notes)) }
{
    let closed = closed_ports(alloc, script, &histories.logs)?;
    are_shut(
        alloc,
        script.ports(),
        &closed,
        &histories.entries,
        &replayed.queues,
    )
}

/// The ports of the script whose log has their closing.
fn closed_ports(alloc: Global, script: &Script, logs: &Logs) -> Result<Vec<u32>, NoMemory>
    ensures { IfOk result (λ closed. closed.items
        ≡ filter (closing.has_closed logs.now) script.now.ports) }
{
    let mut closed = Vec::new(alloc);
    for &port in script.ports() {
        if has_closed(logs, port) {
            closed.push(port)?;
        }
    }
    Ok(closed)
}

/// Whether the log of a port has its closing.
fn has_closed(logs: &Logs, port: u32) -> bool
    ensures { result ≡ closing.has_closed logs.now port }
{
    match log_of(logs, port) {
        Some(dids) => some_closed(dids),
        None => false,
    }
}

/// Whether a port closed.
fn some_closed(dids: &Dids) -> bool
    ensures { result ≡ list_any is_closed dids.now }
{
    for did in dids {
        if is_closed(did) {
            return true;
        }
    }
    false
}

/// Whether what a port did is its closing.
fn is_closed(did: &Did) -> bool
    ensures { result ≡ is_closed did.now }
{
    match did {
        Did::Received { .. } => false,
        Did::Sent { .. } => false,
        Did::Closed => true,
    }
}

/// Whether each of these ports closes at the queues, or doesn't, as is said of it.
fn are_shut(
    alloc: Global,
    ports: &[u32],
    closed: &[u32],
    entries: &Entries,
    queues: &Queues,
) -> Result<bool, NoMemory>
    requires { replays.AreReplayed entries.now queues.now }
    ensures { IfOk result (λ are. IsTrue are
        ↔ closing.AllShut ports.now closed.now entries.now) }
{
    let mut shut = BTreeMap::new(alloc);
    for entry in entries {
        is_queue_number(entry.queue);
        if breaks(ports, closed, &shut, entry) {
            return Ok(false);
        }
        note(alloc, ports, entry, &mut shut)?;
    }
    Ok(all_end_well(ports, closed, queues))
}

/// Whether an entry doesn't fit the ports that closed.
fn breaks(ports: &[u32], closed: &[u32], shut: &Shut, entry: &Entry) -> bool
    ensures { result ≡ closing.breaks ports.now closed.now
        (closing.shut_at shut.now entry.now.queue) entry.now.event }
{
    match &entry.event {
        Event::Arrive { .. } => false,
        Event::Ask { port, .. } => is_among(ports, *port) && is_shut(shut, entry.queue, *port),
        Event::PortClosed { port } => {
            is_among(ports, *port)
                && (!is_among(closed, *port) || is_shut(shut, entry.queue, *port))
        }
        Event::DeviceDown { .. } => false,
    }
}

/// Whether a port closed at a queue.
fn is_shut(shut: &Shut, queue: u16, port: u32) -> bool
    ensures { result ≡ closing.is_in (closing.shut_at shut.now queue) port }
{
    match shut.get(&queue) {
        Some(ports) => is_among(ports, port),
        None => false,
    }
}

/// Notes a closing of one of these ports.
fn note(alloc: Global, ports: &[u32], entry: &Entry, shut: &mut Shut) -> Result<(), NoMemory>
    ensures { OnOk result (closing.Notes ports.now shut.old shut.new entry.now) }
{
    match &entry.event {
        Event::Arrive { .. } => Ok(()),
        Event::Ask { .. } => Ok(()),
        Event::PortClosed { port } => {
            if is_among(ports, *port) {
                push(alloc, entry.queue, *port, shut)?;
            }
            Ok(())
        }
        Event::DeviceDown { .. } => Ok(()),
    }
}

/// A port closed at a queue.
fn push(alloc: Global, queue: u16, port: u32, shut: &mut Shut) -> Result<(), NoMemory>
    ensures own { OnOk result (closing.shut_at shut.new queue
        ≡ closing.shut_at shut.old queue ++ port ∷ []) }
    ensures others { OnOk result (closing.KeepsOthers queue shut.old shut.new) }
{
    if !shut.contains_key(&queue) {
        shut.insert(queue, Vec::new(alloc))?;
    }
    let Some(ports) = shut.get_mut(&queue) else {
        unreachable!()
    };
    ports.push(port)?;
    Ok(())
}

/// Whether no queue is bound to one of the ports that closed.
fn all_end_well(ports: &[u32], closed: &[u32], queues: &Queues) -> bool
    ensures { IsTrue result ↔ ((queue : ℕ) → queue < queue_count →
        closing.EndsWell ports.now closed.now
        (replays.queue_in (get nat_cmp queues.now queue))) }
{
    for (queue, state) in queues {
        is_queue_number(*queue);
        if ends_badly(ports, closed, state) {
            return false;
        }
    }
    true
}

/// Whether a queue is bound to one of the ports that closed.
fn ends_badly(ports: &[u32], closed: &[u32], state: &Option<Standing>) -> bool
    ensures { result ≡ closing.ends_badly ports.now closed.now (replays.port_in state.now) }
{
    match port_of(state) {
        Some(port) => is_among(ports, port) && is_among(closed, port),
        None => false,
    }
}
