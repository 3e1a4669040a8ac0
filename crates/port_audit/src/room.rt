//! Part: arrivals found no room only where their port was sent as many notices as its mailbox
//! holds.

ghost use Rattle.std.specs.Prelude.{◌≡◌, ◌↔◌, [], ℕ, List, filter, length, nat_lt, IsTrue, IfOk};
ghost use Rattle.histories.specs.Letters as letters;
ghost use Rattle.run_parts.specs.Log.{Note};
ghost use Rattle.run_parts.specs.Run.{RoomHolds};
ghost use Rattle.queue_replay.specs.Replays.{AreFound, IsReplayOf};
ghost use Rattle.port_audit.specs.Hearing as hearing;
ghost use Rattle.port_audit.specs.Makers.{none_left};
ghost use Rattle.port_audit.specs.Told.{AreTold};

use crate::logs::{is_among, log_of};
use histories::{Did, Dids, Entries, Event, Histories, Logs};
use inspector_script::Script;
use packet_entry::{NoMemory, Sequence};
use queue_replay::{Found, Replayed, next_found};
use std::alloc::Global;

/// Whether arrivals found no room only where a port was sent as many notices as its mailbox holds,
/// whatever else is told of the ports.
pub fn are_roomy(
    alloc: Global,
    script: &Script,
    histories: &Histories,
    replayed: &Replayed,
) -> Result<bool, NoMemory>
    requires { IsReplayOf histories.now.entries replayed.now }
    ensures { IfOk result (λ are. (notes : ℕ → List Note) →
        AreTold script.now histories.now notes →
        (IsTrue are ↔ RoomHolds script.now histories.now notes none_left)) }
{
    let few = ports_of_few(alloc, script, &histories.logs)?;
    Ok(all_had_room(&few, &histories.entries, &replayed.found))
}

/// The ports of the script that heard fewer notices than their mailboxes hold.
fn ports_of_few(alloc: Global, script: &Script, logs: &Logs) -> Result<Vec<u32>, NoMemory>
    ensures { IfOk result (λ few. few.items
        ≡ filter (hearing.hears_few script.now.mail logs.now) script.now.ports) }
{
    let mut few = Vec::new(alloc);
    for &port in script.ports() {
        if hears_few(script.mail(), logs, port) {
            few.push(port)?;
        }
    }
    Ok(few)
}

/// Whether a port heard fewer notices than its mailbox holds.
fn hears_few(mail: u32, logs: &Logs, port: u32) -> bool
    ensures { result ≡ hearing.hears_few mail logs.now port }
{
    match log_of(logs, port) {
        Some(dids) => are_few(mail, dids),
        None => 0 < mail,
    }
}

/// Whether fewer notices than these were heard.
fn are_few(mail: u32, dids: &Dids) -> bool
    ensures { result ≡ nat_lt (hearing.heard_in dids.now) mail }
{
    let mut more = mail;
    for did in dids {
        if let Did::Received { .. } = did {
            if more == 0 {
                return false;
            }
            more -= 1;
        }
    }
    more != 0
}

/// Whether each arrival at a queue of these ports found room.
fn all_had_room(few: &[u32], entries: &Entries, found: &Sequence<Found>) -> bool
    requires { AreFound [] entries.now found.now }
    ensures { IsTrue result ↔ hearing.NoneLacks few.now entries.now }
{
    let mut found = found.iter();
    for entry in entries {
        let here = next_found(&mut found);
        if lacks_at(few, here.port, &entry.event) {
            return false;
        }
    }
    true
}

/// Whether an event found no room at a queue of one of these ports.
fn lacks_at(few: &[u32], port: Option<u32>, event: &Event) -> bool
    ensures { result ≡ hearing.lacks_at few.now port event.now }
{
    match port {
        Some(port) => lacks_room(event) && is_among(few, port),
        None => false,
    }
}

/// Whether an event is an arrival that found no room.
fn lacks_room(event: &Event) -> bool
    ensures { result ≡ letters.lacks_room event.now }
{
    match event {
        Event::Arrive { room, .. } => !*room,
        Event::Ask { .. } => false,
        Event::PortClosed { .. } => false,
        Event::DeviceDown { .. } => false,
    }
}
