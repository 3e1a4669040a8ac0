//! The place of the rows, and the packets that come to it and leave it.

ghost use Rattle.std.specs.Prelude.{◌≡◌, ◌≤◌, IfOk, length};
ghost use Rattle.packet_entry.specs.Numbers.{longest_packet};
ghost use Rattle.histories.specs.History.{AreLegal};
ghost use Rattle.place_history.specs.Calls.{IsOnly};

use histories::Entries;
use hook_chain::Decision;
use packet_entry::{IPV4, MAX_FRAME, NoMemory, Packet};
use place_history::Place;
use queue_core::Handed;
use std::alloc::{AllocError, Global};
use test_inputs::{Row, add, bytes, hex};

/// The IPv4 packet of TCP from 10.0.0.1 to 10.0.0.2.
pub const PACKET: &str = "4500001400010000400600000a0000010a000002";

/// The only place, without queues.
pub fn only(alloc: Global) -> Place
    ensures { IsOnly result }
{
    Place::new(alloc, 0, 1)
}

/// Ends a place, with what waits there: all that happened.
pub fn ended(mut place: Place) -> Entries
    requires { IsOnly place }
    ensures { AreLegal result }
{
    place.leave_waiting();
    place.into_entries()
}

/// A packet with this number at one of its visits, the first being 1.
pub fn visiting(alloc: Global, number: u32, visits: u32, bytes: &[u8]) -> Result<Packet, NoMemory>
    requires { length bytes.now ≤ longest_packet }
    ensures { IfOk result (λ packet. 1 ≤ packet.visit) }
{
    let mut packet = Packet::new(alloc, number.max(1), 1, 0, IPV4, &[], bytes)?;
    packet.queued(1);
    for _ in 1..visits {
        if packet.visit() < 33 {
            packet.queued(1);
        }
    }
    Ok(packet)
}

/// The bytes of a row's packet, at most those of a frame.
pub fn bytes_of(alloc: Global, row: &Row<'_>) -> Result<Vec<u8>, NoMemory>
    ensures { IfOk result (λ bytes. length bytes.items ≤ longest_packet) }
{
    let mut given = bytes(alloc, row.named("bytes").unwrap_or(PACKET))?;
    given.truncate(MAX_FRAME);
    Ok(given)
}

/// Releases what was handed out, and prints it; of more than eight packets how many there were, and
/// whether their numbers ascend.
pub fn released(alloc: Global, mut handed: Handed) -> Result<String, AllocError> {
    let mut shown = Ok(String::new(alloc));
    let (mut count, mut last, mut ascends) = (0u32, 0u32, true);
    while let Some((packet, decision)) = handed.take() {
        count = count.saturating_add(1);
        ascends = ascends && last < packet.number();
        last = packet.number();
        if count <= 8 {
            shown = with(shown, facts(alloc, &packet, decision));
        }
        packet.release();
    }
    handed.finish();
    if count > 8 {
        return format!(in alloc; "{count} packets, ascending {ascends}");
    }
    shown
}

/// Number, decision, mark, priority and bytes of a packet.
fn facts(alloc: Global, packet: &Packet, decision: Decision) -> Result<String, AllocError> {
    let (number, mark, priority) = (packet.number(), packet.mark(), packet.priority());
    let bytes = hex(alloc, packet.bytes())?;
    format!(in alloc; "{number} {decision:?} {mark} {priority} {bytes}")
}

/// One answer more.
fn with(
    shown: Result<String, AllocError>,
    answer: Result<String, AllocError>,
) -> Result<String, AllocError> {
    let mut shown = shown?;
    add(&mut shown, answer?.as_str())?;
    Ok(shown)
}
