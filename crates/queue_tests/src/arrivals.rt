//! Packets that arrive at the place of the rows.

ghost use Rattle.std.specs.Prelude.{◌≤◌};
ghost use Rattle.place_history.specs.Calls.{IsOnly};

use crate::packets::{bytes_of, visiting};
use packet_entry::{Letter, NoMemory, Packet};
use place_history::Place;
use queue_core::{Begun, NoRoom, Outcome, Settled};
use std::alloc::Global;
use std::fmt::Write;
use std::test::Fail;
use test_inputs::{Row, debug, hex};

/// How a packet arrives at a queue: by a rule or a verdict with the bypass or without, and with
/// room in the port's mailbox or without.
#[derive(Clone, Copy)]
struct Way {
    queue: u16,
    bypass: bool,
    room: bool,
}

impl Way {
    fn of(row: &Row<'_>) -> Way {
        Way {
            queue: (row.named_number("queue").unwrap_or(0) % 65_536) as u16,
            bypass: row.has("bypass"),
            room: !row.has("full"),
        }
    }
}

/// A packet's arrival, and where the row asks for it the notice that was offered.
pub fn arrive(alloc: Global, place: &mut Place, row: &Row<'_>) -> Result<String, Fail>
    requires { IsOnly place.old }
    ensures { IsOnly place.new }
{
    let visit = row.named_number("visit").unwrap_or(1);
    let number = row.named_number("packet").unwrap_or(1);
    let packet = visiting(alloc, number, visit, &bytes_of(alloc, row)?)?;
    let (outcome, notice) = arrived(alloc, place, Way::of(row), packet)?;
    let mut shown = debug(alloc, outcome)?;
    if row.has("told") {
        shown.push_str(offered(alloc, &notice)?.as_str())?;
    }
    Ok(shown)
}

/// A port and its notice, printed.
fn offered(alloc: Global, notice: &Option<(u32, Letter)>) -> Result<String, Fail> {
    let Some((port, letter)) = notice else {
        return Ok(String::new(alloc));
    };
    let (queue, number, visit) = (letter.queue, letter.number, letter.visit);
    let bytes = hex(alloc, letter.bytes.as_slice())?;
    Ok(format!(in alloc; "; {port} {queue} {number} {visit} {bytes}")?)
}

/// What becomes of a packet, and the port and the notice where one was offered.
fn arrived(
    alloc: Global,
    place: &mut Place,
    way: Way,
    packet: Packet,
) -> Result<(Outcome, Option<(u32, Letter)>), NoMemory>
    requires only { IsOnly place.old }
    requires visited { 1 ≤ packet.visit }
    ensures { IsOnly place.new }
{
    let notice = match place.begin(alloc, way.queue, way.bypass, packet) {
        Ok(Begun::Offered { port, letter }) => (port, letter),
        Ok(Begun::Back { outcome, packet }) => {
            packet.destroy();
            return Ok((outcome, None));
        }
        Err(NoRoom { packet }) => {
            packet.destroy();
            return Err(NoMemory);
        }
    };
    match place.settle(way.room) {
        Settled::Waiting { id } => Ok((Outcome::Taken { id }, Some(notice))),
        Settled::Back { outcome, packet } => {
            packet.destroy();
            Ok((outcome, Some(notice)))
        }
    }
}

/// So many packets arrive: how many the queue takes.
pub fn many(alloc: Global, place: &mut Place, row: &Row<'_>) -> Result<String, Fail>
    requires { IsOnly place.old }
    ensures { IsOnly place.new }
{
    let way = Way::of(row);
    let bytes = bytes_of(alloc, row)?;
    let mut taken = 0u32;
    for number in 0..row.named_number("count").unwrap_or(0) {
        let packet = visiting(alloc, number.wrapping_add(1), 1, &bytes)?;
        if let (Outcome::Taken { id: _ }, _) = arrived(alloc, place, way, packet)? {
            taken = taken.saturating_add(1);
        }
    }
    Ok(debug(alloc, taken)?)
}
