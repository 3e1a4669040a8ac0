//! The packets of a capture's frames, and the arrivals that they ask for.

ghost use Rattle.std.specs.Prelude.{◌≡◌, ◌+◌, ◌^◌, ◌<◌, [], length, flat_map, option_to_list};
ghost use Rattle.std.specs.Prelude.{OnOk, IfOk};
ghost use Rattle.run_parts.specs.Entering.{card_of, cards, micros_of};
ghost use Rattle.histories.specs.Journeys.{entering};
ghost use Rattle.journey_audit.specs.Tallying as tallying;

use crate::arrival::asked_by;
use crate::tally::{Tallies, note_asked};
use hook_chain::{Tables, route_card};
use ip_fields::link_cut;
use packet_entry::{Card, NoMemory};
use pcap_io::{Capture, Frame};
use std::alloc::Global;

/// How many nanoseconds a microsecond has.
const NANOS_IN_A_MICRO: u32 = 1_000;

/// Notes what the packets of a capture ask for as they enter.
pub(crate) fn all_enter(
    alloc: Global,
    tables: &Tables,
    key: u32,
    capture: &Capture,
    tallies: &mut Tallies,
) -> Result<(), NoMemory>
    requires frames { length capture.now.frames + 1 < 2 ^ 32 }
    ensures { OnOk result (tallying.Grows tallies.old tallies.new []
        (flat_map (entering tables.now key) (cards capture.now))) }
{
    let mut number = 1;
    for frame in &capture.frames {
        enter(alloc, tables, key, capture, number, frame, tallies)?;
        number += 1;
    }
    Ok(())
}

/// Notes what the packet of a frame with this number asks for, if the frame is IP.
fn enter(
    alloc: Global,
    tables: &Tables,
    key: u32,
    capture: &Capture,
    number: u32,
    frame: &Frame,
    tallies: &mut Tallies,
) -> Result<(), NoMemory>
    ensures { OnOk result (tallying.Grows tallies.old tallies.new []
        (flat_map (entering tables.now key)
        (option_to_list (card_of capture.now number frame.now)))) }
{
    match opening_card(capture, number, frame)? {
        Some(card) => {
            let next = route_card(tables, key, &card, 1);
            note_asked(alloc, asked_by(next, card, 1), tallies)?;
            Ok(())
        }
        None => Ok(()),
    }
}

/// The card of a frame's packet before it meets a table; `None` of a frame that isn't IP.
fn opening_card(capture: &Capture, number: u32, frame: &Frame) -> Result<Option<Card>, NoMemory>
    ensures { IfOk result (λ card. card ≡ card_of capture.now number frame.now) }
{
    let Some(cut) = link_cut(capture.link, frame.bytes.as_slice()) else {
        return Ok(None);
    };
    Ok(Some(Card {
        number,
        visit: 0,
        table: 0,
        mark: 0,
        priority: 0,
        seconds: frame.seconds,
        micros: micros_of(capture.nanos, frame.fraction),
        protocol: cut.protocol,
        link: frame.bytes.cut(0, cut.length)?,
        bytes: frame.bytes.cut(cut.length, frame.bytes.len())?,
    }))
}

/// A frame's fraction of a second in microseconds, rounded down.
fn micros_of(nanos: bool, fraction: u32) -> u32
    ensures { result ≡ micros_of nanos fraction }
{
    if nanos {
        fraction / NANOS_IN_A_MICRO
    } else {
        fraction
    }
}
