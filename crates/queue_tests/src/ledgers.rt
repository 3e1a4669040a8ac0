//! `fate_ledger`: what became of the packets of a capture at the place of the rows.

ghost use Rattle.std.specs.Prelude.{◌≡◌, ◌≤◌, All, IsTrue, length};
ghost use Rattle.packet_entry.specs.Numbers.{longest_packet};
ghost use Rattle.place_history.specs.Calls.{IsOnly};

use crate::packets::{PACKET, ended, only};
use fate_ledger::{FateLines, counts_text, fates, ledger_text, released_capture};
use histories::{Histories, Lost};
use packet_entry::{Bytes, MAX_FRAME, NoMemory, Sequence};
use pcap_io::{Capture, Frame, Frames};
use place_history::Place;
use std::alloc::Global;
use std::mem;
use std::test::Fail;
use test_inputs::{Row, add, bytes, debug, hex, number};

/// The most frames of a capture.
const MOST: usize = 200_000;

/// Ends the place: the lines of so many frames, `raw COUNT` or `ethernet LENGTH LENGTH ..`, the
/// counts of their fates, and the second and the bytes of each released frame. A packet may be lost
/// at its second visit.
pub fn ledger(alloc: Global, place: &mut Place, row: &Row<'_>) -> Result<String, Fail>
    requires { IsOnly place.old }
    ensures { IsOnly place.new }
{
    let entries = ended(mem::replace(place, only(alloc)));
    let mut lost = Sequence::new(alloc);
    if let Some(number) = row.named_number("lost") {
        lost.push(Lost { number, visit: 2 }).map_err(|_| NoMemory)?;
    }
    let logs = Sequence::new(alloc);
    let histories = Histories {
        entries,
        logs,
        lost,
    };
    let capture = capture(alloc, row)?;
    if capture.frames.len() > MOST {
        return Ok(debug(alloc, "many frames")?);
    }
    let lines = fates(alloc, &capture, &histories)?;
    told(alloc, &capture, &lines)
}

/// The capture that a row describes.
fn capture(alloc: Global, row: &Row<'_>) -> Result<Capture, Fail> {
    let mut frames = Frames::new(alloc);
    let (kind, rest) = row.arguments.split_once(' ').unwrap_or(("", ""));
    if kind == "raw" {
        let (count, _) = rest.split_once(' ').unwrap_or((rest, ""));
        for seconds in 0..number(count) {
            push(
                &mut frames,
                seconds,
                Bytes::copy(alloc, &bytes(alloc, PACKET)?)?,
            )?;
        }
    } else {
        for length in rest.split(' ') {
            let filled = vec![in alloc; 0x46; number(length) as usize]?;
            push(&mut frames, 0, Bytes::from_vec(filled)?)?;
        }
    }
    Ok(Capture {
        big: false,
        nanos: false,
        zone: 0,
        sigfigs: 0,
        snap: 262_144,
        link: if kind == "raw" { 101 } else { 1 },
        frames,
    })
}

fn push(frames: &mut Frames, seconds: u32, bytes: Bytes) -> Result<(), NoMemory> {
    let original = bytes.len() as u32;
    let frame = Frame {
        seconds,
        fraction: 0,
        original,
        bytes,
    };
    frames.push(frame).map_err(|_| NoMemory)
}

/// The ledger and the counts, each with its lines on one, and the released frames.
fn told(alloc: Global, capture: &Capture, lines: &FateLines) -> Result<String, Fail>
    requires { length capture.now.frames ≡ length lines.now }
{
    let mut text = Vec::new(alloc);
    ledger_text(alloc, lines, &mut text)?;
    counts_text(alloc, lines, &mut text)?;
    let mut shown = String::new(alloc);
    for line in str::from_utf8(&text).unwrap_or("no text").lines() {
        add(&mut shown, line)?;
    }
    if !are_short(lines) {
        return Ok(debug(alloc, "a long payload")?);
    }
    let released = released_capture(alloc, capture, lines)?;
    for frame in &released.frames {
        let (seconds, original) = (frame.seconds, frame.original);
        let bytes = hex(alloc, frame.bytes.as_slice())?;
        let shown_frame = format!(in alloc; "{seconds} {original} {bytes}")?;
        add(&mut shown, shown_frame.as_str())?;
    }
    Ok(shown)
}

/// Whether each payload is short enough for a capture.
fn are_short(lines: &FateLines) -> bool
    ensures { IsTrue result → All (λ l. length l.payload ≤ longest_packet) lines.now }
{
    for line in lines {
        if line.payload.len() > MAX_FRAME {
            return false;
        }
    }
    true
}
