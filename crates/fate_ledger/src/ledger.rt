//! The ledger: what became of each frame, as text.

ghost use Rattle.std.specs.Prelude.{◌≡◌, ◌+◌, ◌≤◌, ◌++◌, length, OnOk, OnErr, codes, decimal};
ghost use Rattle.journals.specs.Appending.{Appends};
ghost use Rattle.journals.specs.Placing.{Placed};
ghost use Rattle.fate_ledger.specs.Ledger as text;

use crate::{Fate, FateLine, FateLines};
use journals::{append_text, append_word, number_is_short, put_number, put_word};
use packet_entry::NoMemory;
use std::alloc::{AllocError, Global};

/// About how many bytes a line has.
const USUAL: usize = 32;
/// A line has at most so many.
const LONGEST: usize = 137;

/// Appends the ledger of these lines. Out of memory nothing has changed.
pub fn ledger_text(alloc: Global, lines: &FateLines, out: &mut Vec<u8>) -> Result<(), NoMemory>
    ensures ok { OnOk result (out.new.items ≡ out.old.items ++ text.ledger lines.now) }
    ensures err { OnErr result (out.new.items ≡ out.old.items) }
{
    let room = lines.len().saturating_add(1).saturating_mul(USUAL);
    let mut ledger = Vec::with_capacity(alloc, room)?;
    push_ledger(lines, &mut ledger)?;
    append_text(ledger, out)
}

fn push_ledger(lines: &FateLines, out: &mut Vec<u8>) -> Result<(), AllocError>
    ensures { OnOk result (out.new.items ≡ out.old.items ++ text.ledger lines.now) }
{
    append_ledger_heading(out)?;
    push_lines(lines, out)
}

/// Appends a ledger's first line. So a ledger can be written line by line: this one, and each
/// frame's ([`append_ledger_line`]).
pub fn append_ledger_heading(out: &mut Vec<u8>) -> Result<(), AllocError>
    ensures { Appends result out.old out.new text.heading }
{
    append_word("record fate queue at mark priority bytes\n", out)
}

fn push_lines(lines: &FateLines, out: &mut Vec<u8>) -> Result<(), AllocError>
    ensures { OnOk result (out.new.items ≡ out.old.items ++ text.lines lines.now) }
{
    for line in lines {
        append_ledger_line(line, out)?;
    }
    Ok(())
}

/// Appends the line of a frame, with its end. Takes no memory where there is room for the line, as
/// [`ledger_line_room`] bytes are. Out of memory nothing has changed.
pub fn append_ledger_line(line: &FateLine, out: &mut Vec<u8>) -> Result<(), AllocError>
    ensures { Appends result out.old out.new (text.line line.now) }
{
    line_is_short(line);
    let mut bytes = [0; LONGEST];
    let end = put_line(line, &mut bytes, 0);
    out.extend_from_slice(&bytes[..end])
}

fn put_line(line: &FateLine, to: &mut [u8], at: usize) -> usize
    requires room { at + length (text.line line.now) ≤ length to.old }
    ensures { Placed to.old to.new at (text.line line.now) result }
{
    let at = put_fate(line, to, at);
    let at = put_place(line.queue, line.at, to, at);
    put_packet(line, to, at)
}

/// The frame's number and what became of it.
fn put_fate(line: &FateLine, to: &mut [u8], at: usize) -> usize
    requires room { at + length (decimal line.now.number ++ codes " "
        ++ text.name line.now.fate ++ codes " ") ≤ length to.old }
    ensures { Placed to.old to.new at (decimal line.now.number ++ codes " "
        ++ text.name line.now.fate ++ codes " ") result }
{
    let at = put_number("", line.number as u64, to, at);
    let at = put_word(" ", to, at);
    let at = put_word(line.fate.name(), to, at);
    put_word(" ", to, at)
}

/// Where the last event stands, `- -` where there is none.
fn put_place(queue: u16, place: u64, to: &mut [u8], at: usize) -> usize
    requires room { at + length (text.place queue place) ≤ length to.old }
    ensures { Placed to.old to.new at (text.place queue place) result }
{
    if place == 0 {
        put_word("- -", to, at)
    } else {
        let at = put_number("", queue as u64, to, at);
        put_number(" ", place, to, at)
    }
}

/// The packet's mark, its priority and the number of its bytes, and the line's end.
fn put_packet(line: &FateLine, to: &mut [u8], at: usize) -> usize
    requires room { at + length (text.packet line.now) ≤ length to.old }
    ensures { Placed to.old to.new at (text.packet line.now) result }
{
    let at = put_number(" ", line.mark as u64, to, at);
    let at = put_number(" ", line.priority as u64, to, at);
    let at = put_number(" ", line.payload.len() as u64, to, at);
    put_word("\n", to, at)
}

/// So many bytes hold the line of a frame with its end.
pub fn ledger_line_room(line: &FateLine) -> usize
    ensures { length (text.line line.now) ≤ result }
{
    line_is_short(line);
    LONGEST
}

fn line_is_short(line: &FateLine)
    ensures { length (text.line line.now) ≤ 137 }
{
    number_is_short(line.number as u64);
    name_is_short(line.fate);
    place_is_short(line.queue, line.at);
    packet_is_short(line);
}

fn name_is_short(fate: Fate)
    ensures { length (text.name fate) ≤ 10 }
{
    match fate {
        Fate::Unhooked => (),
        _ => (),
    }
}

fn place_is_short(queue: u16, place: u64)
    ensures { length (text.place queue place) ≤ 41 }
{
    number_is_short(queue as u64);
    number_is_short(place);
}

fn packet_is_short(line: &FateLine)
    ensures { length (text.packet line.now) ≤ 64 }
{
    number_is_short(line.mark as u64);
    number_is_short(line.priority as u64);
    number_is_short(line.payload.len() as u64);
}
