//! The listing of the bound queues.

ghost use Rattle.std.specs.Prelude.{◌≡◌, ◌≢◌, ◌++◌, ℕ, Some, IfOk, OnOk, OnErr};
ghost use Rattle.std.specs.Prelude.{string_bytes, option_map};
ghost use Rattle.std.specs.BTreeMap.{get};
ghost use Rattle.std.specs.Ordering.{nat_cmp};
ghost use Rattle.histories.specs.Listing as text;
ghost use Rattle.place_history.specs.PlaceInvariant.{IsReplayed};
ghost use Rattle.place_history.specs.Changes.{queue_at};
ghost use Rattle.place_history.specs.Lines.{AreLined};

use super::bound::Queues;
use super::endings::next_bound;
use super::held::Held;
use packet_entry::{Bytes, NoMemory};
use queue_core::Queue;
use std::alloc::{AllocError, Global};
use std::collections::BTreeMap;
use std::string::String;

/// The lines of queues in the listing, by queue number.
pub type Lines = BTreeMap<u16, Bytes>;

/// Appends a line for each bound queue, by ascending number. `NoMemory` leaves `out` as it was.
pub(super) fn listing(held: &Held, alloc: Global, out: &mut Vec<u8>) -> Result<(), NoMemory>
    requires replayed { IsReplayed held.now }
    ensures ok { OnOk result (out.new.items
        ≡ out.old.items ++ text.listing held.now.entries.items) }
    ensures err { OnErr result (out.new.items ≡ out.old.items) }
{
    let lines = lines(held, alloc)?;
    Ok(out.extend_from_slice(&lines)?)
}

/// Puts the line of each bound queue into others, by its number. After `NoMemory` some of the lines
/// are there.
pub(super) fn put_lines(held: &Held, alloc: Global, lines: &mut Lines) -> Result<(), NoMemory>
    requires replayed { IsReplayed held.now }
    ensures { OnOk result (AreLined held.now.entries.items lines.old lines.new) }
{
    let mut from = 0u32;
    while let Some(number) = next_bound(held, from) {
        let line = line_at(&held.queues, alloc, number)?;
        put_line(lines, number, Bytes::copy(alloc, line.as_bytes())?)?;
        from = number as u32 + 1;
    }
    Ok(())
}

/// Puts a queue's line among others.
fn put_line(lines: &mut Lines, number: u16, line: Bytes) -> Result<(), NoMemory>
    ensures put { OnOk result (get nat_cmp lines.new number ≡ Some line) }
    ensures others { OnOk result ((q : ℕ) → q ≢ number →
        get nat_cmp lines.new q ≡ get nat_cmp lines.old q) }
{
    lines.insert(number, line)?;
    Ok(())
}

/// The lines of all bound queues.
fn lines(held: &Held, alloc: Global) -> Result<Vec<u8>, NoMemory>
    requires replayed { IsReplayed held.now }
    ensures { IfOk result (λ lines. lines.items ≡ text.listing held.now.entries.items) }
{
    let mut lines = Vec::new(alloc);
    let mut from = 0u32;
    while let Some(number) = next_bound(held, from) {
        let line = line_at(&held.queues, alloc, number)?;
        lines.extend_from_slice(line.as_bytes())?;
        from = number as u32 + 1;
    }
    Ok(lines)
}

/// The line of a queue; none where it is absent.
fn line_at(queues: &Queues, alloc: Global, number: u16) -> Result<String, AllocError>
    ensures { IfOk result (λ line. string_bytes line
        ≡ text.line_of number (option_map (λ q. q.state) (queue_at queues.now number))) }
{
    match queues.get(&number) {
        None => Ok(String::new(alloc)),
        Some(queue) => line(queue, alloc, number),
    }
}

/// The line of a bound queue, in the columns of /proc/net/netfilter/nfnetlink_queue.
fn line(queue: &Queue, alloc: Global, number: u16) -> Result<String, AllocError>
    ensures { IfOk result (λ line. string_bytes line ≡ text.line number queue.now.state) }
{
    let mut line = String::new(alloc);
    push_column(&mut line, alloc, 5, number as u32)?;
    push_column(&mut line, alloc, 6, queue.port())?;
    push_column(&mut line, alloc, 5, queue.waiting())?;
    push_column(&mut line, alloc, 1, queue.mode() as u32)?;
    push_column(&mut line, alloc, 5, queue.range())?;
    push_column(&mut line, alloc, 5, queue.dropped())?;
    push_column(&mut line, alloc, 5, queue.user_dropped())?;
    push_column(&mut line, alloc, 8, queue.last())?;
    push_number(&mut line, alloc, 2, 1)?;
    line.push_str("\n")?;
    Ok(line)
}

/// Appends a number in a column of this width, and the blank after it.
fn push_column(line: &mut String, alloc: Global, width: usize, n: u32) -> Result<(), AllocError>
    ensures { OnOk result (string_bytes line.new ≡ string_bytes line.old ++ text.column width n) }
{
    push_number(line, alloc, width, n)?;
    line.push_str(" ")
}

/// Appends a number at the right of a column of this width; a longer number stands in full.
fn push_number(line: &mut String, alloc: Global, width: usize, n: u32) -> Result<(), AllocError>
    ensures { OnOk result
        (string_bytes line.new ≡ string_bytes line.old ++ text.right_aligned width n) }
{
    let digits = format!(in alloc; "{n}")?;
    let blanks = width.saturating_sub(digits.len());
    for _ in 0..blanks {
        line.push_str(" ")?;
    }
    line.push_str(&digits)
}
