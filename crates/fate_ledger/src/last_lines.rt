//! The line of each frame, as the last event so far of its packet gives it.

ghost use Rattle.std.specs.Prelude.{◌≡◌, ◌+◌, ◌<◌, ◌^◌, ℕ, [], length, map};
ghost use Rattle.std.specs.Prelude.{IfOk, OnOk};
ghost use Rattle.std.specs.Ordering.{nat_cmp};
ghost use Rattle.std.specs.BTreeSet.{contains};
ghost use Rattle.fate_ledger.specs.Fates as fates;
ghost use Rattle.fate_ledger.specs.Following as following;

use crate::card_view::BytesView;
use crate::happening::Happening;
use crate::{Fate, FateLine, FateLines};
use histories::Losts;
use packet_entry::{Bytes, NoMemory};
use pcap_io::Frames;
use std::alloc::Global;
use std::collections::BTreeSet;
use std::marker::Model;

/// Numbers of packets.
type Numbers = BTreeSet<u32>;

/// The line of each frame so far; that of the frame with number 1 stands first.
#[derive(Debug, Drop)]
pub(crate) struct LastLines<'a> {
    /// The lines, without their payloads.
    lines: Vec<FateLine>,
    /// The payload of each, which isn't shared before it is known to be the last.
    payloads: Vec<BytesView<'a>>,
    /// The visit of the event that gave the line, 0 where none did.
    visits: Vec<u32>,
}

impl<'a> Model for LastLines<'a> {
    ghost use Rattle.std.specs.Prelude.{◌≡◌, length};
    ghost use Rattle.fate_ledger.specs.Following.{AsMany, Kept};

    ghost Value = { Kept };

    ghost view = { λ k. record {
      visits = k.visits.items;
      payloads = k.payloads.items;
      lines = k.lines.items;
    } };

    ghost invariant = { λ k. AsMany k.visits.items k.payloads.items k.lines.items };
}

impl<'a> LastLines<'a> {
    /// The lines of these frames, without an event of any packet.
    pub fn new(alloc: Global, frames: &'a Frames) -> Result<LastLines<'a>, NoMemory>
        requires few { length frames.now + 1 < 2 ^ 32 }
        ensures { IfOk result (λ kept. kept ≡ following.lasts [] 1 frames.now) }
    {
        let mut lines = Vec::with_capacity(alloc, frames.len())?;
        let mut payloads = Vec::with_capacity(alloc, frames.len())?;
        for frame in frames {
            let number = lines.len() as u32 + 1;
            lines.push(line_without(alloc, number))?;
            payloads.push(BytesView::new(&frame.bytes))?;
        }
        let visits = Vec::from_elem(alloc, 0, frames.len())?;
        Ok(LastLines {
            lines,
            payloads,
            visits,
        })
    }

    /// Keeps the line of an event where it is the last of its packet so far: visits count up.
    #[inline(always)]
    pub fn note(&mut self, happening: Happening<'a>)
        ensures { self.new ≡ following.noted happening.entry self.old }
    {
        let number = happening.card.number() as usize;
        if number == 0 || number > self.visits.len() {
            return;
        }
        let visit = happening.card.visit();
        if self.visits[number - 1] <= visit {
            self.visits[number - 1] = visit;
            self.payloads[number - 1] = happening.card.bytes();
            tell(&happening, &mut self.lines[number - 1]);
        }
    }

    /// The lines, where packets that were lost between two queues have the fate of these.
    pub fn into_lines(self, alloc: Global, losts: &Losts) -> Result<FateLines, NoMemory>
        ensures { IfOk result (λ lines. lines
            ≡ map (following.lost_line (fates.is_lost losts.now))
            (following.with_payloads self.entry.payloads self.entry.lines)) }
    {
        let LastLines {
            mut lines,
            payloads,
            ..
        } = self;
        put_payloads(&payloads, &mut lines)?;
        if losts.is_empty() {
            return Ok(FateLines::from_vec(lines));
        }
        let lost = lost_numbers(alloc, losts)?;
        lose_all(&lost, &mut lines);
        Ok(FateLines::from_vec(lines))
    }
}

/// The line of a frame with this number, whose packet has no event, without its payload.
#[inline(always)]
fn line_without(alloc: Global, number: u32) -> FateLine
    ensures { result ≡ following.untold_line number }
{
    FateLine {
        number,
        fate: Fate::Unhooked,
        queue: 0,
        at: 0,
        mark: 0,
        priority: 0,
        payload: Bytes::new(alloc),
    }
}

/// A line tells of an event now. Its payload stays.
#[inline(always)]
fn tell(happening: &Happening<'_>, line: &mut FateLine)
    ensures { line.new ≡ following.told_line happening.now line.old }
{
    line.fate = happening.fate;
    line.queue = happening.queue;
    line.at = happening.at;
    line.mark = happening.card.mark();
    line.priority = happening.card.priority();
}

/// Each line gets its payload.
fn put_payloads(payloads: &Vec<BytesView<'_>>, lines: &mut Vec<FateLine>) -> Result<(), NoMemory>
    requires { length payloads.now.items ≡ length lines.old.items }
    ensures { OnOk result (lines.new.items
        ≡ following.with_payloads payloads.now.items lines.old.items) }
{
    for at in 0..lines.len() {
        lines[at].payload = payloads[at].share()?;
    }
    Ok(())
}

/// The numbers of the packets that were lost.
fn lost_numbers(alloc: Global, losts: &Losts) -> Result<Numbers, NoMemory>
    ensures { IfOk result (λ numbers. (number : ℕ) →
        contains nat_cmp numbers number ≡ fates.is_lost losts.now number) }
{
    let mut numbers = Numbers::new(alloc);
    for one in losts {
        numbers.insert(one.number)?;
    }
    Ok(numbers)
}

/// Packets with these numbers were lost.
fn lose_all(lost: &Numbers, lines: &mut Vec<FateLine>)
    ensures { lines.new.items
        ≡ map (following.lost_line (contains nat_cmp lost.now)) lines.old.items }
{
    for at in 0..lines.len() {
        lose(lost, &mut lines[at]);
    }
}

/// A packet was lost if its number is one of these.
fn lose(lost: &Numbers, line: &mut FateLine)
    ensures { line.new ≡ following.lost_line (contains nat_cmp lost.now) line.old }
{
    if lost.contains(&line.number) {
        line.fate = Fate::NoMemory;
    }
}
