//! One queue's history, gone over entry by entry.

ghost use Rattle.std.specs.Prelude.{◌≡◌, ◌≤◌, ◌↔◌, [], Option, None, length, IsTrue, OnOk};
ghost use Rattle.queue_core.specs.State.{Bound};
ghost use Rattle.histories.specs.History as history;
ghost use Rattle.queue_replay.specs.Replays.{port_in};
ghost use Rattle.feeder_audit.specs.Rows as rows;

use crate::lines::{falling_time, feeding_time, lines_before, time_behind};
use crate::ways::Ways;
use histories::{Entry, Event};
use packet_entry::NoMemory;
use queue_replay::Found;
use script_lines::Down;
use std::alloc::Global;

/// A queue's history so far.
#[derive(Drop)]
pub(crate) struct Fed {
    /// How many lines are put in at least.
    pub(crate) placed: usize,
    /// The time where no further line is put in: what comes next isn't earlier.
    pub(crate) time: u64,
    /// How many further lines can have been put in.
    pub(crate) ways: Ways,
}

impl Fed {
    /// A history without an entry. The queue is absent, so any number of lines can be put in.
    pub(crate) fn new() -> Fed
        ensures placed { result.placed ≡ 0 }
        ensures time { result.time ≡ 0 }
        ensures row { rows.row_of result.ways ≡ rows.all }
    {
        Fed {
            placed: 0,
            time: 0,
            ways: Ways::FromHere,
        }
    }

    /// Goes over the next entry, which is a step of the queue. This was found of it. When memory
    /// runs out, what is kept may be any.
    pub(crate) fn follow(
        &mut self,
        alloc: Global,
        downs: &[Down],
        here: Found,
        entry: &Entry,
    ) -> Result<(), NoMemory>
        requires { rows.IsKept downs.now self.old }
        ensures { OnOk result ((queue : Option Bound) → here.port ≡ port_in queue →
            history.IsStep queue entry.now →
            rows.Follows downs.now queue self.old self.new entry.now) }
    {
        self.close(here.port, downs);
        self.go_over(alloc, downs, &entry.event)?;
        Ok(())
    }

    /// Whether all lines can be put into the history, which is over and leaves the queue bound to
    /// this port.
    pub(crate) fn is_whole(mut self, port: Option<u32>, downs: &[Down]) -> bool
        requires { rows.IsKept downs.now self }
        ensures { (queue : Option Bound) → port ≡ port_in queue →
            (IsTrue result ↔ rows.IsFedBy downs.now queue self []) }
    {
        self.close(port, downs);
        self.ways.has(downs.len() - self.placed)
    }

    /// Lines pass, if the queue is bound to no port.
    fn close(&mut self, port: Option<u32>, downs: &[Down])
        requires { rows.IsKept downs.now self.old }
        ensures kept { rows.IsKept downs.now self.new }
        ensures closes { (queue : Option Bound) → port ≡ port_in queue →
            rows.Closes downs.now queue self.old self.new }
    {
        if port.is_none() {
            self.pass(downs);
        }
    }

    /// Lines pass where the queue is absent: from the least number on any can have been put in.
    fn pass(&mut self, downs: &[Down])
        requires { rows.IsKept downs.now self.old }
        ensures { rows.Closes downs.now None self.old self.new }
    {
        let left = &downs[self.placed..];
        match self.ways.least(left.len()) {
            Some(lines) => {
                self.time = time_behind(self.time, left, lines);
                self.placed += lines;
                self.ways = Ways::FromHere;
            }
            None => self.ways = Ways::Nowhere,
        }
    }

    /// What is kept after an event.
    fn go_over(&mut self, alloc: Global, downs: &[Down], event: &Event) -> Result<(), NoMemory>
        requires { self.old.placed ≤ length downs.now }
        ensures { OnOk result (rows.Moves downs.now self.old self.new event.now) }
    {
        match event {
            Event::Arrive { card, .. } => {
                if card.visit == 1 {
                    self.feed(downs, card.number);
                }
                Ok(())
            }
            Event::DeviceDown { device } => self.fall(alloc, downs, *device),
            Event::Ask { .. } => Ok(()),
            Event::PortClosed { .. } => Ok(()),
        }
    }

    /// The packet with this number arrives for the first time: just the lines after earlier frames
    /// are put in, or else this was no feeder's.
    fn feed(&mut self, downs: &[Down], number: u32)
        requires { self.old.placed ≤ length downs.now }
        ensures { rows.Feeds downs.now number self.old self.new }
    {
        let lines = lines_before(number, &downs[self.placed..]);
        let can_be = self.time <= feeding_time(number) && self.ways.has(lines);
        self.placed += lines;
        self.time = feeding_time(number) + 1;
        self.ways = if can_be { Ways::Here } else { Ways::Nowhere };
    }

    /// A device goes down: by the first line that is left, or one behind it.
    fn fall(&mut self, alloc: Global, downs: &[Down], device: u32) -> Result<(), NoMemory>
        requires { self.old.placed ≤ length downs.now }
        ensures { OnOk result (rows.Falls downs.now device self.old self.new) }
    {
        let left = &downs[self.placed..];
        match left.first() {
            Some(first) => {
                self.ways = self.ways.fallen(alloc, device, left)?;
                self.time = falling_time(first.after);
                self.placed += 1;
            }
            None => self.ways = Ways::Nowhere,
        }
        Ok(())
    }
}
