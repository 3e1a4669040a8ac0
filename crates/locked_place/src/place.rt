//! A place with all that it posts: what one lock is round.

ghost use Rattle.std.specs.Prelude.{◌≡◌, ◌≤◌, ◌<◌, ◌^◌, ◌++◌, ℕ, List, [], length, map};
ghost use Rattle.std.specs.Prelude.{IfSome, IsSome, IfOk, OnOk, IfErr, OnErr};
ghost use mathlib.Core.List.{IsPrefix};
ghost use Rattle.nfqa_msgs.specs.RequestReading.{PayloadFits};
ghost use Rattle.histories.specs.declared.entry.Entry.{Entry};
ghost use Rattle.histories.specs.History.{AreLegal};
ghost use Rattle.histories.specs.States.{told, taken_in};
ghost use Rattle.histories.specs.Happenings.{queue_of, closings, downs};
ghost use Rattle.histories.specs.Places.{place_for};
ghost use Rattle.packet_moves.specs.HandedOn.{AreInTime};
ghost use Rattle.place_history.specs.Numbers.{most_places};
ghost use Rattle.place_history.specs.Lines.{AreLined};
ghost use Rattle.place_history.specs.PlaceState.{AreHere};

use crate::arrivals::{Placed, finish};
use crate::laws::mails_keep_up;
use crate::outlets::Outlets;
use crate::showing::{legal_at, publish, short_at};
use crate::stamps::Stamps;
use crate::turns::Question;
use crate::{requests, senders_keep_up};
use glance::Writer;
use histories::{Entries, Entry, Lost};
use mailbox::Sender;
use nfqa_msgs::Request;
use packet_entry::{NoMemory, Packet, Stock};
use place_history::{Lines, Place};
use queue_core::{Handed, NoRoom};
use std::alloc::Global;
use std::collections::BTreeMap;
use std::marker::Model;
use std::sync::Wait;
use turn_lock::Storied;

/// A place, a sender for each port's mailbox, by port, and the Writer of what the board shows of
/// the place. Whenever no call is at it, each queue is the replay of its legal history, each sender
/// sent just the notices of the arrivals that were taken under its port, and the board shows the
/// place's totals, where they fit its word.
///
/// It is no `Drop`: it ends by `end`.
pub struct LockedPlace {
    place: Place,
    senders: BTreeMap<u32, Sender>,
    writer: Writer,
    /// The time of each entry.
    stamps: Stamps,
    /// The time of the latest turn.
    latest: u64,
}

impl Model for LockedPlace {
    ghost use Rattle.locked_place.specs.Views.{LockedView};

    ghost Value = { LockedView };

    ghost use Rattle.locked_place.specs.Views.{locked_of, IsLockedPlace, senders_of};

    ghost view = { λ p. locked_of p.place p.senders p.writer p.stamps p.latest };

    ghost invariant = { λ p.
        IsLockedPlace p.place (senders_of p.senders) p.writer p.stamps p.latest };
}

impl Storied for LockedPlace {
    ghost use Rattle.locked_place.specs.Views.{PlaceLabel, label_of, timed_entries};

    type Entry = (Entry, u64);

    ghost Label = { PlaceLabel };

    ghost entries = { timed_entries };

    ghost label = { label_of };
}

/// What is left of a place that ended.
#[derive(Drop)]
pub struct Left {
    /// All that happened, in its order.
    pub entries: Entries,
    /// The time of each entry.
    pub stamps: Stamps,
    /// Each port's sender, by port, to be joined into the port's receiver.
    pub senders: BTreeMap<u32, Sender>,
}

impl LockedPlace {
    ghost use Rattle.mailbox.specs.Views.{SenderView};
    ghost use Rattle.locked_place.specs.Views.{label_of, sender_in, senders_of, AreOutletsOf};
    ghost use Rattle.locked_place.specs.Views.{AreNotified};
    ghost use Rattle.locked_place.specs.Shown.{IsShown};
    ghost use Rattle.locked_place.specs.Turns.{Arrives, Asks, HasSender, handed_by};
    ghost use Rattle.locked_place.specs.Views.{StampsAll};
    ghost use Rattle.locked_place.specs.Times.{AreTimed, AreMailed, timed};

    /// The place with this number among so many, to which nothing has happened, with stamps of no
    /// entry. Takes no memory.
    pub fn new(
        alloc: Global,
        number: u8,
        places: u8,
        senders: BTreeMap<u32, Sender>,
        writer: Writer,
        stamps: Stamps,
    ) -> LockedPlace
        requires number { (number < places) × (places ≤ most_places) }
        requires senders { (port : ℕ) → IfSome (senders_of senders port)
            (λ (s : SenderView). (s.sent ≡ []) × (s.mails ≡ []) × (s.full ≡ 0)) }
        requires writer { (writer.place ≡ number) × (writer.published ≡ []) }
        requires stamps { stamps ≡ [] }
        ensures { result ≡ record {
          number = number;
          places = places;
          senders = senders.entries;
          writer = writer;
          entries = [];
          times = [];
          latest = 0;
        } }
    {
        LockedPlace {
            place: Place::new(alloc, number, places),
            senders,
            writer,
            stamps,
            latest: 0,
        }
    }

    /// Begins a turn, whose time is later than this clock and than every time here. After so many
    /// turns that 64 bits can't count them, no further one begins.
    pub fn begin_turn<R: Wait>(&mut self, rt: &R, clock: u64) -> u64
        ensures later { (clock < result) × (self.old.latest < result) }
        ensures in_time { AreTimed self.old.entries self.old.times self.old.latest }
        ensures now { self.new ≡ record self.old { latest = result } }
    {
        let late = clock.max(self.latest);
        if late == u64::MAX {
            for _ in rt.forever() {}
            unreachable!()
        }
        self.latest = late + 1;
        self.latest
    }

    /// A packet arrives: it waits, and its notice is in the mailbox of its queue's port; or it
    /// comes back. The board shows it. When memory runs out nothing has happened.
    pub fn arrive<R: Wait>(
        &mut self,
        rt: &R,
        alloc: Global,
        outlets: &Outlets,
        queue: u16,
        bypass: bool,
        packet: Packet,
    ) -> Result<Placed, NoRoom>
        requires outlets { AreOutletsOf outlets.now (label_of self.old) }
        requires here { place_for queue self.old.places ≡ self.old.number }
        requires visited { 1 ≤ packet.visit }
        ensures label { label_of self.new ≡ label_of self.old }
        ensures stamped { StampsAll self.old self.new }
        ensures arrives { IfOk result
            (Arrives (record { queue = queue; card = packet; bypass = bypass })
            self.old.entries self.new.entries) }
        ensures sender { IfOk result (HasSender (sender_in self.old.senders)) }
        ensures begins { IsPrefix self.old.entries self.new.entries }
        ensures legal { AreLegal self.new.entries }
        ensures short { length self.new.entries < 2 ^ 64 }
        ensures returned { IfErr result (λ back. back.packet ≡ packet) }
        ensures err { OnErr result (self.new.entries ≡ self.old.entries) }
    {
        let Outlets { mailboxes, board } = outlets;
        legal_at(&self.place);
        short_at(&self.place);
        let before = self.place.entries().len();
        let begun = self.place.begin(alloc, queue, bypass, packet)?;
        let placed = finish(
            rt,
            mailboxes,
            &mut self.place,
            &mut self.senders,
            begun,
            self.latest,
        );
        stamp_new(&self.place, before, &mut self.stamps, self.latest);
        publish(&self.place, &mut self.writer, board);
        legal_at(&self.place);
        short_at(&self.place);
        Ok(placed)
    }

    /// A port that has a sender asks something of a queue, by the message with the number `call`
    /// among its messages, and the errno is answered. What the queue lets go on is handed out, and
    /// there is room in `lost` for as many. The board shows it. When memory runs out nothing has
    /// happened.
    pub fn ask(
        &mut self,
        alloc: Global,
        outlets: &Outlets,
        lost: &mut Stock<Lost>,
        question: Question,
        handed: &mut Handed,
    ) -> Result<u16, NoMemory>
        requires outlets { AreOutletsOf outlets.now (label_of self.old) }
        requires here { place_for (queue_of question.request) self.old.places ≡ self.old.number }
        requires payload { PayloadFits question.request }
        requires port { IsSome (sender_in self.old.senders question.port) }
        ensures label { label_of self.new ≡ label_of self.old }
        ensures stamped { StampsAll self.old self.new }
        ensures asks { IfOk result (Asks question.port question.call question.request
            self.old.entries self.new.entries) }
        ensures handed { OnOk result (handed.new.items ≡ handed.old.items
            ++ handed_by question.port question.call question.request self.old.entries) }
        ensures room { OnOk result (length
            (handed_by question.port question.call question.request self.old.entries)
            ≤ lost.new.room) }
        ensures in_time { OnOk result (AreInTime
            (handed_by question.port question.call question.request self.old.entries)) }
        ensures lost { lost.new.items ≡ lost.old.items }
        ensures begins { IsPrefix self.old.entries self.new.entries }
        ensures legal { AreLegal self.new.entries }
        ensures short { length self.new.entries < 2 ^ 64 }
        ensures err { OnErr result ((self.new.entries ≡ self.old.entries)
            × (handed.new.items ≡ handed.old.items)) }
    {
        let before = self.place.entries().len();
        let Question {
            port,
            call,
            request,
        } = question;
        let asked = requests::ask(alloc, &mut self.place, lost, port, call, request, handed);
        stamp_new(&self.place, before, &mut self.stamps, self.latest);
        publish(&self.place, &mut self.writer, &outlets.board);
        legal_at(&self.place);
        short_at(&self.place);
        asked
    }

    /// A port closes: each queue that is bound to it ends, with all that waits in it destroyed.
    /// Answers how many packets were destroyed; the number stops at 4,294,967,295. The board shows
    /// it. Takes no memory.
    pub fn close_port(&mut self, outlets: &Outlets, port: u32) -> u32
        requires outlets { AreOutletsOf outlets.now (label_of self.old) }
        ensures label { label_of self.new ≡ label_of self.old }
        ensures stamped { StampsAll self.old self.new }
        ensures count { result ≡ told (taken_in (closings port self.old.entries)) }
        ensures entries { self.new.entries ≡ self.old.entries ++ closings port self.old.entries }
        ensures legal { AreLegal self.new.entries }
        ensures short { length self.new.entries < 2 ^ 64 }
    {
        senders_keep_up();
        mails_keep_up();
        let before = self.place.entries().len();
        let destroyed = self.place.close_port(port);
        stamp_new(&self.place, before, &mut self.stamps, self.latest);
        publish(&self.place, &mut self.writer, &outlets.board);
        legal_at(&self.place);
        short_at(&self.place);
        destroyed
    }

    /// A device goes down: where it is one of the two by which every packet comes in and goes out,
    /// all that waits is destroyed. Answers how many packets were destroyed; the number stops at
    /// 4,294,967,295. The board shows it. When memory runs out nothing has happened.
    pub fn device_down(&mut self, outlets: &Outlets, device: u32) -> Result<u32, NoMemory>
        requires outlets { AreOutletsOf outlets.now (label_of self.old) }
        ensures label { label_of self.new ≡ label_of self.old }
        ensures stamped { StampsAll self.old self.new }
        ensures count { IfOk result
            (λ count. count ≡ told (taken_in (downs device self.old.entries))) }
        ensures entries { OnOk result (self.new.entries
            ≡ self.old.entries ++ downs device self.old.entries) }
        ensures legal { AreLegal self.new.entries }
        ensures short { length self.new.entries < 2 ^ 64 }
        ensures err { OnErr result (self.new.entries ≡ self.old.entries) }
    {
        senders_keep_up();
        mails_keep_up();
        legal_at(&self.place);
        short_at(&self.place);
        let before = self.place.entries().len();
        let destroyed = self.place.device_down(device)?;
        stamp_new(&self.place, before, &mut self.stamps, self.latest);
        publish(&self.place, &mut self.writer, &outlets.board);
        legal_at(&self.place);
        short_at(&self.place);
        Ok(destroyed)
    }

    /// Puts the line of each bound queue into others, by its number, for a listing of several
    /// places. After `NoMemory` some of the lines are there.
    pub fn put_lines(&self, alloc: Global, lines: &mut Lines) -> Result<(), NoMemory>
        ensures { OnOk result (AreLined self.now.entries lines.old lines.new) }
    {
        self.place.put_lines(alloc, lines)
    }

    /// All that happened, in its order, and what is kept of it: of each queue its history, which is
    /// legal; each sender sent the notices of the arrivals that were taken under its port, and as
    /// many letters came back to it as arrivals under the port found no room; and the totals that
    /// were published are those of beginnings of the list, the last of the whole list where they
    /// fit the board's word.
    pub fn entries(&self) -> &[Entry]
        ensures value { result.now ≡ self.now.entries }
        ensures legal { AreLegal self.now.entries }
        ensures here { AreHere self.now.places self.now.number self.now.entries }
        ensures notified { AreNotified self.now.entries (sender_in self.now.senders) }
        ensures shown { IsShown self.now.entries self.now.writer.published }
        ensures writes_for { self.now.writer.place ≡ self.now.number }
    {
        self.place.entries()
    }

    /// Ends the place: its entries, and its senders. What waits is given up. Takes no memory.
    pub fn end(self) -> Left
        ensures entries { result.entries ≡ self.entries }
        ensures legal { AreLegal result.entries }
        ensures here { AreHere self.places self.number result.entries }
        ensures senders { senders_of result.senders ≡ sender_in self.senders }
        ensures notified { AreNotified result.entries (senders_of result.senders) }
        ensures in_time { AreTimed result.entries result.stamps self.latest }
        ensures times { result.stamps ≡ self.times }
        ensures mailed { AreMailed (timed result.entries result.stamps)
            (senders_of result.senders) }
    {
        let LockedPlace {
            mut place,
            senders,
            writer: _,
            stamps,
            latest: _,
        } = self;
        place.leave_waiting();
        Left {
            entries: place.into_entries(),
            stamps,
            senders,
        }
    }
}

/// Stamps what was appended to so many entries, all with this time.
fn stamp_new(place: &Place, before: usize, stamps: &mut Stamps, time: u64)
    requires { before ≤ length place.now.entries }
    ensures { (old more : List Entry) → length old ≡ before → place.now.entries ≡ old ++ more →
        stamps.new ≡ stamps.old ++ map (λ e. time) more }
{
    stamps.stamp_all(place.entries().len() - before, time);
}
