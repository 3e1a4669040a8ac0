//! The passes of one holder: one of each place's lock, and what its calls lost and sent.

ghost use Rattle.std.specs.Prelude.{◌≡◌, ◌≢◌, ◌≤◌, ◌<◌, ◌+◌, ◌^◌, ◌++◌, ◌∷◌, ℕ, List, [], length};
ghost use Rattle.std.specs.Prelude.{Option, Some, IsSome, IfOk, OnOk, IfErr, OnErr};
ghost use Rattle.std.specs.BTreeMap.{get};
ghost use Rattle.std.specs.Ordering.{nat_cmp};
ghost use Rattle.nfqa_msgs.specs.RequestReading.{PayloadFits};
ghost use Rattle.histories.specs.Happenings.{queue_of};
ghost use Rattle.histories.specs.Places.{place_for};
ghost use Rattle.mailbox.specs.declared.view.Post.{Post};
ghost use Rattle.histories.specs.declared.log.AskWords.{AskWords};
ghost use Rattle.histories.specs.declared.log.Did.{Did};
ghost use Rattle.histories.specs.declared.log.Did.TheVariants.{Received, Sent};
ghost use Rattle.packet_moves.specs.HandedOn.{AreInTime};
ghost use Rattle.locked_place.specs.Turns.{ArrivesIn, AsksIn, LooksOn};
ghost use Rattle.place_rows.specs.Rows.{TurnsOne};
ghost use Rattle.place_rows.specs.Shares.{sent_in};
ghost use Rattle.place_turns.specs.Counts.{CanCount, HasCounted, count_of};
ghost use Rattle.place_turns.specs.Places.{places_of};
ghost use Rattle.place_turns.specs.Departures.{HasSeenCome, HasSeenBack, HaveSeenAll, SeeOn};
ghost use Rattle.place_turns.specs.Timely.{Holder, AreTimelyOpen, port_with};

use crate::places::Turns;
use histories::{Lost, queue_of};
use locked_place::{Entrance, Gate, LockedPlace, Placed, Question};
use nfqa_msgs::Request;
use packet_entry::{NoMemory, Packet, Stock};
use place_rows::{own_entries_grow_by_each_turn, rows_know_the_same_without_times};
use queue_core::{Handed, NoRoom, replies_tell_how_many_left};
use std::alloc::Global;
use std::collections::BTreeMap;
use std::marker::Model;
use std::sync::Wait;
use turn_lock::Pass;

/// How many notices were put into each port's mailbox, by port.
pub type Counts = BTreeMap<u32, u64>;

/// A pass of each place's lock; how many notices its turns at each place put into the ports'
/// mailboxes; and the packets that its calls lost.
#[derive(Drop)]
pub struct Passes {
    /// The passes, in the places' order.
    pub row: Vec<Pass<LockedPlace>>,
    /// The counts of each place's turns.
    pub sent: Vec<Counts>,
    /// The packets that were lost, and the room for more of them.
    pub lost: Stock<Lost>,
    /// The latest time that they know.
    pub clock: u64,
}

impl Model for Passes {
    ghost use Rattle.std.specs.Prelude.{map};
    ghost use Rattle.std.specs.Coded.{codes};
    ghost use Rattle.turn_lock.specs.Parts.{tree_code};
    ghost use Rattle.turn_lock.specs.Passes.{view_of};
    ghost use Rattle.place_rows.specs.Rows.{lock_of, known_of};
    ghost use Rattle.place_turns.specs.Counts.{AreCounted};
    ghost use Rattle.place_turns.specs.Passes.{PassesView};

    ghost Value = { PassesView };

    ghost coded = { Prim.hlevel (codes, tree_code) };

    ghost view = { λ p. record {
      locks = map lock_of p.row.items;
      trail = record { known = known_of (map view_of p.row.items); lost = p.lost.items };
      timed = map view_of p.row.items;
      clock = p.clock;
      room = p.lost.room;
    } };

    ghost invariant = { λ p. AreCounted (known_of (map view_of p.row.items)) p.sent.items };
}

impl Passes {
    ghost use Rattle.place_turns.specs.Passes.{AreOf};

    /// A packet arrives at a queue, in a turn at the queue's place. When memory runs out it comes
    /// back, and nothing has happened.
    pub(crate) fn arrive<R: Wait, G: Gate>(
        &mut self,
        turns: &Turns<'_, R, G>,
        alloc: Global,
        queue: u16,
        bypass: bool,
        packet: Packet,
    ) -> Result<Placed, NoRoom>
        requires visited { 1 ≤ packet.visit }
        requires of { AreOf turns.now.places.now self.old.locks self.old.trail.known }
        ensures of { AreOf turns.now.places.now self.new.locks self.new.trail.known }
        ensures turn { IfOk result (λ placed. TurnsOne
            (place_for queue (places_of turns.now.places.now))
            self.old.trail.known self.new.trail.known
            (λ v w. ArrivesIn (record { queue = queue; card = packet; bypass = bypass })
            v w placed)) }
        ensures returned { IfErr result (λ back. back.packet ≡ packet) }
        ensures err { OnErr result (TurnsOne (place_for queue (places_of turns.now.places.now))
            self.old.trail.known self.new.trail.known LooksOn) }
        ensures timely { (h : Holder) → HasSeenCome self.old.timed packet.number packet.visit →
            AreTimelyOpen self.old.clock self.old.timed h →
            AreTimelyOpen self.new.clock self.new.timed h }
        ensures seen { IfOk result (HasSeenBack self.new.timed) }
        ensures on { SeeOn self.old.timed self.new.timed }
        ensures lost { (self.new.trail.lost ≡ self.old.trail.lost)
            × (self.new.room ≡ self.old.room) }
    {
        own_entries_grow_by_each_turn();
        replies_tell_how_many_left();
        rows_know_the_same_without_times();
        let place = turns.places.place_of(queue);
        let at = Entrance {
            rt: turns.rt,
            gate: turns.gate,
            lock: &turns.places.locks[place],
            outlets: &turns.places.outlets,
            place: place as u8,
        };
        let arrived = locked_place::arrive(
            &at,
            alloc,
            &mut self.row[place],
            &mut self.clock,
            queue,
            bypass,
            packet,
        );
        count_notice(&mut self.sent[place], &arrived);
        arrived
    }

    /// A port asks something of a queue, in a turn at the queue's place. What the queue lets go on
    /// is handed out, and there is room for as many lost packets. When memory runs out nothing has
    /// happened.
    pub(crate) fn ask<R: Wait, G: Gate>(
        &mut self,
        turns: &Turns<'_, R, G>,
        alloc: Global,
        port: u32,
        call: u32,
        request: Request,
        handed: &mut Handed,
    ) -> Result<u16, NoMemory>
        requires payload { PayloadFits request }
        requires port { IsSome (get nat_cmp turns.now.places.now.outlets.mailboxes port) }
        requires none { handed.old.items ≡ [] }
        requires of { AreOf turns.now.places.now self.old.locks self.old.trail.known }
        ensures of { AreOf turns.now.places.now self.new.locks self.new.trail.known }
        ensures turn { IfOk result (λ errno. TurnsOne
            (place_for (queue_of request) (places_of turns.now.places.now))
            self.old.trail.known self.new.trail.known
            (λ v w. AsksIn port call request v w errno handed.new.items)) }
        ensures room { OnOk result (length handed.new.items ≤ self.new.room) }
        ensures in_time { OnOk result (AreInTime handed.new.items) }
        ensures lost { self.new.trail.lost ≡ self.old.trail.lost }
        ensures none { OnErr result (handed.new.items ≡ []) }
        ensures err { OnErr result (TurnsOne
            (place_for (queue_of request) (places_of turns.now.places.now))
            self.old.trail.known self.new.trail.known LooksOn) }
        ensures timely { OnOk result ((dids : List Did) (heard : List Post) (words : AskWords)
            (answer : Option ℕ) →
            AreTimelyOpen self.old.clock self.old.timed (port_with port dids heard) →
            AreTimelyOpen self.new.clock self.new.timed
            (port_with port (dids ++ Sent call words answer ∷ []) heard)) }
        ensures seen { OnOk result (HaveSeenAll self.new.timed handed.new.items) }
        ensures still { OnErr result ((h : Holder) →
            AreTimelyOpen self.old.clock self.old.timed h →
            AreTimelyOpen self.new.clock self.new.timed h) }
    {
        own_entries_grow_by_each_turn();
        rows_know_the_same_without_times();
        let place = turns.places.place_of(queue_of(&request));
        let at = Entrance {
            rt: turns.rt,
            gate: turns.gate,
            lock: &turns.places.locks[place],
            outlets: &turns.places.outlets,
            place: place as u8,
        };
        locked_place::ask(
            &at,
            alloc,
            &mut self.row[place],
            &mut self.clock,
            &mut self.lost,
            Question {
                port,
                call,
                request,
            },
            handed,
        )
    }

    /// A letter with this time was received: the clock is then at least as late.
    pub fn hear(&mut self, time: u64)
        ensures same { self.new ≡ record self.old { clock = self.new.clock } }
        ensures timely { (port : ℕ) (dids : List Did) (heard : List Post) (p : Post) →
            p.time ≡ time →
            AreTimelyOpen self.old.clock self.old.timed (port_with port dids heard) →
            AreTimelyOpen self.new.clock self.new.timed (port_with port
            (dids ++ Received p.letter.queue p.letter.number p.letter.visit ∷ [])
            (heard ++ p ∷ [])) }
    {
        self.clock = self.clock.max(time);
    }

    /// How many notices the turns of these passes put into a port's mailbox.
    pub fn sent_to(&self, port: u32) -> u128
        ensures { result ≡ sent_in port self.now.trail.known }
    {
        let mut sent = 0u128;
        for counts in &self.sent {
            sent += u128::from(count_in(counts, port));
        }
        sent
    }
}

/// Counts the notice of a packet that arrived, if one was put into a port's mailbox.
fn count_notice(sent: &mut Counts, arrived: &Result<Placed, NoRoom>)
    requires fits { IfOk arrived.now (CanCount sent.old) }
    ensures counted { IfOk arrived.now (HasCounted sent.old sent.new) }
    ensures err { OnErr arrived.now (sent.new ≡ sent.old) }
{
    if let Ok(Placed::Waiting { port }) = arrived {
        count(sent, *port);
    }
}

/// How many notices these counts say of a port.
fn count_in(counts: &Counts, port: u32) -> u64
    ensures { result ≡ count_of (get nat_cmp counts.now port) }
{
    match counts.get(&port) {
        Some(count) => *count,
        None => 0,
    }
}

/// One notice more was put into a port's mailbox.
fn count(sent: &mut Counts, port: u32)
    requires there { IsSome (get nat_cmp sent.old port) }
    requires few { count_of (get nat_cmp sent.old port) + 1 < 2 ^ 64 }
    ensures more { get nat_cmp sent.new port ≡ Some (count_of (get nat_cmp sent.old port) + 1) }
    ensures others { (p : ℕ) → p ≢ port → get nat_cmp sent.new p ≡ get nat_cmp sent.old p }
{
    let Some(count) = sent.get_mut(&port) else {
        unreachable!()
    };
    *count += 1;
}
