//! A place: queues by number, with all that happened at them.

ghost use Rattle.std.specs.Prelude.{◌≡◌, ◌≢◌, ◌≤◌, ◌<◌, ◌++◌, ◌⊎◌, [], None, true, false};
ghost use Rattle.std.specs.Prelude.{length, IfSome, IfOk, IfErr, OnOk, OnErr, option_map};
ghost use Rattle.packet_entry.specs.Numbers.{longest_payload};
ghost use Rattle.queue_core.specs.declared.event.Event.TheVariants.{Ask};
ghost use Rattle.queue_core.specs.declared.event.Reply.TheVariants.{Answer};
ghost use Rattle.queue_core.specs.State.{Bound};
ghost use Rattle.place_history.specs.Numbers.{most_places};
ghost use Rattle.histories.specs.History.{AreLegal};
ghost use Rattle.place_history.specs.PlaceState.{IsAt, AreHere, after_event};
ghost use Rattle.histories.specs.States.{step_of, told};
ghost use Rattle.histories.specs.States.{taken_in, waiting_in_all, state_of, waiting_at};
ghost use Rattle.place_history.specs.Calls.{BeginsAs, after_begin, SettlesAs, with_all};
ghost use Rattle.histories.specs.Happenings.{arrive};
ghost use Rattle.histories.specs.Happenings.{queue_of, payload_of, all_handed, closings, downs};
ghost use Rattle.histories.specs.Listing as text;
ghost use Rattle.place_history.specs.Lines.{AreLined};

mod arrivals;
mod bound;
mod endings;
mod held;
mod listing;
mod requests;

use self::held::{Held, Offer, make_room};
pub use self::listing::Lines;
use self::requests::{Asker, ConfigRequest};
use histories::{Entries, Entry};
use nfqa_msgs::Request;
use packet_entry::{BufferPool, Bytes, NoMemory, Packet};
use queue_core::{Begun, Handed, NoRoom, Settled};
use std::alloc::Global;
use std::marker::Model;

/// Queues by number, each the replay of its stored history: what the sequential queue makes of its
/// entries. Of several places, a queue is at the one whose number is the queue's number modulo how
/// many places there are. By its structure a call at one queue costs the queue's own work, and
/// besides, on the average of many, no more than the logarithm of the number of bound queues: none
/// goes over the history, but for one that has to move it to more room.
///
/// It is no `Drop`: it ends by `into_entries`.
pub struct Place {
    number: u8,
    places: u8,
    held: Held,
    /// Whether the waiting packets were given up.
    is_left: bool,
    /// Buffers for notices.
    pool: BufferPool,
}

impl Model for Place {
    ghost use Rattle.std.specs.Prelude.{option_map};
    ghost use Rattle.place_history.specs.PlaceState.{PlaceState};
    ghost use Rattle.place_history.specs.PlaceInvariant.{as_arrival, IsPlace};

    ghost Value = { PlaceState };

    ghost view = { λ p. record {
      number = p.number;
      places = p.places;
      entries = p.held.entries.items;
      offer = option_map as_arrival p.held.offer;
      is_left = p.is_left;
    } };

    ghost invariant = { λ p. IsPlace p.number p.places p.is_left p.held };
}

impl Place {
    /// The place with this number among so many, without queues. Takes no memory.
    pub fn new(alloc: Global, number: u8, places: u8) -> Place
        requires number { number < places }
        requires places { places ≤ most_places }
        ensures { result ≡ record {
          number = number;
          places = places;
          entries = [];
          offer = None;
          is_left = false;
        } }
    {
        Place {
            number,
            places,
            held: Held::new(alloc),
            is_left: false,
            pool: BufferPool::new(alloc),
        }
    }

    /// Begins the arrival of a packet, which a rule or a verdict with or without the bypass sent
    /// there. Where no notice is to be offered, the arrival has happened then: its entry is
    /// appended, and the packet comes back, to be sent on or destroyed as the outcome says.
    /// Otherwise the notice is for the queue's port, the packet stands offered, and of the calls
    /// that change the place only [`settle`](Place::settle) may follow. When memory runs out the
    /// packet comes back, and nothing has changed.
    pub fn begin(
        &mut self,
        alloc: Global,
        queue: u16,
        bypass: bool,
        packet: Packet,
    ) -> Result<Begun, NoRoom>
        requires here { IsAt self.old queue }
        requires visited { 1 ≤ packet.visit }
        requires no_offer { self.old.offer ≡ None }
        requires standing { self.old.is_left ≡ false }
        ensures begun { IfOk result (λ begun. BeginsAs begun
            (record { queue = queue; card = packet; bypass = bypass }) self.old.entries) }
        ensures state { IfOk result (λ begun. self.new ≡ after_begin begun
            (record { queue = queue; card = packet; bypass = bypass }) self.old) }
        ensures returned { IfErr result (λ back. back.packet ≡ packet) }
        ensures err { OnErr result (self.new ≡ self.old) }
    {
        let Ok(card) = packet.card(alloc) else {
            return Err(NoRoom { packet });
        };
        if make_room(&mut self.held, 1).is_err() {
            return Err(NoRoom { packet });
        }
        let arrival = Offer {
            queue,
            card,
            bypass,
        };
        arrivals::begin(&mut self.held, alloc, arrival, packet, &mut self.pool)
    }

    /// Settles what was begun: its entry is appended. `room` says whether the port's mailbox took
    /// the notice. The packet waits, or comes back, to be sent on or destroyed as the outcome says.
    /// Takes no memory.
    pub fn settle(&mut self, room: bool) -> Settled
        requires offered { self.old.offer ≢ None }
        requires standing { self.old.is_left ≡ false }
        ensures settled { IfSome self.old.offer (λ a. SettlesAs result a room self.old.entries) }
        ensures state { IfSome self.old.offer (λ a.
            self.new ≡ after_event self.old a.queue (arrive a room)) }
    {
        arrivals::settle(&mut self.held, room)
    }

    /// Keeps the memory of a notice's bytes, which end, for another notice.
    pub fn give_back(&mut self, alloc: Global, bytes: Bytes)
        ensures { self.new ≡ self.old }
    {
        self.pool.give(alloc, bytes);
    }

    /// A port asks something of a queue, by the message with the number `call` among its messages:
    /// the entry is appended, and its errno answered. What left with another decision than to drop
    /// it is handed out, in its order; what is dropped is destroyed. A refused request changes
    /// nothing else. `NoMemory` leaves the place and `handed` as they were.
    pub fn ask(
        &mut self,
        alloc: Global,
        port: u32,
        call: u32,
        request: Request,
        handed: &mut Handed,
    ) -> Result<u16, NoMemory>
        requires here { IsAt self.old (queue_of request) }
        requires payload { IfSome (payload_of request) (λ bytes. length bytes ≤ longest_payload) }
        requires no_offer { self.old.offer ≡ None }
        requires standing { self.old.is_left ≡ false }
        ensures answer { IfOk result (λ errno.
            let step = step_of self.old.entries (queue_of request) (Ask port call request) in
            step.reply ≡ Answer errno (length step.left)) }
        ensures state { OnOk result (self.new
            ≡ after_event self.old (queue_of request) (Ask port call request)) }
        ensures handed { OnOk result (handed.new.items ≡ handed.old.items ++ all_handed
            (step_of self.old.entries (queue_of request) (Ask port call request)).left) }
        ensures err { OnErr result (self.new ≡ self.old) }
        ensures none_handed { OnErr result (handed.new.items ≡ handed.old.items) }
    {
        make_room(&mut self.held, 2)?;
        match request {
            Request::Config {
                queue,
                command,
                params,
                maxlen,
                flags,
                mask,
            } => {
                let asked = ConfigRequest {
                    command,
                    params,
                    maxlen,
                    flags,
                    mask,
                };
                requests::config(&mut self.held, alloc, Asker { port, call, queue }, asked)
            }
            Request::Verdict {
                queue,
                head,
                mark,
                payload,
                priority,
            } => {
                let asker = Asker { port, call, queue };
                requests::verdict(&mut self.held, asker, head, mark, payload, priority, handed)
            }
            Request::Batch {
                queue,
                head,
                mark,
                priority,
            } => {
                let asker = Asker { port, call, queue };
                requests::batch(&mut self.held, alloc, asker, head, mark, priority, handed)
            }
        }
    }

    /// A port closes: each queue that is bound to it ends, with all that waits in it destroyed. An
    /// entry for each is appended, by ascending number. Answers how many packets were destroyed;
    /// the number stops at 4,294,967,295. Takes no memory.
    pub fn close_port(&mut self, port: u32) -> u32
        requires no_offer { self.old.offer ≡ None }
        requires standing { self.old.is_left ≡ false }
        ensures count { result ≡ told (taken_in (closings port self.old.entries)) }
        ensures state { self.new ≡ with_all self.old (closings port self.old.entries) }
    {
        endings::close_port(&mut self.held, port)
    }

    /// A device goes down: where it is one of the two by which every packet comes in and goes out,
    /// all that waits is destroyed. An entry for each bound queue is appended, by ascending number.
    /// Answers how many packets were destroyed; the number stops at 4,294,967,295. `NoMemory`
    /// leaves the place as it was.
    pub fn device_down(&mut self, device: u32) -> Result<u32, NoMemory>
        requires no_offer { self.old.offer ≡ None }
        requires standing { self.old.is_left ≡ false }
        ensures count { IfOk result (λ count.
            count ≡ told (taken_in (downs device self.old.entries))) }
        ensures state { OnOk result (self.new
            ≡ with_all self.old (downs device self.old.entries)) }
        ensures err { OnErr result (self.new ≡ self.old) }
    {
        let bound = self.held.queues.len();
        make_room(&mut self.held, bound)?;
        Ok(endings::device_down(&mut self.held, device))
    }

    /// Appends a line for each bound queue, by ascending number: number, port, how many packets
    /// wait, copy mode, copy range, dropped, user dropped, last id and 1, right-aligned in columns
    /// of 5, 6, 5, 1, 5, 5, 5, 8 and 2 characters, with one blank between and LF at the end. A
    /// longer number stands in full. (/proc/net/netfilter/nfnetlink_queue) `NoMemory` leaves `out`
    /// as it was.
    pub fn listing(&self, alloc: Global, out: &mut Vec<u8>) -> Result<(), NoMemory>
        requires standing { self.now.is_left ≡ false }
        ensures ok { OnOk result (out.new.items
            ≡ out.old.items ++ text.listing self.now.entries) }
        ensures err { OnErr result (out.new.items ≡ out.old.items) }
    {
        listing::listing(&self.held, alloc, out)
    }

    /// Puts the line of each bound queue into others, by its number, for a listing of several
    /// places. After `NoMemory` some of the lines are there.
    pub fn put_lines(&self, alloc: Global, lines: &mut Lines) -> Result<(), NoMemory>
        requires standing { self.now.is_left ≡ false }
        ensures { OnOk result (AreLined self.now.entries lines.old lines.new) }
    {
        listing::put_lines(&self.held, alloc, lines)
    }

    /// The port that a queue is bound to; `None` where it is absent.
    pub fn port_of(&self, queue: u16) -> Option<u32>
        requires standing { self.now.is_left ≡ false }
        ensures { result ≡ option_map (λ (b : Bound). b.port) (state_of self.now.entries queue) }
    {
        held::port_of(&self.held, queue)
    }

    /// How many packets wait in a queue; none where it is absent.
    pub fn waiting_in(&self, queue: u16) -> u32
        requires standing { self.now.is_left ≡ false }
        ensures { result ≡ waiting_at (state_of self.now.entries queue) }
    {
        held::waiting_in(&self.held, queue)
    }

    /// How many packets wait; the number stops at 4,294,967,295.
    pub fn waiting(&self) -> u32
        requires standing { self.now.is_left ≡ false }
        ensures { result ≡ told (waiting_in_all self.now.entries) }
    {
        at_most_32_bits(self.held.waiting)
    }

    /// All that happened, in its order: of each queue its history, which is legal.
    pub fn entries(&self) -> &[Entry]
        ensures value { result.now ≡ self.now.entries }
        ensures legal { AreLegal self.now.entries }
        ensures here { AreHere self.now.places self.now.number self.now.entries }
    {
        self.held.entries.as_slice()
    }

    /// Gives the waiting packets up, without an entry: how many that were; the number stops at
    /// 4,294,967,295. It serves closing: of the calls that change or end the place only
    /// [`into_entries`](Place::into_entries) may follow. Takes no memory.
    pub fn leave_waiting(&mut self) -> u32
        requires no_offer { self.old.offer ≡ None }
        requires standing { self.old.is_left ≡ false }
        ensures count { result ≡ told (waiting_in_all self.old.entries) }
        ensures state { self.new ≡ record self.old { is_left = true } }
    {
        let waiting = at_most_32_bits(self.held.waiting);
        bound::end_all(&mut self.held.queues);
        self.is_left = true;
        waiting
    }

    /// All that happened, in its order. No packet waits, or those that did were given up. Takes no
    /// memory.
    pub fn into_entries(self) -> Entries
        requires none_waits { (self.is_left ≡ true) ⊎ (waiting_in_all self.entries ≡ 0) }
        requires no_offer { self.offer ≡ None }
        ensures value { result ≡ self.entries }
        ensures legal { AreLegal result }
        ensures here { AreHere self.places self.number result }
    {
        let Place {
            number: _,
            places: _,
            held,
            is_left: _,
            pool: _,
        } = self;
        let Held {
            mut queues,
            entries,
            waiting: _,
            offer: _,
        } = held;
        bound::end_all(&mut queues);
        queues.destroy_empty();
        entries.into_sequence()
    }
}

/// A number of packets as it is told: it stops at 4,294,967,295.
fn at_most_32_bits(count: usize) -> u32
    ensures { result ≡ told count }
{
    u32::try_from(count).unwrap_or(u32::MAX)
}
