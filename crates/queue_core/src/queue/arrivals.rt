//! Arrivals: the lines of the table from the copy mode on, in its order.

ghost use Rattle.std.specs.Prelude.{◌≡◌, ◌≢◌, [], None, false, IfOk, IfErr, OnOk, OnErr, IfSome};
ghost use Rattle.nfqa_msgs.specs.NoticeWriting.{FitsTold, told_of};
ghost use Rattle.queue_core.specs.State as state;
ghost use Rattle.queue_core.specs.Step as queue_step;
ghost use Rattle.queue_core.specs.WithOffer.{letter_of};
ghost use Rattle.queue_core.specs.Calls.{BeginsArrival, SettlesArrival};

use super::Queue;
use crate::{Begun, NoRoom, Outcome, Settled, ids};
use nfqa_msgs::{NONE, encode_notice};
use packet_entry::{Buffer, BufferPool, Letter, NoMemory, Packet};
use std::alloc::Global;

impl Queue {
    /// Begins the arrival of a packet. Where the queue copies nothing or is full, it comes back.
    /// Otherwise it stands offered under its id, and this is its notice, with `queue` as the
    /// queue's number; the memory for settling it is taken too. Where there is none, the packet
    /// comes back, and nothing has changed.
    pub fn begin(&mut self, alloc: Global, queue: u16, packet: Packet) -> Result<Begun, NoRoom>
        requires no_offer { self.old.offer ≡ None }
        ensures begun { IfOk result (λ begun. BeginsArrival begun queue packet self.old self.new) }
        ensures returned { IfErr result (λ back. back.packet ≡ packet) }
        ensures err { OnErr result (self.new ≡ self.old) }
    {
        self.begin_in(alloc, queue, packet, &mut BufferPool::new(alloc))
    }

    /// The same, where the notice is written into a buffer of the pool.
    pub fn begin_in(
        &mut self,
        alloc: Global,
        queue: u16,
        packet: Packet,
        pool: &mut BufferPool,
    ) -> Result<Begun, NoRoom>
        requires no_offer { self.old.offer ≡ None }
        ensures begun { IfOk result (λ begun. BeginsArrival begun queue packet self.old self.new) }
        ensures returned { IfErr result (λ back. back.packet ≡ packet) }
        ensures err { OnErr result (self.new ≡ self.old) }
    {
        // Nothing is copied to the port: destroyed.
        if self.settings.mode == NONE {
            let outcome = Outcome::CopyNone;
            return Ok(Begun::Back { outcome, packet });
        }
        // As many wait as may, and the queue fails open: it goes on.
        if self.is_full() && self.fails_open() {
            let outcome = Outcome::OverflowOpen;
            return Ok(Begun::Back { outcome, packet });
        }
        // As many wait as may: destroyed.
        if self.is_full() {
            self.dropped = self.dropped.saturating_add(1);
            let outcome = Outcome::Overflow;
            return Ok(Begun::Back { outcome, packet });
        }
        self.offered(alloc, queue, packet, pool)
    }

    /// Offers a packet that the queue doesn't turn away.
    fn offered(
        &mut self,
        alloc: Global,
        queue: u16,
        packet: Packet,
        pool: &mut BufferPool,
    ) -> Result<Begun, NoRoom>
        requires no_offer { self.old.offer ≡ None }
        requires undecided { queue_step.turns_away self.old.state ≡ false }
        ensures begun { IfOk result (λ begun. BeginsArrival begun queue packet self.old self.new) }
        ensures returned { IfErr result (λ back. back.packet ≡ packet) }
        ensures err { OnErr result (self.new ≡ self.old) }
    {
        let id = ids::fresh_id(self.last, &self.waiting);
        let Ok(letter) = self.letter(queue, id, &packet, pool.take(alloc)) else {
            return Err(NoRoom { packet });
        };
        if let Err(packet) = self.waiting.push(id, packet) {
            return Err(NoRoom { packet });
        }
        self.offer = Some(id);
        Ok(Begun::Offered {
            port: self.port,
            letter,
        })
    }

    /// The notice of a packet, on its way to the queue's port. It is written into the buffer, which
    /// is empty.
    fn letter(
        &self,
        queue: u16,
        id: u32,
        packet: &Packet,
        mut buffer: Buffer,
    ) -> Result<Letter, NoMemory>
        requires empty { buffer.items.items ≡ [] }
        requires undecided { queue_step.turns_away self.now.state ≡ false }
        ensures letter { IfOk result (λ letter.
            letter ≡ letter_of queue self.now.state id packet.now) }
        ensures fits { OnOk result
            (FitsTold (told_of queue self.now.state.mode self.now.state.range id packet.now)) }
    {
        encode_notice(
            queue,
            id,
            self.settings.mode,
            self.settings.range,
            packet,
            &mut buffer.items,
        )?;
        Ok(Letter {
            queue,
            number: packet.number(),
            visit: packet.visit(),
            bytes: buffer.into_bytes()?,
        })
    }

    /// Settles what was begun. `room` says whether the port's mailbox took the notice. The id is
    /// used in each case. Takes no memory.
    pub fn settle(&mut self, room: bool) -> Settled
        requires offered { self.old.offer ≢ None }
        ensures { IfSome self.old.offer (λ o. SettlesArrival result o.1 room self.old self.new) }
    {
        let Some(id) = self.offer.take() else {
            unreachable!()
        };
        self.last = id;
        // It waits, last in the list.
        if room {
            return Settled::Waiting { id };
        }
        let Some(packet) = self.waiting.take(id) else {
            unreachable!()
        };
        // No room, and the queue fails open: it goes on.
        if self.fails_open() {
            let outcome = Outcome::UserFullOpen { id };
            return Settled::Back { outcome, packet };
        }
        // No room: destroyed.
        self.user_dropped = self.user_dropped.saturating_add(1);
        let outcome = Outcome::UserFull { id };
        Settled::Back { outcome, packet }
    }

    /// Whether as many packets wait as may.
    fn is_full(&self) -> bool
        ensures { result ≡ queue_step.is_full self.now.state }
    {
        self.settings.is_full(self.waiting())
    }

    /// Whether a queue that is full, or whose port's mailbox is, lets packets go on.
    fn fails_open(&self) -> bool
        ensures { result ≡ state.fails_open self.now.state }
    {
        self.settings.fails_open()
    }
}
