//! A plane.

ghost use Rattle.std.specs.Prelude.{◌≡◌, ◌<◌, ℕ, length, nat_eq, true, IsSome};
ghost use Rattle.std.specs.BTreeMap.{get};
ghost use Rattle.std.specs.List.{list_any};
ghost use Rattle.std.specs.Ordering.{nat_cmp};
ghost use Rattle.mailbox.specs.Roles.{AreDistinct};
ghost use Rattle.plane.specs.Apart.{AreDistinct-prop};

use crate::port::{ClosedPort, FeederPass, Port, PortPass};
use glance::{GlancePass, Totals};
use locked_place::Gate;
use packet_entry::{Letter, NoMemory, Packet};
use packet_moves::{Fed, Refused};
use place_rows::rows_stay_balanced;
use place_turns::{
    Places, Turns, passes_begin_and_end_timely, passes_keep_their_parts, passes_stay_balanced,
};
use std::alloc::Global;
use std::marker::PhantomData;
use std::sync::Wait;

/// A plane: places of queues, each behind a lock of its own, and a mailbox for each port. Threads
/// share it, and act on it by passes of their own. Packets are fed to it, its ports send messages
/// to its queues and receive notices, and each packet is moved on, from queue to queue, to its rest
/// or its end. Queue `q` is at place `q % places`.
pub struct Plane {
    /// The ports in the order in which they were given.
    pub(crate) order: Vec<u32>,
    /// The places, which all passes share.
    pub(crate) shared: Places,
    ghost apart: { AreDistinct order.items } by { AreDistinct-prop order.items },
    ghost listed: { (port : ℕ) → IsSome (get nat_cmp shared.outlets.mailboxes port) →
        list_any (nat_eq port) order.items ≡ true },
}

impl Plane {
    ghost use Rattle.std.specs.Prelude.{◌^◌, ◌++◌, ◌∷◌, [], IfOk, OnOk, IfErr, OnErr};
    ghost use Rattle.hook_chain.specs.Route.{next};
    ghost use Rattle.netlink_codec.specs.Messages.{first_message};
    ghost use Rattle.locked_place.specs.Turns.{GoesDownIn, LooksOn};
    ghost use Rattle.place_rows.specs.Rows.{TurnsOne};
    ghost use Rattle.plane.specs.Numbers.{most_fed};
    ghost use Rattle.plane.specs.Planes.{places_of, setting_of};
    ghost use Rattle.place_turns.specs.Trails.{MayLook, parts_of};
    ghost use Rattle.place_turns.specs.Moving.{IsFed};
    ghost use Rattle.place_turns.specs.Messages.{Sends, SendsUnread};
    ghost use Rattle.packet_moves.specs.OnTheWay.{HandsBack};
    ghost use Rattle.plane.specs.Passes.{IsFeederOf, IsPortOf, Receives, Closes};

    /// Feeds a packet: it goes through the tables from the first on, and is moved on until it waits
    /// or ends. `Refused` is out of memory before its first arrival: the packet comes back, and
    /// nothing has happened. Where memory runs out later the packet is lost. Either way the pass
    /// may have seen more. The gate is told of each turn.
    pub fn feed<R: Wait, G: Gate>(
        &self,
        rt: &R,
        alloc: Global,
        pass: &mut FeederPass,
        gate: &G,
        packet: Packet,
    ) -> Result<Fed, Refused>
        requires pass { IsFeederOf self.now pass.old }
        requires new { packet.visit ≡ 0 }
        requires few { length pass.old.fed < most_fed }
        ensures pass { IsFeederOf self.now pass.new }
        ensures moved { IfOk result (IsFed (places_of self.now) (setting_of self.now)
            pass.old.trail packet pass.new.trail) }
        ensures fed { OnOk result (pass.new.fed ≡ pass.old.fed ++ packet ∷ []) }
        ensures refused { IfErr result (λ r. HandsBack packet
            (next (setting_of self.now).tables (setting_of self.now).key packet 1) r.packet) }
        ensures looked { OnErr result (MayLook pass.old.trail pass.new.trail) }
        ensures none_fed { OnErr result (pass.new.fed ≡ pass.old.fed) }
        ensures parts { parts_of pass.new.trail.known ≡ parts_of pass.old.trail.known }
    {
        passes_stay_balanced();
        passes_keep_their_parts();
        let turns = Turns {
            places: &self.shared,
            rt,
            gate,
        };
        place_turns::feed(&turns, alloc, &mut pass.passes, &mut pass.fed, packet)
    }

    /// A port sends the first message of some bytes: it is carried out, each packet that it lets go
    /// on is moved on until it waits or ends, and the message is acknowledged where that is due and
    /// logged. Answers how many of the bytes it uses; 0 exactly where no message stands in front.
    /// `NoMemory` leaves all as it was, but the pass may have seen more; a packet whose next
    /// arrival finds no memory is lost. The gate is told of each turn, and of the answer to a
    /// request.
    pub fn message<R: Wait, G: Gate>(
        &self,
        rt: &R,
        alloc: Global,
        pass: &mut PortPass,
        gate: &G,
        datagram: &[u8],
        replies: &mut Vec<u8>,
    ) -> Result<u32, NoMemory>
        requires pass { IsPortOf self.now pass.old }
        requires short { length datagram.now < 2 ^ 31 }
        ensures pass { IsPortOf self.now pass.new }
        ensures sent { IfOk result (Sends (places_of self.now) (setting_of self.now) pass.old.port
            (first_message datagram.now) pass.old.dids pass.new.dids pass.old.trail pass.new.trail
            replies.old.items replies.new.items) }
        ensures receiver { (pass.new.receiver ≡ pass.old.receiver)
            × (pass.new.port ≡ pass.old.port) }
        ensures looked { OnErr result (MayLook pass.old.trail pass.new.trail) }
        ensures none_logged { OnErr result (pass.new.dids ≡ pass.old.dids) }
        ensures none_answered { OnErr result (replies.new.items ≡ replies.old.items) }
        ensures parts { parts_of pass.new.trail.known ≡ parts_of pass.old.trail.known }
    {
        passes_stay_balanced();
        passes_keep_their_parts();
        let turns = Turns {
            places: &self.shared,
            rt,
            gate,
        };
        place_turns::message(
            &turns,
            alloc,
            &mut pass.passes,
            &mut pass.log,
            pass.port,
            datagram,
            replies,
        )
    }

    /// As [`message`](Plane::message) does, where nobody reads the replies: none is made, and no
    /// memory is taken for it.
    pub fn message_unread<R: Wait, G: Gate>(
        &self,
        rt: &R,
        alloc: Global,
        pass: &mut PortPass,
        gate: &G,
        datagram: &[u8],
    ) -> Result<u32, NoMemory>
        requires pass { IsPortOf self.now pass.old }
        requires short { length datagram.now < 2 ^ 31 }
        ensures pass { IsPortOf self.now pass.new }
        ensures sent { IfOk result (SendsUnread (places_of self.now) (setting_of self.now)
            pass.old.port (first_message datagram.now) pass.old.dids pass.new.dids
            pass.old.trail pass.new.trail) }
        ensures receiver { (pass.new.receiver ≡ pass.old.receiver)
            × (pass.new.port ≡ pass.old.port) }
        ensures looked { OnErr result (MayLook pass.old.trail pass.new.trail) }
        ensures none_logged { OnErr result (pass.new.dids ≡ pass.old.dids) }
        ensures parts { parts_of pass.new.trail.known ≡ parts_of pass.old.trail.known }
    {
        passes_stay_balanced();
        passes_keep_their_parts();
        let turns = Turns {
            places: &self.shared,
            rt,
            gate,
        };
        place_turns::message_unread(
            &turns,
            alloc,
            &mut pass.passes,
            &mut pass.log,
            pass.port,
            datagram,
        )
    }

    /// A port receives a notice, which is logged; `None` exactly where a look found its mailbox
    /// empty. `NoMemory` leaves all as it was.
    pub fn receive<R: Wait>(&self, rt: &R, pass: &mut PortPass) -> Result<Option<Letter>, NoMemory>
        requires pass { IsPortOf self.now pass.old }
        ensures pass { IsPortOf self.now pass.new }
        ensures received { IfOk result (Receives pass.old pass.new) }
        ensures err { OnErr result (pass.new ≡ pass.old) }
    {
        pass.log.make_room()?;
        let Some(mailbox) = self.shared.outlets.mailboxes.get(&pass.port) else {
            unreachable!()
        };
        match mailbox.receive_mail(rt, &mut pass.receiver) {
            Some(mail) => {
                pass.passes.hear(mail.time);
                pass.log.receive(&mail.letter);
                Ok(Some(mail.letter))
            }
            None => Ok(None),
        }
    }

    /// A port closes: at place 0, 1 and so on, in a turn of its own, each queue that is bound to it
    /// ends, with all that waits in it destroyed. Takes no memory.
    pub fn close_port<R: Wait>(&self, rt: &R, pass: PortPass) -> ClosedPort
        requires pass { IsPortOf self.now pass }
        ensures pass { IsPortOf self.now result }
        ensures closed { Closes (places_of self.now) pass result }
        ensures parts { parts_of result.trail.known ≡ parts_of pass.trail.known }
    {
        passes_begin_and_end_timely();
        let Port {
            mut passes,
            port,
            receiver,
            mut log,
            state: _open,
        } = pass;
        passes.close_port(&self.shared, rt, port);
        log.close();
        Port {
            passes,
            port,
            receiver,
            log,
            state: PhantomData,
        }
    }

    /// A device goes down at one place: where it is one of the two by which every packet comes in
    /// and goes out, all that waits there is destroyed. Answers how many packets were destroyed;
    /// the number stops at 4,294,967,295. `NoMemory` leaves all as it was, but the pass may have
    /// seen more.
    pub fn device_down<R: Wait>(
        &self,
        rt: &R,
        pass: &mut FeederPass,
        device: u32,
        place: u8,
    ) -> Result<u32, NoMemory>
        requires pass { IsFeederOf self.now pass.old }
        requires there { place < places_of self.now }
        ensures pass { IsFeederOf self.now pass.new }
        ensures down { IfOk result (λ count. TurnsOne place pass.old.trail.known
            pass.new.trail.known (λ v w. GoesDownIn device v w count)) }
        ensures looked { OnErr result (TurnsOne place pass.old.trail.known pass.new.trail.known
            LooksOn) }
        ensures same { (pass.new.fed ≡ pass.old.fed) × (pass.new.trail.lost ≡ pass.old.trail.lost) }
        ensures parts { parts_of pass.new.trail.known ≡ parts_of pass.old.trail.known }
    {
        rows_stay_balanced();
        passes_stay_balanced();
        passes_keep_their_parts();
        pass.passes
            .device_down(&self.shared, rt, device, usize::from(place))
    }
}

impl Plane {
    ghost use Rattle.std.specs.Prelude.{◌≢◌, ◌++◌, ◌∷◌, [], ℕ};
    ghost use Rattle.glance.specs.Views.{ReadsLatest, NeverDescend, readings_of};
    ghost use Rattle.plane.specs.Planes.{places_of, board_of};

    /// How many places there are.
    pub fn places(&self) -> u8
        ensures { result ≡ places_of self.now }
    {
        self.shared.count()
    }

    /// The totals of a place, as the board shows them. One load: it never waits, and takes no
    /// memory.
    pub fn glance(&self, pass: &mut GlancePass, place: u8) -> Totals
        requires board { pass.old.board ≡ board_of self.now }
        requires place { place < places_of self.now }
        ensures read { ReadsLatest pass.old place result pass.new }
        ensures added { readings_of place pass.new.readings
            ≡ readings_of place pass.old.readings ++ result ∷ [] }
        ensures others { (k : ℕ) → k ≢ place →
            readings_of k pass.new.readings ≡ readings_of k pass.old.readings }
        ensures rise { NeverDescend (readings_of place pass.new.readings) }
    {
        self.shared.outlets.board.glance(pass, place)
    }
}
