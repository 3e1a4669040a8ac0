//! A plane on one thread.

ghost use Rattle.std.specs.Prelude.{◌≡◌, ◌≢◌, ◌<◌, ◌≤◌, ◌^◌, ◌++◌, ℕ, length, IfOk, OnOk, IfErr};
ghost use Rattle.std.specs.Prelude.{[], ◌↔◌, OnErr, IsSomeAnd, IsTrue, All, nat_eq, false};
ghost use Rattle.std.specs.List.{IsDistinct};
ghost use Rattle.netlink_codec.specs.Messages.{first_message};
ghost use Rattle.nfqa_msgs.specs.RequestReading.{PayloadFits};
ghost use Rattle.nfqa_msgs.specs.RequestWriting.{FitsRequest};
ghost use Rattle.hook_chain.specs.Route.{next};
ghost use Rattle.histories.specs.History.{AreLegal};
ghost use Rattle.histories.specs.Journeys.{AreSound};
ghost use Rattle.histories.specs.States.{told, taken_in};
ghost use Rattle.histories.specs.Happenings.{downs};
ghost use Rattle.histories.specs.Listing as text;
ghost use Rattle.solo_plane.specs.Numbers.{most_fed, most_mail, most_ports};
ghost use Rattle.solo_plane.specs.Invariant.{IsPlane};

use crate::endings::legal_at;
use crate::held::Held;
use crate::opening::open_ports;
use crate::{closing, endings, feeding, messages, ports};
use histories::Histories;
use hook_chain::Tables;
use nfqa_msgs::Request;
use packet_entry::{Letter, NoMemory, Packet, Stock};
use packet_moves::{Fed, Refused, Setting, histories_stay_sound};
use place_history::Place;
use queue_core::Handed;
use std::alloc::Global;

/// A plane: packets are fed to it, its ports send messages to its queues and receive notices, and
/// each packet is moved on, from queue to queue, to its rest or its end.
pub struct SoloPlane {
    setting: Setting,
    /// The ports in the order in which they were given.
    order: Vec<u32>,
    held: Held,
    /// What a request lets go on, while it is carried out: its memory is used again.
    handed: Handed,
    ghost kept: { IsPlane setting order.items held },
    ghost none_handed: { handed.items ≡ [] },
}

impl SoloPlane {
    ghost use Rattle.packet_moves.specs.World.{at_port, received, first_of, closed_ports};
    ghost use Rattle.packet_moves.specs.OnTheWay.{HandsBack};
    ghost use Rattle.packet_moves.specs.Messages.{Sends, SendsUnread};
    ghost use Rattle.packet_moves.specs.Planes.{IsFed, beginning, with_closed, without_device};
    ghost use Rattle.histories.specs.Grouping.{IsGrouped};
    ghost use Rattle.solo_plane.specs.Notices.{has_notice, AreQuiet};
    ghost use Rattle.solo_plane.specs.Requests.{SendsRequest};
    ghost use Rattle.packet_moves.specs.Logs.{logs_in};
    ghost use Rattle.packet_moves.specs.Soundness.{IsSound};
    ghost use Rattle.solo_plane.specs.PlaneView.{setting_of, order_of, world_in, IsWith};

    /// A plane with these ports, 1 to 32 of them, none twice and none of them 0. Packets go through
    /// the tables; `key` is the flow hash's. Each port's mailbox holds `mail` notices, 1 to 65,536.
    pub fn new(
        alloc: Global,
        ports: &[u32],
        mail: u32,
        tables: Tables,
        key: u32,
    ) -> Result<SoloPlane, NoMemory>
        requires some_ports { (1 ≤ length ports.now) × (length ports.now ≤ most_ports) }
        requires apart { IsDistinct nat_eq ports.now }
        requires not_zero { All (λ p. p ≢ 0) ports.now }
        requires mail { (1 ≤ mail) × (mail ≤ most_mail) }
        ensures setting { IfOk result (λ plane. setting_of plane
            ≡ record { tables = tables; key = key; mail = mail }) }
        ensures order { IfOk result (λ plane. order_of plane ≡ ports.now) }
        ensures world { IfOk result (λ plane. world_in plane ≡ beginning ports.now) }
    {
        histories_stay_sound();
        let order = Vec::from_slice(alloc, ports)?;
        let open_ports = open_ports(alloc, ports)?;
        Ok(SoloPlane {
            setting: Setting { tables, key, mail },
            order,
            held: Held {
                place: Place::new(alloc, 0, 1),
                ports: open_ports,
                fed: Stock::new(alloc),
                lost: Stock::new(alloc),
            },
            handed: Handed::new(alloc),
        })
    }

    /// Feeds a packet: it goes through the tables from the first on, and is moved on until it waits
    /// or ends. `Refused` is out of memory before its first arrival: the packet comes back, and
    /// nothing has happened. Where memory runs out later the packet is lost.
    pub fn feed(&mut self, alloc: Global, packet: Packet) -> Result<Fed, Refused>
        requires new { packet.visit ≡ 0 }
        requires few { length (world_in self.old).fed < most_fed }
        ensures fed { IfOk result
            (IsFed (setting_of self.old) (world_in self.old) packet (world_in self.new)) }
        ensures made_with { IsWith self.old self.new }
        ensures ports { (p : ℕ) → closed_ports (world_in self.new) p
            ≡ closed_ports (world_in self.old) p }
        ensures refused { IfErr result (λ r. HandsBack packet
            (next (setting_of self.old).tables (setting_of self.old).key packet 1) r.packet) }
        ensures err { OnErr result (world_in self.new ≡ world_in self.old) }
    {
        legal_at(&self.held.place);
        histories_stay_sound();
        feeding::feed(&mut self.held, alloc, &self.setting, packet)
    }

    /// A port sends the first message of some bytes: it is carried out, each packet that it lets go
    /// on is moved on until it waits or ends, and the message is acknowledged where that is due and
    /// logged. Answers how many of the bytes it uses; 0 exactly where no message stands in front.
    /// `NoMemory` leaves all as it was; a packet whose next arrival finds no memory is lost.
    pub fn message(
        &mut self,
        alloc: Global,
        port: u32,
        datagram: &[u8],
        replies: &mut Vec<u8>,
    ) -> Result<u32, NoMemory>
        requires short { length datagram.now < 2 ^ 31 }
        requires port { IsSomeAnd ((world_in self.old).ports port) (λ p. p.is_closed ≡ false) }
        ensures sent { IfOk result (Sends (setting_of self.old) port (first_message datagram.now)
            (world_in self.old) (world_in self.new) replies.old.items replies.new.items) }
        ensures made_with { IsWith self.old self.new }
        ensures ports { (p : ℕ) → closed_ports (world_in self.new) p
            ≡ closed_ports (world_in self.old) p }
        ensures err { OnErr result (world_in self.new ≡ world_in self.old) }
        ensures none_answered { OnErr result (replies.new.items ≡ replies.old.items) }
    {
        legal_at(&self.held.place);
        histories_stay_sound();
        messages::message(
            &mut self.held,
            alloc,
            &self.setting,
            port,
            datagram,
            replies,
            &mut self.handed,
        )
    }

    /// As [`message`](SoloPlane::message) does, where nobody reads the replies: none is made, and
    /// no memory is taken for it.
    pub fn message_unread(
        &mut self,
        alloc: Global,
        port: u32,
        datagram: &[u8],
    ) -> Result<u32, NoMemory>
        requires short { length datagram.now < 2 ^ 31 }
        requires port { IsSomeAnd ((world_in self.old).ports port) (λ p. p.is_closed ≡ false) }
        ensures sent { IfOk result (SendsUnread (setting_of self.old) port
            (first_message datagram.now) (world_in self.old) (world_in self.new)) }
        ensures made_with { IsWith self.old self.new }
        ensures ports { (p : ℕ) → closed_ports (world_in self.new) p
            ≡ closed_ports (world_in self.old) p }
        ensures err { OnErr result (world_in self.new ≡ world_in self.old) }
    {
        legal_at(&self.held.place);
        histories_stay_sound();
        messages::message_unread(
            &mut self.held,
            alloc,
            &self.setting,
            port,
            datagram,
            &mut self.handed,
        )
    }

    /// As [`message_unread`](SoloPlane::message_unread) does with the spelling of a request, under
    /// the port's next number: nothing is spelled, cut or decoded.
    pub fn request_unread(
        &mut self,
        alloc: Global,
        port: u32,
        request: Request,
    ) -> Result<(), NoMemory>
        requires payload { PayloadFits request }
        requires port { IsSomeAnd ((world_in self.old).ports port) (λ p. p.is_closed ≡ false) }
        ensures sent { OnOk result (SendsRequest (setting_of self.old) port request
            (world_in self.old) (world_in self.new)) }
        ensures made_with { IsWith self.old self.new }
        ensures ports { (p : ℕ) → closed_ports (world_in self.new) p
            ≡ closed_ports (world_in self.old) p }
        ensures err { OnErr result (world_in self.new ≡ world_in self.old) }
        // The request is one that its spelling decodes to.
        ensures fits { FitsRequest request }
    {
        legal_at(&self.held.place);
        histories_stay_sound();
        messages::request_unread(
            &mut self.held,
            alloc,
            &self.setting,
            port,
            request,
            &mut self.handed,
        )
    }

    /// Whether a port has a notice to receive. Takes no memory.
    pub fn has_notice(&self, port: u32) -> bool
        ensures { result ≡ has_notice ((world_in self.now).ports port) }
    {
        ports::has_notice(&self.held.ports, port)
    }

    /// The same, where the port is looked for at this place among the ports first: it is found at
    /// once where it stands there. Takes no memory.
    pub fn has_notice_near(&self, port: u32, place: u32) -> bool
        ensures { result ≡ has_notice ((world_in self.now).ports port) }
    {
        ports::has_notice_near(&self.held.ports, port, place as usize)
    }

    /// Whether no port has a notice to receive. Takes no memory.
    pub fn is_quiet(&self) -> bool
        ensures { IsTrue result ↔ AreQuiet (world_in self.now).ports }
    {
        ports::are_quiet(&self.held.ports)
    }

    /// A port receives its first notice, which its log notes; `None` exactly where its mailbox is
    /// empty. `NoMemory` leaves all as it was.
    pub fn receive(&mut self, port: u32) -> Result<Option<Letter>, NoMemory>
        requires { IsSomeAnd ((world_in self.old).ports port) (λ p. p.is_closed ≡ false) }
        ensures letter { IfOk result (λ letter. IsSomeAnd ((world_in self.old).ports port)
            (λ p. letter ≡ first_of p.letters)) }
        ensures world { OnOk result (world_in self.new
            ≡ at_port port received (world_in self.old)) }
        ensures made_with { IsWith self.old self.new }
        ensures ports { (p : ℕ) → closed_ports (world_in self.new) p
            ≡ closed_ports (world_in self.old) p }
        ensures err { OnErr result (world_in self.new ≡ world_in self.old) }
    {
        ports::receive(&mut self.held.ports, port)
    }

    /// Keeps the memory of a notice, which ends, for another one.
    pub fn give_back(&mut self, alloc: Global, letter: Letter)
        ensures world { world_in self.new ≡ world_in self.old }
        ensures made_with { IsWith self.old self.new }
    {
        self.held.place.give_back(alloc, letter.bytes);
    }

    /// A port closes: each queue that is bound to it ends, with all that waits in it destroyed.
    /// Takes no memory.
    pub fn close_port(&mut self, port: u32)
        requires { IsSomeAnd ((world_in self.old).ports port) (λ p. p.is_closed ≡ false) }
        ensures world { world_in self.new ≡ with_closed (world_in self.old) port }
        ensures made_with { IsWith self.old self.new }
    {
        endings::close_port(&mut self.held, port);
    }

    /// A device goes down: where it is one of the two by which every packet comes in and goes out,
    /// all that waits is destroyed. Answers how many packets were destroyed; the number stops at
    /// 4,294,967,295. `NoMemory` leaves all as it was.
    pub fn device_down(&mut self, device: u32) -> Result<u32, NoMemory>
        ensures count { IfOk result (λ count.
            count ≡ told (taken_in (downs device (world_in self.old).entries))) }
        ensures world { OnOk result (world_in self.new
            ≡ without_device (world_in self.old) device) }
        ensures made_with { IsWith self.old self.new }
        ensures ports { (p : ℕ) → closed_ports (world_in self.new) p
            ≡ closed_ports (world_in self.old) p }
        ensures err { OnErr result (world_in self.new ≡ world_in self.old) }
    {
        endings::device_down(&mut self.held, device)
    }

    /// How many packets were lost between two queues.
    pub fn lost(&self) -> usize
        ensures count { result ≡ length (world_in self.now).lost }
        // What happened so far is legal, and sound for the packets that were fed and those lost.
        ensures facts { IsSound (setting_of self.now) [] (world_in self.now) }
    {
        legal_at(&self.held.place);
        self.held.lost.len()
    }

    /// Appends a line for each bound queue, by ascending number. `NoMemory` leaves `out` as it was.
    pub fn listing(&self, alloc: Global, out: &mut Vec<u8>) -> Result<(), NoMemory>
        ensures ok { OnOk result (out.new.items
            ≡ out.old.items ++ text.listing (world_in self.now).entries) }
        ensures err { OnErr result (out.new.items ≡ out.old.items) }
    {
        self.held.place.listing(alloc, out)
    }

    /// Ends the plane, and gives all that happened: each queue's entries in their order, by
    /// ascending queue number; each port's log, in the order in which the ports were given; and the
    /// packets that were lost. The histories are legal, and sound for the packets that were fed.
    pub fn close(self, alloc: Global) -> Result<Histories, NoMemory>
        ensures entries { IfOk result (λ h. IsGrouped (world_in self).entries h.entries) }
        ensures logs { IfOk result (λ h. h.logs ≡ logs_in (order_of self) (world_in self)) }
        ensures lost { IfOk result (λ h. h.lost ≡ (world_in self).lost) }
        ensures legal { IfOk result (λ h. AreLegal h.entries) }
        ensures sound { IfOk result (λ h. AreSound (setting_of self).tables (setting_of self).key
            (world_in self).fed h.entries h.lost) }
    {
        let SoloPlane {
            setting,
            order,
            held,
            handed,
        } = self;
        drop(setting);
        handed.finish();
        closing::histories(alloc, &order, held)
    }
}
