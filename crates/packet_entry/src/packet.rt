//! Packets, and the cards that say what they are.

ghost use Rattle.std.specs.Prelude.{◌≡◌, ◌+◌, ◌<◌, ◌≤◌, length, IfOk, IfSome};
ghost use Rattle.packet_entry.specs.Numbers.{longest_packet, longest_payload, last_visit};
ghost use Rattle.packet_entry.specs.Fields.{IsProtocol, IsLinkLength};

use crate::{Bytes, NoMemory};
use std::alloc::Global;
use std::marker::Model;

/// The most bytes that a packet is read with, and the most that a frame of a capture has.
pub const MAX_FRAME: usize = 262_144;

/// The most bytes that a verdict puts in a packet's place: what one netlink attribute holds,
/// 65,535 less its header of 4 bytes.
pub const MAX_PAYLOAD: usize = 65_531;

/// How many arrivals a packet can have. At the last it is destroyed.
pub const MAX_VISITS: u32 = 33;

/// The Ethernet type of IPv4.
pub const IPV4: u16 = 0x0800;

/// The Ethernet type of IPv6.
pub const IPV6: u16 = 0x86dd;

/// The bytes of an Ethernet header.
pub const ETHERNET_HEADER: usize = 14;

/// The bytes of an Ethernet header with one VLAN tag.
pub const VLAN_HEADER: usize = 18;

/// What a packet is: all that can be known of it.
#[derive(Debug, Drop)]
pub struct Card {
    /// The packet's place in its input, counted from 1.
    pub number: u32,
    /// How often it has arrived at a queue.
    pub visit: u32,
    /// The table that queued it last, counted from 1; 0 before the first.
    pub table: u16,
    /// The firewall mark.
    pub mark: u32,
    /// The priority for scheduling, `skb->priority`. (`NFQA_PRIORITY`)
    pub priority: u32,
    /// When it was captured: seconds since 1970.
    pub seconds: u32,
    /// When it was captured: microseconds of that second.
    pub micros: u32,
    /// The Ethernet type, in host order: 0x0800 for IPv4, 0x86dd for IPv6.
    pub protocol: u16,
    /// The Ethernet header that it came with: 14 bytes, 18 with a VLAN tag, or none.
    pub link: Bytes,
    /// The IP packet.
    pub bytes: Bytes,
}

impl Card {
    /// The same once more. Its bytes are shared: nothing is copied, and no memory is taken.
    /// `NoMemory` comes only where 2^63 - 1 lists share a buffer already.
    pub fn share(&self) -> Result<Card, NoMemory>
        ensures { IfOk result (λ card. card ≡ self.now) }
    {
        Ok(Card {
            number: self.number,
            visit: self.visit,
            table: self.table,
            mark: self.mark,
            priority: self.priority,
            seconds: self.seconds,
            micros: self.micros,
            protocol: self.protocol,
            link: self.link.share()?,
            bytes: self.bytes.share()?,
        })
    }
}

/// A packet on its way. It is no `Clone` and no `Drop`: each is spent once, by `release` or
/// `destroy`.
pub struct Packet {
    card: Card,
}

impl Model for Packet {
    ghost use Rattle.packet_entry.specs.declared.packet.Card.{Card};
    ghost use Rattle.packet_entry.specs.Card.{IsCard};

    ghost Value = { Card };

    ghost view = { λ p. p.card };

    ghost invariant = { λ p. IsCard p.card };
}

impl Packet {
    ghost use Rattle.packet_entry.specs.Card.{IsCard, opening_card, edited};

    /// A packet that hasn't met a queue yet: its visit, table, mark and priority are 0.
    pub fn new(
        alloc: Global,
        number: u32,
        seconds: u32,
        micros: u32,
        protocol: u16,
        link: &[u8],
        bytes: &[u8],
    ) -> Result<Packet, NoMemory>
        requires number { 1 ≤ number }
        requires protocol { IsProtocol protocol }
        requires link { IsLinkLength (length link.now) }
        requires bytes { length bytes.now ≤ longest_packet }
        ensures card { IfOk result (λ packet.
            packet ≡ opening_card number seconds micros protocol link.now bytes.now) }
    {
        let link = Bytes::copy(alloc, link)?;
        let bytes = Bytes::copy(alloc, bytes)?;
        Ok(Packet::from_shared(number, seconds, micros, protocol, link, bytes))
    }

    /// The same, of bytes that are shared: nothing is copied. Takes no memory.
    pub fn from_shared(
        number: u32,
        seconds: u32,
        micros: u32,
        protocol: u16,
        link: Bytes,
        bytes: Bytes,
    ) -> Packet
        requires number { 1 ≤ number }
        requires protocol { IsProtocol protocol }
        requires link { IsLinkLength (length link) }
        requires bytes { length bytes ≤ longest_packet }
        ensures { result ≡ opening_card number seconds micros protocol link bytes }
    {
        Packet {
            card: Card {
                number,
                visit: 0,
                table: 0,
                mark: 0,
                priority: 0,
                seconds,
                micros,
                protocol,
                link,
                bytes,
            },
        }
    }

    /// All that the packet is. Its bytes are shared, not copied.
    pub fn card(&self, _alloc: Global) -> Result<Card, NoMemory>
        ensures same { IfOk result (λ card. card ≡ self.now) }
        ensures facts { IsCard self.now }
    {
        self.card.share()
    }

    /// The packet's place in its input, counted from 1.
    pub fn number(&self) -> u32
        ensures value { result ≡ self.now.number }
        ensures counted { 1 ≤ result }
    {
        self.card.number
    }

    /// How often the packet has arrived at a queue.
    pub fn visit(&self) -> u32
        ensures value { result ≡ self.now.visit }
        ensures limit { result ≤ last_visit }
    {
        self.card.visit
    }

    /// The table that queued it last, counted from 1; 0 before the first.
    pub fn table(&self) -> u16
        ensures { result ≡ self.now.table }
    {
        self.card.table
    }

    /// The firewall mark.
    pub fn mark(&self) -> u32
        ensures { result ≡ self.now.mark }
    {
        self.card.mark
    }

    /// The priority for scheduling; 0 until a verdict sets it.
    pub fn priority(&self) -> u32
        ensures { result ≡ self.now.priority }
    {
        self.card.priority
    }

    /// When it was captured: seconds since 1970.
    pub fn seconds(&self) -> u32
        ensures { result ≡ self.now.seconds }
    {
        self.card.seconds
    }

    /// When it was captured: microseconds of that second.
    pub fn micros(&self) -> u32
        ensures { result ≡ self.now.micros }
    {
        self.card.micros
    }

    /// The Ethernet type, in host order.
    pub fn protocol(&self) -> u16
        ensures value { result ≡ self.now.protocol }
        ensures one_of_two { IsProtocol result }
    {
        self.card.protocol
    }

    /// The Ethernet header that it came with.
    pub fn link(&self) -> &[u8]
        ensures value { result.now ≡ self.now.link }
        ensures length { IsLinkLength (length result.now) }
    {
        self.card.link.as_slice()
    }

    /// The IP packet.
    pub fn bytes(&self) -> &[u8]
        ensures value { result.now ≡ self.now.bytes }
        ensures limit { length result.now ≤ longest_packet }
    {
        self.card.bytes.as_slice()
    }

    /// The IP packet once more. Nothing is copied.
    pub fn share_bytes(&self) -> Result<Bytes, NoMemory>
        ensures { IfOk result (λ bytes. bytes ≡ self.now.bytes) }
    {
        self.card.bytes.share()
    }

    /// Counts one more arrival at a queue, by a rule of this table or by a verdict in it.
    pub fn queued(&mut self, table: u16)
        requires { self.old.visit < last_visit }
        ensures { self.new ≡ record self.old { visit = self.old.visit + 1; table = table } }
    {
        self.card.visit += 1;
        self.card.table = table;
    }

    /// Sets the mark, the bytes and the priority, as far as they are given. All bytes are replaced.
    /// (`nfqnl_recv_verdict` sets `skb->mark` and `skb->priority`.)
    pub fn edit(&mut self, mark: Option<u32>, payload: Option<Bytes>, priority: Option<u32>)
        requires { IfSome payload (λ bytes. length bytes ≤ longest_payload) }
        ensures { self.new ≡ edited self.old mark payload priority }
    {
        if let Some(mark) = mark {
            self.card.mark = mark;
        }
        if let Some(bytes) = payload {
            self.card.bytes = bytes;
        }
        if let Some(priority) = priority {
            self.card.priority = priority;
        }
    }

    /// Spends the packet: it goes on.
    pub fn release(self) {
        let Packet { card: _card } = self;
    }

    /// Spends the packet: it is dropped.
    pub fn destroy(self) {
        let Packet { card: _card } = self;
    }
}
