//! A notice as it is read, and what a notice tells, with the packet's bytes borrowed.

use packet_entry::Bytes;

/// A notice, read.
#[derive(Debug, Drop)]
pub struct Notice {
    /// The number of the queue that the packet waits in.
    pub queue: u16,
    /// The id that the packet waits under.
    pub id: u32,
    /// The Ethernet type: 0x0800 for IPv4, 0x86dd for IPv6.
    pub protocol: u16,
    /// The firewall mark.
    pub mark: u32,
    /// The priority for scheduling; 0 where the notice has none. (`NFQA_PRIORITY`)
    pub priority: u32,
    /// How many bytes the packet has, as far as that is told: all of them where it was cut, and
    /// else the payload's.
    pub length: u32,
    /// The packet's first bytes.
    pub payload: Bytes,
}

/// What a notice tells, with the bytes of its packet borrowed.
#[derive(Clone, Copy)]
pub(crate) struct Telling<'a> {
    pub queue: u16,
    pub id: u32,
    /// The Ethernet type.
    pub protocol: u16,
    pub mark: u32,
    pub priority: u32,
    /// The sender's hardware address, where there is one.
    pub source: Option<&'a [u8]>,
    pub seconds: u32,
    pub micros: u32,
    /// The packet's length, where the range cut the packet.
    pub cut_from: Option<u32>,
    pub payload: &'a [u8],
}
