//! The link header before an IP packet, for the link types of a classic capture file.

ghost use Rattle.std.specs.Prelude.{◌≡◌, IfSome};
ghost use Rattle.ip_fields.specs.Frame.{IsIpStart, cut_of, ethernet_cut, raw_cut};

use crate::ethernet::{ETHERNET_HEADER_LENGTH, TYPE_IPV4, TYPE_IPV6, is_ip, read_ethernet_type};
use crate::ipv4::IPV4_VERSION;
use crate::ipv6::IPV6_VERSION;
use crate::packet::read_version;
use crate::vlan::{TAGGED_HEADER_LENGTH, TYPE_VLAN, read_tagged_type};

/// LINKTYPE_ETHERNET of the registry at www.tcpdump.org/linktypes.html.
const LINK_ETHERNET: u32 = 1;
/// LINKTYPE_RAW: a packet of IPv4 or IPv6 with no header before it.
const LINK_RAW: u32 = 101;
/// LINKTYPE_IPV4: a packet of IPv4.
const LINK_IPV4: u32 = 228;
/// LINKTYPE_IPV6: a packet of IPv6.
const LINK_IPV6: u32 = 229;

/// Where the IP packet of a captured frame starts.
#[derive(Clone, Copy, Debug, PartialEq, Eq)]
pub struct LinkCut {
    /// The bytes of the link header: 0, 14 or 18. The packet is all that follows.
    pub length: usize,
    /// The packet's Ethernet type: 0x0800 for IPv4, 0x86dd for IPv6.
    pub protocol: u16,
}

/// Where the IP packet starts in a captured frame, and its Ethernet type.
///
/// `link` is the capture's link type: 1 Ethernet, 101 raw IP, 228 IPv4, 229 IPv6. `None` comes
/// exactly for a frame that isn't IP: under another link type; under Ethernet where the type, after
/// at most one VLAN tag 0x8100, is neither of the two or isn't there; under raw IP where the first
/// half byte is neither 4 nor 6 or the frame is empty.
#[tactic(auto, unfolding(crate::specs::Frame::cut_of))]
pub fn link_cut(link: u32, bytes: &[u8]) -> Option<LinkCut>
    ensures exact { result ≡ cut_of link bytes.now }
    ensures start { IfSome result (IsIpStart bytes.now) }
{
    match link {
        LINK_ETHERNET => ethernet(bytes),
        LINK_RAW => raw(bytes),
        LINK_IPV4 => Some(whole(TYPE_IPV4)),
        LINK_IPV6 => Some(whole(TYPE_IPV6)),
        _ => None,
    }
}

/// A frame that is the packet alone.
fn whole(protocol: u16) -> LinkCut
    ensures length { result.length ≡ 0 }
    ensures protocol { result.protocol ≡ protocol }
{
    LinkCut {
        length: 0,
        protocol,
    }
}

/// The cut under Ethernet.
fn ethernet(bytes: &[u8]) -> Option<LinkCut>
    ensures exact { result ≡ ethernet_cut bytes.now }
    ensures start { IfSome result (IsIpStart bytes.now) }
{
    let (length, protocol) = match read_ethernet_type(bytes)? {
        TYPE_VLAN => (TAGGED_HEADER_LENGTH, read_tagged_type(bytes)?),
        kind => (ETHERNET_HEADER_LENGTH, kind),
    };
    if is_ip(protocol) {
        Some(LinkCut { length, protocol })
    } else {
        None
    }
}

/// The cut under raw IP.
fn raw(bytes: &[u8]) -> Option<LinkCut>
    ensures exact { result ≡ raw_cut bytes.now }
    ensures start { IfSome result (IsIpStart bytes.now) }
{
    match read_version(bytes)? {
        IPV4_VERSION => Some(whole(TYPE_IPV4)),
        IPV6_VERSION => Some(whole(TYPE_IPV6)),
        _ => None,
    }
}
