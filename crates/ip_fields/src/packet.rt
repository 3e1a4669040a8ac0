//! What an IP packet says of itself, by the headers of IPv4 and IPv6.

ghost use Rattle.std.specs.Prelude.{◌≡◌, ◌==◌, length, IfSome, if◌then◌else◌};
ghost use Rattle.ip_fields.specs.Packet.{IsAddressed, fields_of, version_of};

use crate::ipv4::{IPV4_HEADER_LENGTH, IPV4_VERSION, read_ipv4};
use crate::ipv6::{IPV6_HEADER_LENGTH, IPV6_VERSION, read_ipv6};

/// The fields of an IP header that rules and the flow hash look at.
#[derive(Clone, Copy, Debug, PartialEq, Eq)]
pub struct IpFields {
    /// The version, 4 or 6.
    pub family: u8,
    /// The protocol number of IPv4, or the first next header of IPv6.
    pub protocol: u8,
    /// The source address as a number: of 32 bits in family 4, of 128 in family 6.
    pub source: u128,
    /// The destination address, like `source`.
    pub destination: u128,
}

/// The fields of the packet that the bytes begin with, at the fixed places of its header.
///
/// `None` comes exactly where the bytes have no header of version 4 with its 20 bytes and none of
/// version 6 with its 40. Lengths, checksums and options aren't looked at, and extension headers of
/// IPv6 aren't followed.
#[tactic(auto, unfolding(crate::specs::Packet::fields_of))]
pub fn fields(bytes: &[u8]) -> Option<IpFields>
    ensures exact { result ≡ fields_of bytes.now }
    ensures addressed { IfSome result IsAddressed }
{
    match read_version(bytes)? {
        IPV4_VERSION if bytes.len() >= IPV4_HEADER_LENGTH => Some(read_ipv4(bytes)),
        IPV6_VERSION if bytes.len() >= IPV6_HEADER_LENGTH => Some(read_ipv6(bytes)),
        _ => None,
    }
}

/// The version of the packet that the bytes begin with: the upper half of the first byte. `None`
/// where there is no byte.
pub(crate) fn read_version(bytes: &[u8]) -> Option<u8>
    ensures { result ≡ (if length bytes.now == 0 then None else Some (version_of bytes.now)) }
{
    bytes.first().map(|first| first >> 4)
}
