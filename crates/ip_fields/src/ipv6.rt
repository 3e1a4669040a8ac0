//! The IPv6 header: RFC 8200, section 3, 40 bytes before any extension headers. Numbers have their
//! highest byte first.
//!
//! | Place | Width | Name                                 |
//! |-------|-------|--------------------------------------|
//! | 0     | 4     | version 6, traffic class, flow label |
//! | 4     | 2     | payload length                       |
//! | 6     | 1     | next header                          |
//! | 7     | 1     | hop limit                            |
//! | 8     | 16    | source address                       |
//! | 24    | 16    | destination address                  |

ghost use Rattle.std.specs.Prelude.{◌≡◌, ◌≤◌, length};
ghost use Rattle.ip_fields.specs.Numbers.{ipv6_header_length};
ghost use Rattle.ip_fields.specs.Packet.{ipv6_fields};

use crate::packet::IpFields;
use byteorder::{BigEndian, ByteOrder};

/// The version in the upper half of the first byte.
pub(crate) const IPV6_VERSION: u8 = 6;
/// The bytes of the header, without extension headers.
pub(crate) const IPV6_HEADER_LENGTH: usize = 40;
/// Where the next header is, in bytes from the start of the header, as all places here.
const NEXT_HEADER_AT: usize = 6;
/// Where the source address begins.
const SOURCE_AT: usize = 8;
/// Where the destination address begins.
const DESTINATION_AT: usize = 24;

/// The fields of the header that the bytes begin with.
#[tactic(auto, unfolding(crate::specs::Packet::network_number))]
pub(crate) fn read_ipv6(bytes: &[u8]) -> IpFields
    requires { ipv6_header_length ≤ length bytes.now }
    ensures { result ≡ ipv6_fields bytes.now }
{
    IpFields {
        family: IPV6_VERSION,
        protocol: bytes[NEXT_HEADER_AT],
        source: BigEndian::read_u128(&bytes[SOURCE_AT..]),
        destination: BigEndian::read_u128(&bytes[DESTINATION_AT..]),
    }
}
