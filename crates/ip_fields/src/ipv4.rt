//! The IPv4 header: RFC 791, section 3.1, 20 bytes before any options. Numbers have their highest
//! byte first.
//!
//! | Place | Width | Name                     |
//! |-------|-------|--------------------------|
//! | 0     | 1     | version 4, header length |
//! | 1     | 1     | type of service          |
//! | 2     | 2     | total length             |
//! | 4     | 2     | identification           |
//! | 6     | 2     | flags, fragment offset   |
//! | 8     | 1     | time to live             |
//! | 9     | 1     | protocol                 |
//! | 10    | 2     | header checksum          |
//! | 12    | 4     | source address           |
//! | 16    | 4     | destination address      |

ghost use Rattle.std.specs.Prelude.{◌≡◌, ◌≤◌, ◌<◌, ◌^◌, length};
ghost use Rattle.ip_fields.specs.Numbers.{ipv4_header_length};
ghost use Rattle.ip_fields.specs.Packet.{ipv4_fields};

use crate::packet::IpFields;
use byteorder::{BigEndian, ByteOrder};

/// The version in the upper half of the first byte.
pub(crate) const IPV4_VERSION: u8 = 4;
/// The bytes of the header, without options.
pub(crate) const IPV4_HEADER_LENGTH: usize = 20;
/// Where the protocol is, in bytes from the start of the header, as all places here.
const PROTOCOL_AT: usize = 9;
/// Where the source address begins.
const SOURCE_AT: usize = 12;
/// Where the destination address begins.
const DESTINATION_AT: usize = 16;

/// The fields of the header that the bytes begin with.
#[tactic(auto, unfolding(crate::specs::Packet::network_number))]
pub(crate) fn read_ipv4(bytes: &[u8]) -> IpFields
    requires { ipv4_header_length ≤ length bytes.now }
    ensures exact { result ≡ ipv4_fields bytes.now }
    ensures source { result.source < 2 ^ 32 }
    ensures destination { result.destination < 2 ^ 32 }
{
    IpFields {
        family: IPV4_VERSION,
        protocol: bytes[PROTOCOL_AT],
        source: u128::from(BigEndian::read_u32(&bytes[SOURCE_AT..])),
        destination: u128::from(BigEndian::read_u32(&bytes[DESTINATION_AT..])),
    }
}
