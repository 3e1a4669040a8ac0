//! The header of an Ethernet II frame: IEEE 802.3, section 3, 14 bytes.
//!
//! | Place | Width | Name                              |
//! |-------|-------|-----------------------------------|
//! | 0     | 6     | destination address               |
//! | 6     | 6     | source address                    |
//! | 12    | 2     | Ethernet type, highest byte first |

ghost use Rattle.std.specs.Prelude.{◌≡◌, ◌≤◌, ◌+◌, nat_le, length, if◌then◌else◌};
ghost use Rattle.packet_entry.specs.Numbers.{ethernet_header_length};
ghost use Rattle.ip_fields.specs.Numbers.{ethernet_type_length, tagged_type_at};
ghost use Rattle.ip_fields.specs.Packet.{network_number};
ghost use Rattle.ip_fields.specs.Frame.{ethernet_type, is_ip_type};

use byteorder::{BigEndian, ByteOrder};

/// The bytes of the header.
pub(crate) const ETHERNET_HEADER_LENGTH: usize = 14;
/// Where the type begins, in bytes from the start of the frame.
const TYPE_AT: usize = 12;
/// The bytes of a type.
const TYPE_LENGTH: usize = 2;

/// The type of a frame with an IPv4 packet (IEEE 802 numbers).
pub(crate) const TYPE_IPV4: u16 = 0x0800;
/// The type of a frame with an IPv6 packet (IEEE 802 numbers).
pub(crate) const TYPE_IPV6: u16 = 0x86dd;

/// The type in the header, where the frame has a whole header.
pub(crate) fn read_ethernet_type(frame: &[u8]) -> Option<u16>
    ensures { result
        ≡ (if nat_le ethernet_header_length (length frame.now)
        then Some (ethernet_type frame.now) else None) }
{
    read_type_at(frame, TYPE_AT)
}

/// The type in the two bytes from place `at`, where they are there.
#[tactic(auto, unfolding(crate::specs::Packet::network_number))]
pub(crate) fn read_type_at(frame: &[u8], at: usize) -> Option<u16>
    requires { at ≤ tagged_type_at }
    ensures { result
        ≡ (if nat_le (at + ethernet_type_length) (length frame.now)
        then Some (network_number ethernet_type_length at frame.now) else None) }
{
    if frame.len() < at + TYPE_LENGTH {
        return None;
    }
    Some(BigEndian::read_u16(&frame[at..]))
}

/// Whether a packet of this type is IP.
pub(crate) fn is_ip(kind: u16) -> bool
    ensures { result ≡ is_ip_type kind }
{
    kind == TYPE_IPV4 || kind == TYPE_IPV6
}
