//! The header of an Ethernet frame with one VLAN tag: IEEE 802.1Q, section 9, 18 bytes. The tag
//! stands where the type of an untagged frame does, and the type after it.
//!
//! | Place | Width | Name                              |
//! |-------|-------|-----------------------------------|
//! | 0     | 6     | destination address               |
//! | 6     | 6     | source address                    |
//! | 12    | 2     | the tag's type, 0x8100            |
//! | 14    | 2     | priority, VLAN number             |
//! | 16    | 2     | Ethernet type, highest byte first |

ghost use Rattle.std.specs.Prelude.{◌≡◌, nat_le, length, if◌then◌else◌};
ghost use Rattle.packet_entry.specs.Numbers.{tagged_header_length};
ghost use Rattle.ip_fields.specs.Frame.{tagged_type};

use crate::ethernet::read_type_at;

/// The bytes of the header with its tag.
pub(crate) const TAGGED_HEADER_LENGTH: usize = 18;
/// The type of a tag, where an untagged frame has its own.
pub(crate) const TYPE_VLAN: u16 = 0x8100;
/// Where the type begins after the tag, in bytes from the start of the frame.
const TAGGED_TYPE_AT: usize = 16;

/// The type after the tag, where the frame has a whole header.
pub(crate) fn read_tagged_type(frame: &[u8]) -> Option<u16>
    ensures { result
        ≡ (if nat_le tagged_header_length (length frame.now)
        then Some (tagged_type frame.now) else None) }
{
    read_type_at(frame, TAGGED_TYPE_AT)
}
