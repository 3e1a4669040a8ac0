//! The sender's hardware address, `struct nfqnl_msg_packet_hw`, in which the address is filled up
//! to 8 bytes:
//!
//! | Place | Width | Field |
//! |---|---|---|
//! | 0 | 2 | length of the address, 6 |
//! | 2 | 2 | padding, 0 |
//! | 4 | 6 | address |
//! | 10 | 2 | filler, 0 |

ghost use Rattle.std.specs.Prelude.{◌≡◌, ◌++◌, length, option_map, IfSome, ◌≤◌, ◌+◌};
ghost use Rattle.arrayvec.specs.ArrayVec.{array_vec_len};
ghost use Rattle.netlink_codec.specs.Attributes.{attributes_text};
ghost use Rattle.nfqa_headers.specs.Numbers.{hardware_address_kind, hardware_address_length};
ghost use Rattle.nfqa_headers.specs.Numbers.{parts_room};
ghost use Rattle.nfqa_headers.specs.Headers.{packet_address_length, address_content};
ghost use Rattle.nfqa_headers.specs.AttributeReading as read;
ghost use Rattle.nfqa_headers.specs.AttributeWriting.{part, part_length};

use crate::attribute_reading::at_least;
use crate::attribute_writing::{Parts, put_part};
use crate::kinds::HARDWARE_ADDRESS;
use byteorder::{BigEndian, ByteOrder};

/// The content's bytes.
pub const PACKET_ADDRESS_LENGTH: usize = 12;
/// Where the address's length begins.
const LENGTH_AT: usize = 0;
/// Where the address begins.
const ADDRESS_AT: usize = 4;

/// The bytes of a hardware address.
pub const ADDRESS_LENGTH: usize = 6;

/// The address that a content says.
pub fn read_address(content: Option<&[u8]>) -> Option<&[u8]>
    ensures value { option_map (λ source. source.now) result
        ≡ read.source_of (option_map (λ content. content.now) content.entry) }
    ensures length { IfSome result (λ source. length source.now ≡ hardware_address_length) }
{
    match at_least(content, PACKET_ADDRESS_LENGTH) {
        None => None,
        Some(content) => Some(&content[ADDRESS_AT..ADDRESS_AT + ADDRESS_LENGTH]),
    }
}

/// Appends the address, where there is one.
pub fn put_address(parts: &mut Parts, source: Option<&[u8]>)
    requires length { IfSome source (λ source. length source.now ≡ hardware_address_length) }
    requires room { array_vec_len parts.old + part_length packet_address_length ≤ parts_room }
    ensures text { parts.new.items ≡ parts.old.items
        ++ attributes_text (part hardware_address_kind
        (option_map address_content (option_map (λ source. source.now) source.entry))) }
    ensures length { array_vec_len parts.new
        ≤ array_vec_len parts.old + part_length packet_address_length }
{
    if let Some(source) = source {
        put_part(parts, HARDWARE_ADDRESS, &address_of(source));
    }
}

/// The content that says the address.
#[inline(always)]
pub fn address_of(source: &[u8]) -> [u8; PACKET_ADDRESS_LENGTH]
    requires { length source.now ≡ hardware_address_length }
    ensures { result ≡ address_content source.now }
{
    let mut content = [0; PACKET_ADDRESS_LENGTH];
    BigEndian::write_u16(&mut content[LENGTH_AT..], ADDRESS_LENGTH as u16);
    content[ADDRESS_AT..ADDRESS_AT + ADDRESS_LENGTH].copy_from_slice(source);
    content
}
