//! Attributes, written one after the other into the parts of a body.

ghost use Rattle.std.specs.Prelude.{◌≡◌, ◌≤◌, ◌<◌, ◌+◌, ◌++◌, length, Some};
ghost use Rattle.arrayvec.specs.ArrayVec.{array_vec_len};
ghost use Rattle.packet_entry.specs.Numbers.{longest_payload};
ghost use Rattle.netlink_codec.specs.Attributes.{attributes_text, zero_padding};
ghost use Rattle.netlink_codec.specs.Numbers.{attribute_header_length, kind_limit};
ghost use Rattle.nfqa_headers.specs.AttributeWriting.{part, part_length, value_part};
ghost use Rattle.nfqa_headers.specs.Headers.{value_content, value_length};
ghost use Rattle.nfqa_headers.specs.Numbers.{parts_room};

use crate::kinds::VALUE_LENGTH;
use arrayvec::ArrayVec;
use byteorder::{BigEndian, ByteOrder};
use netlink_codec::{attr_header, attr_padding};

/// The most bytes of parts: those of a notice before the packet's bytes.
pub const PARTS_ROOM: usize = 96;
/// At most so many zeros follow an attribute's content, up to the next multiple of 4.
const MAX_PADDING: usize = 3;

/// Parts of a message's body, one behind the other. They take no memory.
pub type Parts = ArrayVec<u8, PARTS_ROOM>;

/// Appends bytes, for which there is room.
#[inline(always)]
pub fn put_bytes(parts: &mut Parts, bytes: &[u8])
    requires { array_vec_len parts.old + length bytes.now ≤ parts_room }
    ensures text { parts.new.items ≡ parts.old.items ++ bytes.now }
    ensures length { array_vec_len parts.new ≡ array_vec_len parts.old + length bytes.now }
{
    let Ok(()) = parts.try_extend_from_slice(bytes) else {
        unreachable!()
    };
}

/// The zeros behind an attribute's content.
#[inline(always)]
pub fn zeros_behind(content: &[u8]) -> &[u8]
    requires { length content.now ≤ longest_payload }
    ensures { result.now ≡ zero_padding (attribute_header_length + length content.now) }
{
    &[0; MAX_PADDING][..attr_padding(content.len())]
}

/// Appends an attribute, for which there is room.
#[inline(always)]
pub fn put_part(parts: &mut Parts, kind: u16, content: &[u8])
    requires kind { kind < kind_limit }
    requires content { length content.now ≤ longest_payload }
    requires room { array_vec_len parts.old + part_length (length content.now) ≤ parts_room }
    ensures text { parts.new.items ≡ parts.old.items
        ++ attributes_text (part kind (Some content.now)) }
    ensures length { array_vec_len parts.new
        ≡ array_vec_len parts.old + part_length (length content.now) }
{
    put_bytes(parts, &attr_header(kind, content.len()));
    put_bytes(parts, content);
    put_bytes(parts, zeros_behind(content));
}

/// Appends an attribute that is one number, where there is one. There is room for it.
#[inline(always)]
pub fn put_value(parts: &mut Parts, kind: u16, value: Option<u32>)
    requires kind { kind < kind_limit }
    requires room { array_vec_len parts.old + part_length value_length ≤ parts_room }
    ensures text { parts.new.items ≡ parts.old.items
        ++ attributes_text (value_part kind value) }
    ensures length { array_vec_len parts.new ≤ array_vec_len parts.old + part_length value_length }
{
    if let Some(value) = value {
        put_part(parts, kind, &value_bytes(value));
    }
}

/// The content that is one number.
#[inline(always)]
pub fn value_bytes(value: u32) -> [u8; VALUE_LENGTH]
    ensures { result ≡ value_content value }
{
    let mut content = [0; VALUE_LENGTH];
    BigEndian::write_u32(&mut content, value);
    content
}
