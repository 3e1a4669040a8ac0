//! When the packet was captured, `struct nfqnl_msg_packet_timestamp`:
//!
//! | Place | Width | Field |
//! |---|---|---|
//! | 0 | 8 | seconds since 1970 |
//! | 8 | 8 | microseconds of that second |

ghost use Rattle.std.specs.Prelude.{◌≡◌, ◌++◌, Some, option_map, ◌≤◌, ◌+◌};
ghost use Rattle.arrayvec.specs.ArrayVec.{array_vec_len};
ghost use Rattle.netlink_codec.specs.Attributes.{attributes_text};
ghost use Rattle.nfqa_headers.specs.Numbers.{timestamp_kind, parts_room};
ghost use Rattle.nfqa_headers.specs.Headers.{stamp_content, timestamp_length, low_half};
ghost use Rattle.nfqa_headers.specs.Headers.{seconds_field, micros_field};
ghost use Rattle.nfqa_headers.specs.AttributeReading.{value_of};
ghost use Rattle.nfqa_headers.specs.AttributeWriting.{part, part_length};

use crate::attribute_reading;
use crate::attribute_writing::{Parts, put_part};
use crate::kinds::TIMESTAMP;
use byteorder::{BigEndian, ByteOrder};

/// The content's bytes.
pub const TIMESTAMP_LENGTH: usize = 16;
/// Where the seconds begin.
const SECONDS_AT: usize = 0;
/// Where the microseconds begin.
const MICROS_AT: usize = 8;
/// Where the low 4 of a number's 8 bytes begin in them.
const LOW_HALF_AT: usize = 4;

/// The seconds that a content says; 0 where it has too few bytes.
pub fn read_seconds(content: Option<&[u8]>) -> u32
    ensures { result ≡ value_of timestamp_length (low_half seconds_field)
        (option_map (λ content. content.now) content.entry) }
{
    attribute_reading::value_of(content, TIMESTAMP_LENGTH, SECONDS_AT + LOW_HALF_AT)
}

/// The microseconds that a content says; 0 where it has too few bytes.
pub fn read_micros(content: Option<&[u8]>) -> u32
    ensures { result ≡ value_of timestamp_length (low_half micros_field)
        (option_map (λ content. content.now) content.entry) }
{
    attribute_reading::value_of(content, TIMESTAMP_LENGTH, MICROS_AT + LOW_HALF_AT)
}

/// Appends the time of capture.
pub fn put_stamp(parts: &mut Parts, seconds: u32, micros: u32)
    requires room { array_vec_len parts.old + part_length timestamp_length ≤ parts_room }
    ensures text { parts.new.items ≡ parts.old.items ++
        attributes_text (part timestamp_kind (Some (stamp_content seconds micros))) }
    ensures length { array_vec_len parts.new
        ≤ array_vec_len parts.old + part_length timestamp_length }
{
    put_part(parts, TIMESTAMP, &stamp_of(seconds, micros));
}

/// The content that says the time.
#[inline(always)]
pub fn stamp_of(seconds: u32, micros: u32) -> [u8; TIMESTAMP_LENGTH]
    ensures { result ≡ stamp_content seconds micros }
{
    let mut content = [0; TIMESTAMP_LENGTH];
    BigEndian::write_u64(&mut content[SECONDS_AT..], seconds.into());
    BigEndian::write_u64(&mut content[MICROS_AT..], micros.into());
    content
}
