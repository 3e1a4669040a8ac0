//! What a notice says of each packet, `struct nfqnl_msg_packet_hdr`:
//!
//! | Place | Width | Field |
//! |---|---|---|
//! | 0 | 4 | id that the packet waits under |
//! | 4 | 2 | Ethernet type |
//! | 6 | 1 | hook, FORWARD |

ghost use Rattle.std.specs.Prelude.{◌≡◌, ◌++◌, Some, option_map, ◌≤◌, ◌+◌};
ghost use Rattle.arrayvec.specs.ArrayVec.{array_vec_len};
ghost use Rattle.packet_entry.specs.Fields.{IsProtocol};
ghost use Rattle.netlink_codec.specs.Attributes.{attributes_text};
ghost use Rattle.nfqa_headers.specs.Numbers.{packet_header_kind, parts_room};
ghost use Rattle.nfqa_headers.specs.Headers.{packet_head_content, packet_header_length};
ghost use Rattle.nfqa_headers.specs.Headers.{packet_id_field, packet_protocol_field};
ghost use Rattle.nfqa_headers.specs.AttributeReading as read;
ghost use Rattle.nfqa_headers.specs.AttributeWriting.{part, part_length};

use crate::attribute_reading::{at_least, value_of};
use crate::attribute_writing::{Parts, put_part};
use crate::kinds::PACKET_HEADER;
use byteorder::{BigEndian, ByteOrder};
use packet_entry::{IPV4, IPV6};

/// The content's bytes.
pub const PACKET_HEADER_LENGTH: usize = 7;
/// Where the id begins.
const ID_AT: usize = 0;
/// Where the Ethernet type begins.
const PROTOCOL_AT: usize = 4;
/// Where the hook stands.
const HOOK_AT: usize = 6;

/// The hook that queues. (`NF_INET_FORWARD`)
const FORWARD: u8 = 2;

/// The id that a content says; 0 where it has too few bytes.
pub fn read_id(header: Option<&[u8]>) -> u32
    ensures { result ≡ read.value_of packet_header_length packet_id_field
        (option_map (λ content. content.now) header.entry) }
{
    value_of(header, PACKET_HEADER_LENGTH, ID_AT)
}

/// The Ethernet type that a content says: one of the two, IPv4's also where none is told.
pub fn read_protocol(header: Option<&[u8]>) -> u16
    ensures value { result ≡ read.nearest_protocol (read.value_of packet_header_length
        packet_protocol_field (option_map (λ content. content.now) header.entry)) }
    ensures one_of_two { IsProtocol result }
{
    match at_least(header, PACKET_HEADER_LENGTH) {
        None => nearest_protocol(0),
        Some(content) => nearest_protocol(BigEndian::read_u16(&content[PROTOCOL_AT..])),
    }
}

/// One of the two Ethernet types: IPv6's where it is told, else IPv4's.
fn nearest_protocol(protocol: u16) -> u16
    ensures value { result ≡ read.nearest_protocol protocol }
    ensures one_of_two { IsProtocol result }
{
    if protocol == IPV6 { IPV6 } else { IPV4 }
}

/// Appends id, Ethernet type and hook.
pub fn put_packet_header(parts: &mut Parts, id: u32, protocol: u16)
    requires room { array_vec_len parts.old + part_length packet_header_length ≤ parts_room }
    ensures text { parts.new.items ≡ parts.old.items ++
        attributes_text (part packet_header_kind (Some (packet_head_content id protocol))) }
    ensures length { array_vec_len parts.new
        ≤ array_vec_len parts.old + part_length packet_header_length }
{
    put_part(parts, PACKET_HEADER, &packet_head_of(id, protocol));
}

/// The content that says id, Ethernet type and hook.
#[inline(always)]
pub fn packet_head_of(id: u32, protocol: u16) -> [u8; PACKET_HEADER_LENGTH]
    ensures { result ≡ packet_head_content id protocol }
{
    let mut content = [0; PACKET_HEADER_LENGTH];
    BigEndian::write_u32(&mut content[ID_AT..], id);
    BigEndian::write_u16(&mut content[PROTOCOL_AT..], protocol);
    content[HOOK_AT] = FORWARD;
    content
}
