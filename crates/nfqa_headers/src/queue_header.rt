//! The header before the attributes, `struct nfgenmsg`:
//!
//! | Place | Width | Field |
//! |---|---|---|
//! | 0 | 1 | address family; a request's is ignored |
//! | 1 | 1 | version, 0; a request's is ignored |
//! | 2 | 2 | number of the queue |

ghost use Rattle.std.specs.Prelude.{◌≡◌, ◌≤◌, length};
ghost use Rattle.arrayvec.specs.ArrayVec.{array_vec_len};
ghost use Rattle.nfqa_headers.specs.Headers.{queue_header, queue_in, queue_header_length};

use crate::attribute_writing::{Parts, put_bytes};
use byteorder::{BigEndian, ByteOrder};

/// The header's bytes.
pub const QUEUE_HEADER_LENGTH: usize = 4;
/// Where the address family stands.
const FAMILY_AT: usize = 0;
/// Where the queue's number begins.
const QUEUE_AT: usize = 2;

/// The address family of a request. (`AF_UNSPEC`)
pub const ANY_FAMILY: u8 = 0;
/// The address family of an IPv4 packet. (`AF_INET`)
pub const IPV4_FAMILY: u8 = 2;
/// The address family of an IPv6 packet. (`AF_INET6`)
pub const IPV6_FAMILY: u8 = 10;

/// The number of the queue in a message's body.
pub fn read_queue(body: &[u8]) -> u16
    requires { queue_header_length ≤ length body.now }
    ensures { result ≡ queue_in body.now }
{
    BigEndian::read_u16(&body[QUEUE_AT..])
}

/// The parts of a body that has its header alone.
pub fn begin_body(family: u8, queue: u16) -> Parts
    ensures text { result.items ≡ queue_header family queue }
    ensures length { array_vec_len result ≡ queue_header_length }
{
    let mut parts = Parts::new();
    put_bytes(&mut parts, &queue_header_of(family, queue));
    parts
}

/// The header's bytes.
#[inline(always)]
pub fn queue_header_of(family: u8, queue: u16) -> [u8; QUEUE_HEADER_LENGTH]
    ensures { result ≡ queue_header family queue }
{
    let mut header = [0; QUEUE_HEADER_LENGTH];
    header[FAMILY_AT] = family;
    BigEndian::write_u16(&mut header[QUEUE_AT..], queue);
    header
}
