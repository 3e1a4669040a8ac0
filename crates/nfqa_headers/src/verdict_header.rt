//! The head of a verdict or a batch, `struct nfqnl_msg_verdict_hdr`:
//!
//! | Place | Width | Field |
//! |---|---|---|
//! | 0 | 4 | verdict |
//! | 4 | 4 | id of the packet; in a batch the greatest id |

ghost use Rattle.std.specs.Prelude.{◌≡◌, ◌≤◌, ◌++◌, length, ◌+◌};
ghost use Rattle.arrayvec.specs.ArrayVec.{array_vec_len};
ghost use Rattle.netlink_codec.specs.Attributes.{attributes_text};
ghost use Rattle.nfqa_headers.specs.Numbers.{parts_room};
ghost use Rattle.nfqa_headers.specs.Headers.{head_content, head_in, verdict_header_length};
ghost use Rattle.nfqa_headers.specs.AttributeWriting.{head_part, part_length};

use crate::attribute_writing::{Parts, put_part};
use crate::kinds::VERDICT_HEADER;
use byteorder::{BigEndian, ByteOrder};

/// The verdict and the id that a verdict message names.
#[derive(Clone, Copy, Debug, PartialEq, Eq)]
pub struct Head {
    /// The decision in its low 8 bits, for `QUEUE` with the queue's number in its high 16 bits.
    pub verdict: u32,
    /// The id that the packet waits under; in a batch the greatest id.
    pub id: u32,
}

/// The content's bytes.
pub const VERDICT_HEADER_LENGTH: usize = 8;
/// Where the verdict begins.
const VERDICT_AT: usize = 0;
/// Where the id begins.
const ID_AT: usize = 4;

/// Verdict and id that a content says.
pub fn read_head(content: &[u8]) -> Head
    requires { verdict_header_length ≤ length content.now }
    ensures { result ≡ head_in content.now }
{
    Head {
        verdict: BigEndian::read_u32(&content[VERDICT_AT..]),
        id: BigEndian::read_u32(&content[ID_AT..]),
    }
}

/// Appends verdict and id, where they are there.
pub fn put_head(parts: &mut Parts, head: Option<Head>)
    requires room { array_vec_len parts.old + part_length verdict_header_length ≤ parts_room }
    ensures text { parts.new.items ≡ parts.old.items ++ attributes_text (head_part head) }
    ensures length { array_vec_len parts.new
        ≤ array_vec_len parts.old + part_length verdict_header_length }
{
    if let Some(head) = head {
        put_part(parts, VERDICT_HEADER, &head_of(head));
    }
}

/// The content that says verdict and id.
#[inline(always)]
pub fn head_of(head: Head) -> [u8; VERDICT_HEADER_LENGTH]
    ensures { result ≡ head_content head }
{
    let mut content = [0; VERDICT_HEADER_LENGTH];
    BigEndian::write_u32(&mut content[VERDICT_AT..], head.verdict);
    BigEndian::write_u32(&mut content[ID_AT..], head.id);
    content
}
