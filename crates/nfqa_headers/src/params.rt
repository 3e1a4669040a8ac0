//! Copy range and mode, `struct nfqnl_msg_config_params`:
//!
//! | Place | Width | Field |
//! |---|---|---|
//! | 0 | 4 | range, in bytes |
//! | 4 | 1 | mode |

ghost use Rattle.std.specs.Prelude.{◌≡◌, ◌≤◌, ◌++◌, length, option_map, ◌+◌};
ghost use Rattle.arrayvec.specs.ArrayVec.{array_vec_len};
ghost use Rattle.netlink_codec.specs.Attributes.{attributes_text};
ghost use Rattle.nfqa_headers.specs.Numbers.{params_kind, parts_room};
ghost use Rattle.nfqa_headers.specs.Headers.{params_in, params_content, params_length};
ghost use Rattle.nfqa_headers.specs.AttributeWriting.{part, part_length};

use crate::attribute_writing::{Parts, put_part};
use crate::kinds::PARAMS;
use byteorder::{BigEndian, ByteOrder};

/// What of a packet is copied into its notice.
#[derive(Clone, Copy, Debug, PartialEq, Eq)]
pub struct Params {
    /// How many bytes at most, under the mode `PACKET`; 0 asks for as many as a notice can have.
    pub range: u32,
    /// `NONE`, `META` or `PACKET`. Any other mode changes neither mode nor range.
    pub mode: u8,
}

/// The content's bytes.
pub const PARAMS_LENGTH: usize = 5;
/// Where the range begins.
const RANGE_AT: usize = 0;
/// Where the mode stands.
const MODE_AT: usize = 4;

/// Range and mode that a content says.
pub fn read_params(content: &[u8]) -> Params
    requires { params_length ≤ length content.now }
    ensures { result ≡ params_in content.now }
{
    Params {
        range: BigEndian::read_u32(&content[RANGE_AT..]),
        mode: content[MODE_AT],
    }
}

/// Appends range and mode, where they are there.
pub fn put_params(parts: &mut Parts, params: Option<Params>)
    requires room { array_vec_len parts.old + part_length params_length ≤ parts_room }
    ensures text { parts.new.items ≡ parts.old.items ++
        attributes_text (part params_kind (option_map params_content params)) }
    ensures length { array_vec_len parts.new
        ≤ array_vec_len parts.old + part_length params_length }
{
    if let Some(params) = params {
        let mut content = [0; PARAMS_LENGTH];
        BigEndian::write_u32(&mut content[RANGE_AT..], params.range);
        content[MODE_AT] = params.mode;
        put_part(parts, PARAMS, &content);
    }
}
