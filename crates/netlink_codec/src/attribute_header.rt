//! The header of an attribute: `struct nlattr` of uapi linux/netlink.h, 4 bytes. Each field is a
//! number with its lowest byte first.
//!
//! | Place | Width | Name   |                                       |
//! |-------|-------|--------|---------------------------------------|
//! | 0     | 2     | length | bytes of header and content           |
//! | 2     | 2     | kind   | its low 14 bits; two flags above them |

ghost use Rattle.std.specs.Prelude.{◌≡◌, ◌≤◌, length};
ghost use Rattle.netlink_codec.specs.Fields.{told};
ghost use Rattle.netlink_codec.specs.Numbers.{attribute_header_length, attribute_kind};
ghost use Rattle.netlink_codec.specs.Numbers.{attribute_total};
ghost use Rattle.netlink_codec.specs.Attributes.{attribute_header_text};

use byteorder::{ByteOrder, LittleEndian};

/// The bytes of the header (`NLA_HDRLEN`).
pub(crate) const ATTRIBUTE_HEADER_LENGTH: usize = 4;
/// Where the length begins, in bytes from the start of the header.
const LENGTH_AT: usize = 0;
/// Where the kind begins, likewise.
const KIND_AT: usize = 2;

/// The fields of an attribute's header.
#[derive(Clone, Copy)]
pub(crate) struct AttributeHeader {
    /// The bytes of header and content.
    pub(crate) length: u16,
    /// The kind, with the flags above its 14 bits.
    pub(crate) kind: u16,
}

/// The header that the bytes begin with.
#[tactic(auto, using(std::proofs::lemmas::List::take_rest))]
pub(crate) fn read_attribute_header(bytes: &[u8]) -> AttributeHeader
    requires { attribute_header_length ≤ length bytes.now }
    ensures length { result.length ≡ told attribute_total bytes.now }
    ensures kind { result.kind ≡ told attribute_kind bytes.now }
{
    AttributeHeader {
        length: LittleEndian::read_u16(&bytes[LENGTH_AT..]),
        kind: LittleEndian::read_u16(&bytes[KIND_AT..]),
    }
}

/// The bytes of the header.
pub(crate) fn put_attribute_header(header: AttributeHeader) -> [u8; ATTRIBUTE_HEADER_LENGTH]
    ensures { result ≡ attribute_header_text header.kind header.length }
{
    let mut bytes = [0; ATTRIBUTE_HEADER_LENGTH];
    LittleEndian::write_u16(&mut bytes[LENGTH_AT..], header.length);
    LittleEndian::write_u16(&mut bytes[KIND_AT..], header.kind);
    bytes
}
