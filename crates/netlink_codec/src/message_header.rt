//! The header of a message: `struct nlmsghdr` of uapi linux/netlink.h, 16 bytes. Each field is a
//! number with its lowest byte first.
//!
//! | Place | Width | Name     |                                             |
//! |-------|-------|----------|---------------------------------------------|
//! | 0     | 4     | length   | bytes of header and body                    |
//! | 4     | 2     | kind     | what the message is about                   |
//! | 6     | 2     | flags    | `NLM_F_REQUEST` and others                  |
//! | 8     | 4     | sequence | the sender's number for it                  |
//! | 12    | 4     | port     | the sender's port                           |
//!
//! An acknowledgement has the sequence and the port of the request that it answers.

ghost use Rattle.std.specs.Prelude.{◌≡◌, ◌≤◌, length};
ghost use Rattle.netlink_codec.specs.Fields.{told};
ghost use Rattle.netlink_codec.specs.Numbers.{message_flags, message_header_length, message_kind};
ghost use Rattle.netlink_codec.specs.Numbers.{message_port, message_sequence, message_total};
ghost use Rattle.netlink_codec.specs.Messages.{header_text};

use byteorder::{ByteOrder, LittleEndian};

/// The bytes of the header (`NLMSG_HDRLEN`).
pub(crate) const MESSAGE_HEADER_LENGTH: usize = 16;
/// Where the length begins, in bytes from the start of the header, as all places here.
const LENGTH_AT: usize = 0;
/// Where the kind begins.
const KIND_AT: usize = 4;
/// Where the flags begin.
const FLAGS_AT: usize = 6;
/// Where the sequence begins.
const SEQUENCE_AT: usize = 8;
/// Where the port begins.
const PORT_AT: usize = 12;

/// The fields of a message's header.
#[derive(Clone, Copy)]
pub(crate) struct MessageHeader {
    /// The bytes of header and body.
    pub(crate) length: u32,
    pub(crate) kind: u16,
    pub(crate) flags: u16,
    pub(crate) sequence: u32,
    pub(crate) port: u32,
}

/// The header that the bytes begin with.
#[tactic(auto, using(std::proofs::lemmas::List::take_rest))]
pub(crate) fn read_message_header(bytes: &[u8]) -> MessageHeader
    requires { message_header_length ≤ length bytes.now }
    ensures length { result.length ≡ told message_total bytes.now }
    ensures kind { result.kind ≡ told message_kind bytes.now }
    ensures flags { result.flags ≡ told message_flags bytes.now }
    ensures sequence { result.sequence ≡ told message_sequence bytes.now }
    ensures port { result.port ≡ told message_port bytes.now }
{
    MessageHeader {
        length: LittleEndian::read_u32(&bytes[LENGTH_AT..]),
        kind: LittleEndian::read_u16(&bytes[KIND_AT..]),
        flags: LittleEndian::read_u16(&bytes[FLAGS_AT..]),
        sequence: LittleEndian::read_u32(&bytes[SEQUENCE_AT..]),
        port: LittleEndian::read_u32(&bytes[PORT_AT..]),
    }
}

/// The bytes of the header.
pub(crate) fn put_message_header(header: MessageHeader) -> [u8; MESSAGE_HEADER_LENGTH]
    ensures { result
        ≡ header_text header.kind header.flags header.sequence header.port header.length }
{
    let mut bytes = [0; MESSAGE_HEADER_LENGTH];
    LittleEndian::write_u32(&mut bytes[LENGTH_AT..], header.length);
    LittleEndian::write_u16(&mut bytes[KIND_AT..], header.kind);
    LittleEndian::write_u16(&mut bytes[FLAGS_AT..], header.flags);
    LittleEndian::write_u32(&mut bytes[SEQUENCE_AT..], header.sequence);
    LittleEndian::write_u32(&mut bytes[PORT_AT..], header.port);
    bytes
}
