//! Messages: a header, [`MessageHeader`], and a body.

ghost use Rattle.std.specs.Prelude.{◌≡◌, ℕ, ◌+◌, ◌^◌, ◌<◌, ◌≤◌, ◌↔◌, ◌++◌, length, Some, OnOk};
ghost use Rattle.std.specs.Prelude.{OnErr, IfSome, IsNone, IsOk, option_map};
ghost use Rattle.std.specs.Vec.{vec_len, vec_capacity};
ghost use Rattle.netlink_codec.specs.Numbers.{message_header_length};
ghost use Rattle.netlink_codec.specs.Messages.{NetlinkMessage, Front, HasNoMessage, message_of};
ghost use Rattle.netlink_codec.specs.Messages.{framed_of, message_text, first_message, pad};

use crate::message_header::{
    MESSAGE_HEADER_LENGTH, MessageHeader, put_message_header, read_message_header,
};
use std::alloc::AllocError;

/// Messages and attributes begin at multiples of this many bytes (`NLMSG_ALIGNTO`, `NLA_ALIGNTO`).
pub(crate) const ALIGNMENT: usize = 4;

/// A message that some bytes begin with. It borrows them.
#[derive(Clone, Copy, Debug, PartialEq, Eq)]
pub struct Message<'a> {
    /// What the message is about; kinds below 16 are control messages.
    pub kind: u16,
    /// Flags, such as `NLM_F_REQUEST` 1 and `NLM_F_ACK` 4.
    pub flags: u16,
    /// The sender's number for this message; in an acknowledgement, the request's.
    pub sequence: u32,
    /// The port of the sender; in an acknowledgement, the request's.
    pub port: u32,
    /// The bytes after the header, without padding.
    pub body: &'a [u8],
    /// Header and body, without padding.
    pub whole: &'a [u8],
}

/// `length` rounded up to a multiple of the alignment.
pub(crate) fn padded(length: usize) -> usize
    requires { length < 2 ^ 63 }
    ensures { result ≡ pad length }
{
    (length + ALIGNMENT - 1) / ALIGNMENT * ALIGNMENT
}

/// Cuts the first message from `bytes`, and says how many of them it uses: its length rounded up
/// to a multiple of 4, or all that there are.
///
/// `None` where there are fewer than 16 bytes, or the message's length is below 16 or above what
/// is there (`NLMSG_OK`). Nothing is copied.
pub fn next_message(bytes: &[u8]) -> Option<(Message<'_>, usize)>
    ensures found { IfSome result (λ framed. Front bytes.now (message_of framed.0) framed.1) }
    ensures only { (message : NetlinkMessage) (used : ℕ) → Front bytes.now message used →
        option_map framed_of result ≡ Some (message, used) }
    ensures none { IsNone result ↔ HasNoMessage bytes.now }
    ensures reading { option_map framed_of result ≡ first_message bytes.now }
{
    read_message(bytes)
}

/// The message that the bytes begin with, by the three tests of `NLMSG_OK`.
#[tactic(auto, unfolding(crate::specs::Messages::first_message))]
fn read_message(bytes: &[u8]) -> Option<(Message<'_>, usize)>
    ensures { option_map framed_of result ≡ first_message bytes.now }
{
    if bytes.len() < MESSAGE_HEADER_LENGTH {
        return None;
    }
    let header = read_message_header(bytes);
    let length = header.length as usize;
    if length < MESSAGE_HEADER_LENGTH || bytes.len() < length {
        return None;
    }
    let whole = &bytes[..length];
    let message = Message {
        kind: header.kind,
        flags: header.flags,
        sequence: header.sequence,
        port: header.port,
        body: &whole[MESSAGE_HEADER_LENGTH..],
        whole,
    };
    Some((message, padded(length).min(bytes.len())))
}

/// Appends a message to `out`: a header of 16 bytes, whose length counts itself and the body, and
/// the body. No padding follows.
///
/// `AllocError` is out of memory, and then `out` has what it had. It doesn't come where `out` has
/// room for the message.
pub fn put_message(
    out: &mut Vec<u8>,
    kind: u16,
    flags: u16,
    sequence: u32,
    port: u32,
    body: &[u8],
) -> Result<(), AllocError>
    requires { length body.now < 2 ^ 31 }
    ensures ok { OnOk result (out.new.items
        ≡ out.old.items ++ message_text kind flags sequence port body.now) }
    ensures err { OnErr result (out.new.items ≡ out.old.items) }

    // Where there is room it succeeds, and room is never lost.
    ensures room { vec_len out.old + (message_header_length + length body.now)
        ≤ vec_capacity out.old → IsOk result }
    ensures capacity { vec_capacity out.old ≤ vec_capacity out.new }
{
    put_split_message(out, kind, flags, sequence, port, body, &[], &[])
}

/// Appends a message as [`put_message`] does, whose body is `head`, `middle` and `tail`, one behind
/// the other, so that what lies apart needn't be brought together before.
pub fn put_split_message(
    out: &mut Vec<u8>,
    kind: u16,
    flags: u16,
    sequence: u32,
    port: u32,
    head: &[u8],
    middle: &[u8],
    tail: &[u8],
) -> Result<(), AllocError>
    requires { length head.now + length middle.now + length tail.now < 2 ^ 31 }
    ensures ok { OnOk result (out.new.items ≡ out.old.items
        ++ message_text kind flags sequence port (head.now ++ middle.now ++ tail.now)) }
    ensures err { OnErr result (out.new.items ≡ out.old.items) }

    // Where there is room it succeeds, and room is never lost.
    ensures room { vec_len out.old + (message_header_length
        + (length head.now + length middle.now + length tail.now))
        ≤ vec_capacity out.old → IsOk result }
    ensures capacity { vec_capacity out.old ≤ vec_capacity out.new }
{
    let body = head.len() + middle.len() + tail.len();
    let header = put_message_header(MessageHeader {
        length: (MESSAGE_HEADER_LENGTH + body) as u32,
        kind,
        flags,
        sequence,
        port,
    });
    out.reserve(MESSAGE_HEADER_LENGTH + body)?;
    out.extend_from_slice(&header)?;
    append_parts(out, head, middle, tail)
}

/// Appends `head`, `middle` and `tail`, or nothing.
#[inline(always)]
pub(crate) fn append_parts(
    out: &mut Vec<u8>,
    head: &[u8],
    middle: &[u8],
    tail: &[u8],
) -> Result<(), AllocError>
    requires { length head.now + length middle.now + length tail.now < 2 ^ 64 }
    ensures ok { OnOk result (out.new.items ≡ out.old.items ++ head.now ++ middle.now ++ tail.now) }
    ensures err { OnErr result (out.new.items ≡ out.old.items) }
    ensures room { vec_len out.old + (length head.now + length middle.now + length tail.now)
        ≤ vec_capacity out.old → IsOk result }
    ensures capacity { vec_capacity out.old ≤ vec_capacity out.new }
{
    out.reserve(head.len() + middle.len() + tail.len())?;
    out.extend_from_slice(head)?;
    out.extend_from_slice(middle)?;
    out.extend_from_slice(tail)
}
