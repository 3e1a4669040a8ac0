//! Acknowledgements: messages whose body is a `struct nlmsgerr` of uapi linux/netlink.h.
//!
//! | Place | Width | Name   |                                                                  |
//! |-------|-------|--------|------------------------------------------------------------------|
//! | 0     | 4     | errno  | minus the errno as an `i32`, lowest byte first; 0 for a success  |
//! | 4     | all   | quoted | the request's header for a success, otherwise the whole request  |

ghost use Rattle.std.specs.Prelude.{◌≡◌, ◌^◌, ◌+◌, ◌<◌, ◌≤◌, ◌++◌, ◌==◌, if◌then◌else◌, length};
ghost use Rattle.std.specs.Prelude.{take, OnOk, OnErr, IsOk, IsTrue};
ghost use Rattle.std.specs.Vec.{vec_len, vec_capacity};
ghost use Rattle.netlink_codec.specs.Numbers.{errno_length, message_header_length};
ghost use Rattle.netlink_codec.specs.Messages.{message_of};
ghost use Rattle.netlink_codec.specs.Acknowledgements.{acknowledgement, answer, is_unanswered};
ghost use Rattle.netlink_codec.specs.Acknowledgements.{negated_errno};

use crate::message_header::{MESSAGE_HEADER_LENGTH, MessageHeader, put_message_header};
use crate::messages::{Message, append_parts};
use byteorder::{ByteOrder, LittleEndian};
use std::alloc::AllocError;

/// The kind of an acknowledgement (uapi linux/netlink.h).
const NLMSG_ERROR: u16 = 2;
/// The flag by which a request asks for an acknowledgement of success (uapi linux/netlink.h).
const NLM_F_ACK: u16 = 4;
/// The bytes of the errno.
const ERRNO_LENGTH: usize = 4;

/// Appends the acknowledgement of a request to `out`: a message of kind `NLMSG_ERROR` with the
/// request's sequence and port, minus the errno as an `i32`, and then the request's header where
/// `errno` is 0, and otherwise the whole request. Where `errno` is 0 and the request doesn't have
/// the flag `NLM_F_ACK`, there is no acknowledgement and nothing is appended.
///
/// `AllocError` is out of memory, and then `out` has what it had. It doesn't come where nothing is
/// appended, nor where `out` has room for the acknowledgement, which has at most 20 bytes and the
/// whole request.
#[tactic(auto, unfolding(crate::specs::Acknowledgements::answer))]
pub fn ack(request: &Message<'_>, errno: u16, out: &mut Vec<u8>) -> Result<(), AllocError>
    requires { length request.now.whole.now < 2 ^ 31 }
    ensures ok { OnOk result (out.new.items
        ≡ out.old.items ++ answer (message_of request.now) errno) }
    ensures err { OnErr result (out.new.items ≡ out.old.items) }

    // Where nothing is due, or there is room for the answer, it succeeds, and room is never lost.
    ensures unanswered { IsTrue (is_unanswered (message_of request.now) errno) → IsOk result }
    ensures room { vec_len out.old
        + (message_header_length + errno_length + length request.now.whole.now)
        ≤ vec_capacity out.old → IsOk result }
    ensures exact_room { vec_len out.old + length (answer (message_of request.now) errno)
        ≤ vec_capacity out.old → IsOk result }
    ensures capacity { vec_capacity out.old ≤ vec_capacity out.new }
{
    if errno == 0 && request.flags & NLM_F_ACK == 0 {
        return Ok(());
    }
    put_ack(request, errno, out)
}

/// Appends the acknowledgement.
fn put_ack(request: &Message<'_>, errno: u16, out: &mut Vec<u8>) -> Result<(), AllocError>
    requires { length request.now.whole.now < 2 ^ 31 }
    ensures ok { OnOk result (out.new.items
        ≡ out.old.items ++ acknowledgement (message_of request.now) errno) }
    ensures err { OnErr result (out.new.items ≡ out.old.items) }

    // Where there is room for the answer it succeeds, and room is never lost.
    ensures room { vec_len out.old
        + (message_header_length + errno_length + length request.now.whole.now)
        ≤ vec_capacity out.old → IsOk result }
    ensures exact_room { vec_len out.old
        + length (acknowledgement (message_of request.now) errno)
        ≤ vec_capacity out.old → IsOk result }
    ensures capacity { vec_capacity out.old ≤ vec_capacity out.new }
{
    let quoted = quoted_part(request.whole, errno);
    let body_length = ERRNO_LENGTH + quoted.len();
    let header = put_message_header(MessageHeader {
        length: (MESSAGE_HEADER_LENGTH + body_length) as u32,
        kind: NLMSG_ERROR,
        flags: 0,
        sequence: request.sequence,
        port: request.port,
    });
    append_parts(out, &header, &negated(errno), quoted)
}

/// Minus the errno, as an `i32`.
fn negated(errno: u16) -> [u8; ERRNO_LENGTH]
    ensures { result ≡ negated_errno errno }
{
    let mut bytes = [0; ERRNO_LENGTH];
    LittleEndian::write_i32(&mut bytes, -i32::from(errno));
    bytes
}

/// What of the request is sent back.
fn quoted_part(whole: &[u8], errno: u16) -> &[u8]
    ensures within { length result.now ≤ length whole.now }
    ensures part { result.now
        ≡ (if errno == 0 then take message_header_length whole.now else whole.now) }
{
    if errno == 0 {
        &whole[..MESSAGE_HEADER_LENGTH.min(whole.len())]
    } else {
        whole
    }
}
