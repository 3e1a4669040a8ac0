//! Decoding a message.

ghost use Rattle.std.specs.Prelude.{◌≡◌, IfOk};
ghost use Rattle.netlink_codec.specs.Messages.{HasNoMessage};

use netlink_codec::next_message;
use nfqa_msgs::{Decoded, decode_request};
use packet_entry::NoMemory;
use std::alloc::Global;

/// The errno by which the first message of a datagram is refused as it is read, 0 where it isn't;
/// and how many bytes it uses.
pub fn errno_of_first(alloc: Global, datagram: &[u8]) -> Result<(u16, usize), NoMemory>
    ensures none { HasNoMessage datagram.now → IfOk result (λ x. x ≡ (0, 0)) }
{
    let Some((message, used)) = next_message(datagram) else {
        return Ok((0, 0));
    };
    match decode_request(alloc, &message)? {
        Decoded::Asked { request: _ } => Ok((0, used)),
        Decoded::Refused { errno } => Ok((errno, used)),
        Decoded::Nothing => Ok((0, used)),
    }
}
