//! Attributes of a message, and its acknowledgement.

ghost use Rattle.std.specs.Prelude.{◌<◌, ◌^◌, length};

use netlink_codec::{ack, attrs, next_message};
use std::alloc::AllocError;

/// Answers the first message of a datagram: a success if it has an attribute of this kind, and
/// otherwise EINVAL, which is 22.
pub fn answer(datagram: &[u8], kind: u16, replies: &mut Vec<u8>) -> Result<(), AllocError>
    requires { length datagram.now < 2 ^ 31 }
{
    let Some((message, _)) = next_message(datagram) else {
        return Ok(());
    };
    let mut errno = 22;
    for attr in attrs(message.body) {
        if attr.kind == kind {
            errno = 0;
        }
    }
    ack(&message, errno, replies)
}
