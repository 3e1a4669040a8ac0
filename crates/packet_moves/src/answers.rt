//! How messages are answered.

ghost use Rattle.std.specs.Prelude.{◌≡◌, ◌^◌, ◌<◌, ◌≤◌, ◌+◌, ◌++◌, length, OnOk};
ghost use Rattle.std.specs.Vec.{vec_len, vec_capacity};
ghost use Rattle.netlink_codec.specs.Numbers.{message_header_length, errno_length};
ghost use Rattle.netlink_codec.specs.Acknowledgements.{answer};
ghost use Rattle.netlink_codec.specs.Messages.{message_of};
ghost use Rattle.packet_moves.specs.Messages.{answered};

use netlink_codec::{Message, ack};
use packet_entry::NoMemory;

/// The most bytes of an acknowledgement before the message that it quotes: its header of 16 and an
/// errno of 4.
const ACK_LENGTH: usize = 20;

/// The flag by which a message asks for an acknowledgement of success. (`NLM_F_ACK`)
const ACK: u16 = 4;

/// Makes room for the acknowledgement of a message. `NoMemory` leaves the replies as they were.
pub fn make_answer_room(message: &Message<'_>, replies: &mut Vec<u8>) -> Result<(), NoMemory>
    requires short { length message.now.whole.now < 2 ^ 31 }
    ensures room { OnOk result (vec_len replies.new
        + (message_header_length + errno_length + length message.now.whole.now)
        ≤ vec_capacity replies.new) }
    ensures same { replies.new.items ≡ replies.old.items }
{
    Ok(replies.reserve(ACK_LENGTH + message.whole.len())?)
}

/// Acknowledges a message where that is due. There is room for it.
pub fn acknowledge(message: &Message<'_>, errno: u16, replies: &mut Vec<u8>)
    requires short { length message.now.whole.now < 2 ^ 31 }
    requires room { vec_len replies.old
        + (message_header_length + errno_length + length message.now.whole.now)
        ≤ vec_capacity replies.old }
    ensures { replies.new.items ≡ replies.old.items ++ answer (message_of message.now) errno }
{
    let Ok(()) = ack(message, errno, replies) else {
        unreachable!()
    };
}

/// The errno that a message is acknowledged with, where that is due: one that isn't 0, and 0 where
/// the message asks for it.
pub fn due(message: &Message<'_>, errno: u16) -> Option<u16>
    ensures { result ≡ answered (message_of message.now) errno }
{
    if errno == 0 && message.flags & ACK == 0 {
        None
    } else {
        Some(errno)
    }
}
