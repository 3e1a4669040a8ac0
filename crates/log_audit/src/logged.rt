//! How a message was logged.

ghost use Rattle.std.specs.Prelude.{◌≡◌, ◌<◌, ◌↔◌, IsTrue};
ghost use Rattle.netlink_codec.specs.Messages.{message_of};
ghost use Rattle.nfqa_msgs.specs.RequestReading as reading;
ghost use Rattle.packet_moves.specs.Messages.{words_of};
ghost use Rattle.histories.specs.declared.log.AskWords.TheVariants.{Plain};
ghost use Rattle.log_audit.specs.Telling as telling;
ghost use Rattle.log_audit.specs.Dues as dues;

use histories::AskWords;
use netlink_codec::{Message, one_message_in_front};
use nfqa_msgs::{Decoded, Request, is_spelling, numbers_fit, spelling_decodes_to_its_request};
use port_audit::payload_fits;

/// Whether a message that is decoded so was logged so.
pub(crate) fn is_logged_as(
    port: u32,
    call: u32,
    message: &Message<'_>,
    decoded: &Decoded,
    ask: &AskWords,
) -> bool
    requires own { telling.IsOwn (message_of message.now) }
    requires decoded { decoded.now ≡ reading.decoded (message_of message.now) }
    requires fits { reading.AskedFits decoded.now }
    ensures { IsTrue result ↔ (words_of port call message.now.whole.now decoded.now ≡ ask.now) }
{
    match ask {
        AskWords::Plain { request } => is_logged_in_words(port, call, message, decoded, request),
        AskWords::Raw { bytes } => {
            message.whole == bytes.as_slice() && !is_plain(port, call, message.whole, decoded)
        }
    }
}

/// Whether a message that is decoded so was logged as this request.
fn is_logged_in_words(
    port: u32,
    call: u32,
    message: &Message<'_>,
    decoded: &Decoded,
    request: &Request,
) -> bool
    requires own { telling.IsOwn (message_of message.now) }
    requires decoded { decoded.now ≡ reading.decoded (message_of message.now) }
    requires fits { reading.AskedFits decoded.now }
    ensures { IsTrue result
        ↔ (words_of port call message.now.whole.now decoded.now ≡ Plain request.now) }
{
    if !payload_fits(request) {
        return false;
    }
    numbers_fit(request);
    spelling_decodes_to_its_request();
    one_message_in_front();
    is_spelling(port, call, request, message.whole)
}

/// Whether a message is the spelling of what it asks.
fn is_plain(port: u32, call: u32, whole: &[u8], decoded: &Decoded) -> bool
    requires { reading.AskedFits decoded.now }
    ensures { IsTrue result ↔ dues.IsSpelled port call whole.now decoded.now }
{
    match decoded {
        Decoded::Nothing => false,
        Decoded::Refused { .. } => false,
        Decoded::Asked { request } => is_spelling(port, call, request, whole),
    }
}
