//! Whether bytes are the one spelling of a request.

ghost use Rattle.std.specs.Prelude.{◌≡◌, ◌↔◌, IsTrue};
ghost use Rattle.nfqa_msgs.specs.RequestReading.{PayloadFits};
ghost use Rattle.nfqa_msgs.specs.RequestWriting.{request_body, spelling};

use crate::Request;
use crate::at_places::is_plain_body;
use crate::comparing::{body_in, is_in_pieces};
use crate::fields::numbers_fit;
use crate::request_pieces::pieces_of;
use crate::request_writing::{flags_of, kind_of};
use netlink_codec::written_attributes_are_walked;

/// Whether the bytes are the one spelling of a request, as [`encode_request`](crate::encode_request)
/// writes it: from this port, with this number. They are compared piece by piece where they lie:
/// nothing is copied, and no memory is taken.
#[tactic(auto, unfolding(crate::specs::RequestWriting::spelling))]
pub fn is_spelling(port: u32, call: u32, request: &Request, bytes: &[u8]) -> bool
    requires { PayloadFits request.now }
    ensures { IsTrue result ↔ (bytes.now ≡ spelling port call request.now) }
{
    numbers_fit(request);
    // By the codec's law the body is short enough for a message.
    written_attributes_are_walked();
    match body_in(bytes, kind_of(request), flags_of(request), call, port) {
        None => false,
        Some(body) => is_body_of(body, request),
    }
}

/// Whether the bytes are the body of a request. Mostly that is a verdict without payload.
fn is_body_of(body: &[u8], request: &Request) -> bool
    requires { PayloadFits request.now }
    ensures { IsTrue result ↔ (body.now ≡ request_body request.now) }
{
    if is_plain_body(body, request) {
        return true;
    }
    let pieces = pieces_of(request);
    is_in_pieces(
        body,
        pieces.before.as_slice(),
        pieces.payload,
        pieces.after.as_slice(),
    )
}
