//! Requests, written as messages.

ghost use Rattle.std.specs.Prelude.{◌≡◌, ◌++◌, OnOk, OnErr};
ghost use Rattle.nfqa_headers.specs.Kinds.{queue_kind};
ghost use Rattle.nfqa_msgs.specs.RequestReading.{PayloadFits};
ghost use Rattle.nfqa_msgs.specs.RequestWriting.{FitsRequest, spelling, number_for, flags_for};

use crate::Request;
use crate::fields::numbers_fit;
use crate::request_pieces::pieces_of;
use netlink_codec::put_split_message;
use nfqa_headers::kinds::{
    ACK_FLAG, BATCH, CONFIG, NUMBERS, QUEUE_SUBSYSTEM, REQUEST_FLAG, VERDICT,
};
use packet_entry::NoMemory;

/// Appends a request as its one spelling: `port` is the sender's port, `call` the number of this
/// message, which is its sequence. A config request asks for an acknowledgement, a verdict doesn't.
///
/// `NoMemory` leaves `out` as it was.
#[tactic(auto, unfolding(crate::specs::RequestWriting::spelling))]
pub fn encode_request(
    port: u32,
    call: u32,
    request: &Request,
    out: &mut Vec<u8>,
) -> Result<(), NoMemory>
    requires { PayloadFits request.now }
    ensures ok { OnOk result (out.new.items ≡ out.old.items ++ spelling port call request.now) }
    ensures err { OnErr result (out.new.items ≡ out.old.items) }
    // The request is one that its spelling decodes to.
    ensures fits { FitsRequest request.now }
{
    numbers_fit(request);
    let pieces = pieces_of(request);
    put_split_message(
        out,
        kind_of(request),
        flags_of(request),
        call,
        port,
        pieces.before.as_slice(),
        pieces.payload,
        pieces.after.as_slice(),
    )?;
    Ok(())
}

/// The kind of the message.
pub(crate) fn kind_of(request: &Request) -> u16
    ensures { result ≡ queue_kind (number_for request.now) }
{
    let number = match request {
        Request::Config { .. } => CONFIG,
        Request::Verdict { .. } => VERDICT,
        Request::Batch { .. } => BATCH,
    };
    QUEUE_SUBSYSTEM * NUMBERS + number
}

/// The flags of the message.
pub(crate) fn flags_of(request: &Request) -> u16
    ensures { result ≡ flags_for request.now }
{
    match request {
        Request::Config { .. } => REQUEST_FLAG | ACK_FLAG,
        Request::Verdict { .. } | Request::Batch { .. } => REQUEST_FLAG,
    }
}
