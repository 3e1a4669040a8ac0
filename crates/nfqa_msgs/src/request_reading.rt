//! Requests, read from messages.

ghost use Rattle.std.specs.Prelude.{◌≡◌, ◌≤◌, IfOk, IsOk, false};
ghost use Rattle.std.specs.List.{list_any};
ghost use Rattle.netlink_codec.specs.Messages.{message_of};
ghost use Rattle.netlink_codec.specs.Attributes.{attributes};
ghost use Rattle.nfqa_headers.specs.Numbers.{verdict_number, config_number, batch_number};
ghost use Rattle.nfqa_msgs.specs.RequestReading.{decoded, request_in, config_in, verdict_in};
ghost use Rattle.nfqa_msgs.specs.RequestReading.{batch_in, AskedFits, PayloadFits};
ghost use Rattle.nfqa_headers.specs.AttributeReading.{is_short};
ghost use Rattle.nfqa_msgs.specs.RequestReading.{has_payload, asks_with_payload};

use crate::at_places::plain_verdict;
use crate::fields::numbers_fit;
use crate::laws::spelling_decodes_to_its_request;
use crate::{Decoded, EINVAL, EOPNOTSUPP, ERANGE, Request};
use netlink_codec::Message;
use nfqa_headers::attribute_reading::{
    content_of, copy_payload, has_short, last_contents, read_value,
};
use nfqa_headers::command::read_command;
use nfqa_headers::kinds::{
    BATCH, COMMAND, CONFIG, FLAGS, LEAST_KIND, MARK, MASK, MAXLEN, NOTICE, NUMBERS, PARAMS,
    PAYLOAD, PRIORITY, QUEUE_SUBSYSTEM, REQUEST_FLAG, VERDICT, VERDICT_HEADER,
};
use nfqa_headers::params::read_params;
use nfqa_headers::queue_header::{QUEUE_HEADER_LENGTH, read_queue};
use nfqa_headers::verdict_header::read_head;
use packet_entry::NoMemory;
use std::alloc::Global;

/// What a message asks. Known attributes are checked in the order in which they stand, each
/// occurrence; of a kind that repeats the last counts, a longer content is taken by its first
/// bytes, and other kinds are passed over.
///
/// `Nothing` is for a message without the flag `NLM_F_REQUEST`, of a kind below 16, or with fewer
/// than 4 bytes after its header; then `Refused` with `EINVAL` for one of another subsystem or an
/// unknown number, with `EOPNOTSUPP` for one of a notice's number, and with `ERANGE` where a known
/// attribute is too short.
pub fn decode_request(alloc: Global, message: &Message<'_>) -> Result<Decoded, NoMemory>
    ensures value { IfOk result (λ answer. answer ≡ decoded (message_of message.now)) }
    // A payload has at most 65,531 bytes.
    ensures payload { IfOk result AskedFits }
    // Memory is taken for a payload alone.
    ensures no_memory { asks_with_payload (decoded (message_of message.now)) ≡ false → IsOk result }
{
    // By this law a spelling is decoded to its request.
    spelling_decodes_to_its_request();
    match plain_verdict(message) {
        Some(request) => {
            numbers_fit(&request);
            Ok(Decoded::Asked { request })
        }
        None => decode_by_kinds(alloc, message),
    }
}

/// The same, attribute by attribute.
#[tactic(auto, unfolding(crate::specs::RequestReading::decoded))]
fn decode_by_kinds(alloc: Global, message: &Message<'_>) -> Result<Decoded, NoMemory>
    ensures value { IfOk result (λ answer. answer ≡ decoded (message_of message.now)) }
    ensures payload { IfOk result AskedFits }
    ensures no_memory { asks_with_payload (decoded (message_of message.now)) ≡ false → IsOk result }
{
    if message.flags & REQUEST_FLAG == 0 {
        return Ok(Decoded::Nothing);
    }
    if message.kind < LEAST_KIND {
        return Ok(Decoded::Nothing);
    }
    if message.body.len() < QUEUE_HEADER_LENGTH {
        return Ok(Decoded::Nothing);
    }
    let number = message.kind % NUMBERS;
    if message.kind / NUMBERS != QUEUE_SUBSYSTEM || BATCH < number {
        return Ok(Decoded::Refused { errno: EINVAL });
    }
    if number == NOTICE {
        return Ok(Decoded::Refused { errno: EOPNOTSUPP });
    }
    let queue = read_queue(message.body);
    let row = &message.body[QUEUE_HEADER_LENGTH..];
    if has_short(number, row) {
        return Ok(Decoded::Refused { errno: ERANGE });
    }
    let request = request_of(alloc, number, queue, row)?;
    Ok(Decoded::Asked { request })
}

/// The request of a message of this number.
#[tactic(auto, unfolding(crate::specs::RequestReading::request_in))]
fn request_of(alloc: Global, number: u16, queue: u16, row: &[u8]) -> Result<Request, NoMemory>
    requires number { (verdict_number ≤ number) × (number ≤ batch_number) }
    requires whole { list_any (is_short number) (attributes row.now) ≡ false }
    ensures value { IfOk result (λ request.
        request ≡ request_in number queue (attributes row.now)) }
    ensures payload { IfOk result PayloadFits }
    ensures no_memory { has_payload (request_in number queue (attributes row.now)) ≡ false →
        IsOk result }
{
    match number {
        CONFIG => Ok(config_of(queue, row)),
        VERDICT => verdict_of(alloc, queue, row),
        _ => Ok(batch_of(queue, row)),
    }
}

fn config_of(queue: u16, row: &[u8]) -> Request
    requires { list_any (is_short config_number) (attributes row.now) ≡ false }
    ensures value { result ≡ config_in queue (attributes row.now) }
    ensures payload { PayloadFits result }
{
    let contents = last_contents(row);
    Request::Config {
        queue,
        command: content_of(&contents, COMMAND).map(read_command),
        params: content_of(&contents, PARAMS).map(read_params),
        maxlen: read_value(content_of(&contents, MAXLEN)),
        flags: read_value(content_of(&contents, FLAGS)),
        mask: read_value(content_of(&contents, MASK)),
    }
}

fn verdict_of(alloc: Global, queue: u16, row: &[u8]) -> Result<Request, NoMemory>
    requires { list_any (is_short verdict_number) (attributes row.now) ≡ false }
    ensures value { IfOk result (λ request. request ≡ verdict_in queue (attributes row.now)) }
    ensures payload { IfOk result PayloadFits }
    ensures no_memory { has_payload (verdict_in queue (attributes row.now)) ≡ false → IsOk result }
{
    let contents = last_contents(row);
    Ok(Request::Verdict {
        queue,
        head: content_of(&contents, VERDICT_HEADER).map(read_head),
        mark: read_value(content_of(&contents, MARK)),
        payload: copy_payload(alloc, content_of(&contents, PAYLOAD))?,
        priority: read_value(content_of(&contents, PRIORITY)),
    })
}

fn batch_of(queue: u16, row: &[u8]) -> Request
    requires { list_any (is_short batch_number) (attributes row.now) ≡ false }
    ensures value { result ≡ batch_in queue (attributes row.now) }
    ensures payload { PayloadFits result }
{
    let contents = last_contents(row);
    Request::Batch {
        queue,
        head: content_of(&contents, VERDICT_HEADER).map(read_head),
        mark: read_value(content_of(&contents, MARK)),
        priority: read_value(content_of(&contents, PRIORITY)),
    }
}
