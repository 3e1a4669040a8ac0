//! The body of a request in pieces, so that none of its payload's bytes is copied.

ghost use Rattle.std.specs.Prelude.{◌≡◌, ◌≤◌, ◌+◌, ◌++◌, [], length, option_map, IfSome};
ghost use Rattle.arrayvec.specs.ArrayVec.{array_vec_len};
ghost use Rattle.packet_entry.specs.Numbers.{longest_payload};
ghost use Rattle.netlink_codec.specs.Attributes.{attributes_text};
ghost use Rattle.netlink_codec.specs.Numbers.{alignment, attribute_header_length};
ghost use Rattle.nfqa_headers.specs.AttributeWriting.{part};
ghost use Rattle.nfqa_headers.specs.Numbers.{parts_room, payload_kind};
ghost use Rattle.nfqa_msgs.specs.declared.request.Request.TheVariants.{Config, Verdict};
ghost use Rattle.nfqa_msgs.specs.Pieces.{pieces_text};
ghost use Rattle.nfqa_msgs.specs.RequestReading.{PayloadFits};
ghost use Rattle.nfqa_msgs.specs.RequestWriting.{request_body};

use crate::{Head, Params, Request};
use netlink_codec::attr_header;
use nfqa_headers::attribute_writing::{Parts, put_bytes, put_value, zeros_behind};
use nfqa_headers::command::put_command;
use nfqa_headers::kinds::{FLAGS, MARK, MASK, MAXLEN, PAYLOAD, PRIORITY};
use nfqa_headers::params::put_params;
use nfqa_headers::queue_header::{ANY_FAMILY, begin_body};
use nfqa_headers::verdict_header::put_head;
use packet_entry::Bytes;

/// A body: what stands before a payload, the payload, and what stands behind it.
#[derive(Drop)]
pub(crate) struct Pieces<'a> {
    pub(crate) before: Parts,
    pub(crate) payload: &'a [u8],
    pub(crate) after: Parts,
}

/// The body of a request. One without a payload stands before none.
pub(crate) fn pieces_of(request: &Request) -> Pieces<'_>
    requires { PayloadFits request.now }
    ensures text { pieces_text result ≡ request_body request.now }
    ensures payload { length result.payload.now ≤ longest_payload }
{
    match request {
        Request::Config {
            queue,
            command,
            params,
            maxlen,
            flags,
            mask,
        } => config_pieces(*queue, *command, *params, *maxlen, *flags, *mask),
        Request::Verdict {
            queue,
            head,
            mark,
            payload,
            priority,
        } => verdict_pieces(*queue, *head, *mark, payload.as_ref(), *priority),
        Request::Batch {
            queue,
            head,
            mark,
            priority,
        } => verdict_pieces(*queue, *head, *mark, None, *priority),
    }
}

fn config_pieces<'a>(
    queue: u16,
    command: Option<u8>,
    params: Option<Params>,
    maxlen: Option<u32>,
    flags: Option<u32>,
    mask: Option<u32>,
) -> Pieces<'a>
    ensures text { pieces_text result
        ≡ request_body (Config queue command params maxlen flags mask) }
    ensures payload { length result.payload.now ≤ longest_payload }
{
    let mut before = begin_body(ANY_FAMILY, queue);
    put_command(&mut before, command);
    put_params(&mut before, params);
    put_value(&mut before, MAXLEN, maxlen);
    put_value(&mut before, MASK, mask);
    put_value(&mut before, FLAGS, flags);
    Pieces {
        before,
        payload: &[],
        after: Parts::new(),
    }
}

/// The body of a verdict. That of a batch is the same without a payload.
fn verdict_pieces(
    queue: u16,
    head: Option<Head>,
    mark: Option<u32>,
    payload: Option<&Bytes>,
    priority: Option<u32>,
) -> Pieces<'_>
    requires { IfSome payload (λ bytes. length bytes.now ≤ longest_payload) }
    ensures text { pieces_text result ≡ request_body
        (Verdict queue head mark (option_map (λ bytes. bytes.now) payload.entry) priority) }
    ensures payload { length result.payload.now ≤ longest_payload }
{
    let mut before = begin_body(ANY_FAMILY, queue);
    put_head(&mut before, head);
    put_value(&mut before, MARK, mark);
    let mut after = Parts::new();
    let payload = put_around(payload, &mut before, &mut after);
    put_value(&mut after, PRIORITY, priority);
    Pieces {
        before,
        payload,
        after,
    }
}

/// Puts what stands around a payload, where there is one, and lends its bytes.
fn put_around<'a>(payload: Option<&'a Bytes>, before: &mut Parts, after: &mut Parts) -> &'a [u8]
    requires payload { IfSome payload (λ bytes. length bytes.now ≤ longest_payload) }
    requires none { after.old.items ≡ [] }
    requires room { array_vec_len before.old + attribute_header_length ≤ parts_room }
    ensures text { before.new.items ++ result.now ++ after.new.items ≡ before.old.items
        ++ attributes_text (part payload_kind (option_map (λ bytes. bytes.now) payload.entry)) }
    ensures length { length result.now ≤ longest_payload }
    ensures room { array_vec_len after.new ≤ alignment }
{
    match payload {
        None => &[],
        Some(bytes) => {
            put_bytes(before, &attr_header(PAYLOAD, bytes.len()));
            put_bytes(after, zeros_behind(bytes.as_slice()));
            bytes.as_slice()
        }
    }
}
