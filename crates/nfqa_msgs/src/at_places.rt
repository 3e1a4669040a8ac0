//! Notices and plain verdicts, read at the places where their one spelling has each field. What is
//! read is written again and compared, attribute by attribute; a packet's bytes aren't. So what is
//! found is right. Where nothing is found the bytes may be anything, and are read by kinds.

ghost use Rattle.std.specs.Prelude.{◌≡◌, ◌≤◌, ◌<◌, ◌++◌, length, option_map, IfSome, IsTrue, Some, None};
ghost use Rattle.std.specs.Prelude.{false, take};
ghost use Rattle.packet_entry.specs.Numbers.{longest_payload};
ghost use Rattle.netlink_codec.specs.Attributes.{attributes_text};
ghost use Rattle.nfqa_headers.specs.AttributeWriting.{head_part, part, value_part};
ghost use Rattle.nfqa_headers.specs.Headers.{address_content, packet_head_content, queue_header};
ghost use Rattle.nfqa_headers.specs.Headers.{stamp_content};
ghost use Rattle.nfqa_headers.specs.Kinds.{queue_kind};
ghost use Rattle.nfqa_headers.specs.Numbers.{hardware_address_kind, hardware_address_length};
ghost use Rattle.nfqa_headers.specs.Numbers.{timestamp_kind};
ghost use Rattle.nfqa_msgs.specs.NoticeWriting.{FitsTold, nonzero_content, notice_body};
ghost use Rattle.nfqa_msgs.specs.NoticeWriting.{notice_text, padded_payload, payload_part};
ghost use Rattle.nfqa_msgs.specs.RequestReading.{has_payload};
ghost use Rattle.nfqa_msgs.specs.declared.request.Request.TheVariants.{Verdict};
ghost use Rattle.nfqa_msgs.specs.RequestWriting.{flags_for, number_for, request_body};
ghost use Rattle.nfqa_msgs.specs.Telling.{telling};

use crate::comparing::{behind, body_in};
use crate::notice::Telling;
use crate::notice_writing::{INPUT, OUTPUT, family};
use crate::{Head, Request};
use byteorder::{BigEndian, ByteOrder, LittleEndian};
use netlink_codec::{Message, attr_header};
use nfqa_headers::attribute_writing::{value_bytes, zeros_behind};
use nfqa_headers::kinds::{
    FULL_LENGTH, HARDWARE_ADDRESS, INPUT_DEVICE, MARK, NOTICE, NUMBERS, OUTPUT_DEVICE,
    PACKET_HEADER, PAYLOAD, PRIORITY, QUEUE_SUBSYSTEM, REQUEST_FLAG, TIMESTAMP, VERDICT,
    VERDICT_HEADER,
};
use nfqa_headers::packet_address::{ADDRESS_LENGTH, address_of};
use nfqa_headers::packet_header::packet_head_of;
use nfqa_headers::queue_header::{ANY_FAMILY, QUEUE_HEADER_LENGTH, queue_header_of, read_queue};
use nfqa_headers::timestamp::stamp_of;
use nfqa_headers::verdict_header::{head_of, read_head};
use packet_entry::{IPV4, IPV6, same_bytes};

/// The bytes of a word.
const WORD_LENGTH: usize = 4;
/// The bytes of an attribute's header.
const HEADER_LENGTH: usize = 4;
/// The bytes of an attribute that is one number.
const VALUE_PART_LENGTH: usize = 8;
/// The bytes of the attribute of a verdict's header.
const HEAD_PART_LENGTH: usize = 12;
/// The bytes of the attribute of the source address.
const SOURCE_PART_LENGTH: usize = 16;
/// The bytes of the attribute of the time of capture.
const STAMP_PART_LENGTH: usize = 20;

/// Where a notice's body has the packet's id.
const ID_AT: usize = 8;
/// Where it has the packet's Ethernet type.
const PROTOCOL_AT: usize = 12;
/// Where it has the devices, behind both.
const DEVICES_AT: usize = 16;

/// Where the address stands in the attribute of the source address.
const SOURCE_AT: usize = 8;
/// Where the low half of the seconds stands in the attribute of the time of capture.
const SECONDS_AT: usize = 8;
/// Where the low half of the microseconds stands in it.
const MICROS_AT: usize = 16;

/// What a notice tells, where each field stands at its place.
pub(crate) fn notice_at_its_places(bytes: &[u8]) -> Option<Telling<'_>>
    ensures { IfSome result (λ told.
        FitsTold (telling told) × (bytes.now ≡ notice_text (telling told))) }
{
    let body = body_in(bytes, QUEUE_SUBSYSTEM * NUMBERS + NOTICE, 0, 0, 0)?;
    told_in_body(body)
}

/// What a notice with this body tells.
fn told_in_body(body: &[u8]) -> Option<Telling<'_>>
    ensures fits { IfSome result (λ told. FitsTold (telling told)) }
    ensures text { IfSome result (λ told. body.now ≡ notice_body (telling told)) }
{
    if body.len() < DEVICES_AT {
        return None;
    }
    let queue = read_queue(body);
    let id = BigEndian::read_u32(&body[ID_AT..]);
    let protocol = BigEndian::read_u16(&body[PROTOCOL_AT..]);
    if protocol != IPV4 && protocol != IPV6 {
        return None;
    }
    let rest = behind_text(body, &queue_header_of(family(protocol), queue))?;
    let rest = behind_part(rest, PACKET_HEADER, &packet_head_of(id, protocol))?;
    let rest = behind_part(rest, INPUT_DEVICE, &value_bytes(INPUT))?;
    let rest = behind_part(rest, OUTPUT_DEVICE, &value_bytes(OUTPUT))?;
    let (mark, rest) = nonzero_at(rest, MARK);
    let (priority, rest) = nonzero_at(rest, PRIORITY);
    let (source, rest) = source_at(rest);
    let ((seconds, micros), rest) = stamp_at(rest)?;
    let (cut_from, rest) = value_at(rest, FULL_LENGTH);
    let payload = payload_at(rest)?;
    if !is_cut(cut_from, payload.len()) {
        return None;
    }
    Some(Telling {
        queue,
        id,
        protocol,
        mark,
        priority,
        source,
        seconds,
        micros,
        cut_from,
        payload,
    })
}

/// The verdict without payload of which the message is the spelling.
pub(crate) fn plain_verdict(message: &Message<'_>) -> Option<Request>
    ensures kind { IfSome result (λ request.
        message.now.kind ≡ queue_kind (number_for request)) }
    ensures flags { IfSome result (λ request. message.now.flags ≡ flags_for request) }
    ensures body { IfSome result (λ request. message.now.body.now ≡ request_body request) }
    ensures plain { IfSome result (λ request. has_payload request ≡ false) }
{
    if message.kind != QUEUE_SUBSYSTEM * NUMBERS + VERDICT || message.flags != REQUEST_FLAG {
        return None;
    }
    if message.body.len() < QUEUE_HEADER_LENGTH {
        return None;
    }
    let queue = read_queue(message.body);
    let rest = behind_text(message.body, &queue_header_of(ANY_FAMILY, queue))?;
    let (head, rest) = head_at(rest)?;
    let (mark, rest) = value_at(rest, MARK);
    let (priority, rest) = value_at(rest, PRIORITY);
    if !rest.is_empty() {
        return None;
    }
    Some(Request::Verdict {
        queue,
        head: Some(head),
        mark,
        payload: None,
        priority,
    })
}

/// Whether the request is a verdict without payload of which these bytes are the body. Of any other
/// request nothing is said.
pub(crate) fn is_plain_body(body: &[u8], request: &Request) -> bool
    ensures { IsTrue result → body.now ≡ request_body request.now }
{
    let Request::Verdict {
        queue,
        head: Some(head),
        mark,
        payload: None,
        priority,
    } = request
    else {
        return false;
    };
    match behind_verdict(body, *queue, *head, *mark, *priority) {
        Some(rest) => rest.is_empty(),
        None => false,
    }
}

/// What follows the body of this verdict, where the bytes begin with it.
#[inline(always)]
fn behind_verdict(
    bytes: &[u8],
    queue: u16,
    head: Head,
    mark: Option<u32>,
    priority: Option<u32>,
) -> Option<&[u8]>
    ensures { IfSome result (λ rest.
        bytes.now ≡ request_body (Verdict queue (Some head) mark None priority) ++ rest.now) }
{
    let rest = behind_text(bytes, &queue_header_of(ANY_FAMILY, queue))?;
    let rest = behind_part(rest, VERDICT_HEADER, &head_of(head))?;
    let rest = behind_value(rest, MARK, mark)?;
    behind_value(rest, PRIORITY, priority)
}

/// What follows the attribute of this kind and number, where there is a number and the bytes begin
/// with it.
#[inline(always)]
fn behind_value(bytes: &[u8], kind: u16, value: Option<u32>) -> Option<&[u8]>
    ensures { IfSome result (λ rest.
        bytes.now ≡ attributes_text (value_part kind value) ++ rest.now) }
{
    match value {
        Some(value) => behind_part(bytes, kind, &value_bytes(value)),
        None => Some(bytes),
    }
}

/// What follows the attribute of this kind and content, where the bytes begin with it.
#[inline(always)]
fn behind_part<'a>(bytes: &'a [u8], kind: u16, content: &[u8]) -> Option<&'a [u8]>
    requires { length content.now ≤ longest_payload }
    ensures { IfSome result (λ rest.
        bytes.now ≡ attributes_text (part kind (Some content.now)) ++ rest.now) }
{
    let rest = behind_text(bytes, &attr_header(kind, content.len()))?;
    let rest = behind_text(rest, content)?;
    behind_text(rest, zeros_behind(content))
}

/// The number of the attribute of this kind that the bytes begin with, if any, and what follows.
#[inline(always)]
fn value_at(bytes: &[u8], kind: u16) -> (Option<u32>, &[u8])
    ensures { bytes.now ≡ attributes_text (value_part kind result.0) ++ result.1.now }
{
    if bytes.len() < VALUE_PART_LENGTH {
        return (None, bytes);
    }
    let value = BigEndian::read_u32(&bytes[HEADER_LENGTH..]);
    match behind_part(bytes, kind, &value_bytes(value)) {
        None => (None, bytes),
        Some(rest) => (Some(value), rest),
    }
}

/// The same of a number that isn't written where it is 0.
#[inline(always)]
fn nonzero_at(bytes: &[u8], kind: u16) -> (u32, &[u8])
    ensures { bytes.now
        ≡ attributes_text (part kind (nonzero_content result.0)) ++ result.1.now }
{
    match value_at(bytes, kind) {
        (None, _) => (0, bytes),
        (Some(value), rest) => {
            if value == 0 {
                (0, bytes)
            } else {
                (value, rest)
            }
        }
    }
}

/// The verdict and id that the bytes begin with, and what follows.
#[inline(always)]
fn head_at(bytes: &[u8]) -> Option<(Head, &[u8])>
    ensures { IfSome result (λ found.
        bytes.now ≡ attributes_text (head_part (Some found.0)) ++ found.1.now) }
{
    if bytes.len() < HEAD_PART_LENGTH {
        return None;
    }
    let head = read_head(&bytes[HEADER_LENGTH..]);
    let rest = behind_part(bytes, VERDICT_HEADER, &head_of(head))?;
    Some((head, rest))
}

/// The source address that the bytes begin with, if they do, and what follows.
#[inline(always)]
fn source_at(bytes: &[u8]) -> (Option<&[u8]>, &[u8])
    ensures text { bytes.now ≡ attributes_text (part hardware_address_kind (option_map
        address_content (option_map (λ source. source.now) result.0))) ++ result.1.now }
    ensures length { IfSome result.0 (λ source. length source.now ≡ hardware_address_length) }
{
    if bytes.len() < SOURCE_PART_LENGTH {
        return (None, bytes);
    }
    let source = &bytes[SOURCE_AT..SOURCE_AT + ADDRESS_LENGTH];
    match behind_part(bytes, HARDWARE_ADDRESS, &address_of(source)) {
        None => (None, bytes),
        Some(rest) => (Some(source), rest),
    }
}

/// The seconds and microseconds that the bytes begin with, and what follows.
#[inline(always)]
fn stamp_at(bytes: &[u8]) -> Option<((u32, u32), &[u8])>
    ensures { IfSome result (λ found. bytes.now ≡ attributes_text (part timestamp_kind
        (Some (stamp_content found.0.0 found.0.1))) ++ found.1.now) }
{
    if bytes.len() < STAMP_PART_LENGTH {
        return None;
    }
    let seconds = BigEndian::read_u32(&bytes[SECONDS_AT..]);
    let micros = BigEndian::read_u32(&bytes[MICROS_AT..]);
    let rest = behind_part(bytes, TIMESTAMP, &stamp_of(seconds, micros))?;
    Some(((seconds, micros), rest))
}

/// The packet's bytes, where nothing but their attribute is left. They aren't compared.
fn payload_at(bytes: &[u8]) -> Option<&[u8]>
    ensures text { IfSome result (λ payload.
        bytes.now ≡ attributes_text (payload_part payload.now)) }
    ensures limit { IfSome result (λ payload. length payload.now ≤ longest_payload) }
{
    if bytes.is_empty() {
        return Some(&[]);
    }
    if bytes.len() < HEADER_LENGTH {
        return None;
    }
    let end = LittleEndian::read_u16(bytes) as usize;
    if end <= HEADER_LENGTH || bytes.len() < end {
        return None;
    }
    let rest = behind_text(bytes, &attr_header(PAYLOAD, end - HEADER_LENGTH))?;
    padded_in(rest, end - HEADER_LENGTH)
}

/// So many first bytes, where just their padding follows.
fn padded_in(bytes: &[u8], count: usize) -> Option<&[u8]>
    requires { count ≤ longest_payload }
    ensures many { IfSome result (λ payload. length payload.now ≡ count) }
    ensures text { IfSome result (λ payload. bytes.now ≡ padded_payload payload.now) }
{
    if bytes.len() < count {
        return None;
    }
    let payload = &bytes[..count];
    if !same_bytes(&bytes[count..], zeros_behind(payload)) {
        return None;
    }
    Some(payload)
}

/// Whether a packet of this length, where it is told, has more bytes than are told.
fn is_cut(cut_from: Option<u32>, told: usize) -> bool
    ensures { IsTrue result → IfSome cut_from (λ n. told < n) }
{
    match cut_from {
        None => true,
        Some(length) => told < length as usize,
    }
}

/// What follows the text, where the bytes begin with it. Whole words are compared as numbers: of a
/// text whose length is known where it is written, each costs one comparison.
#[inline(always)]
fn behind_text<'a>(bytes: &'a [u8], text: &[u8]) -> Option<&'a [u8]>
    ensures { IfSome result (λ rest. bytes.now ≡ text.now ++ rest.now) }
{
    if bytes.len() < text.len() {
        return None;
    }
    let mut at = 0;
    while text.len() - at >= WORD_LENGTH {
        if !begin_with_same_word(&bytes[at..], &text[at..]) {
            return None;
        }
        at += WORD_LENGTH;
    }
    if at == text.len() {
        return Some(&bytes[at..]);
    }
    behind(&bytes[at..], &text[at..])
}

/// Whether the first words are the same.
#[inline(always)]
fn begin_with_same_word(a: &[u8], b: &[u8]) -> bool
    requires a { 4 ≤ length a.now }
    requires b { 4 ≤ length b.now }
    ensures { IsTrue result → take 4 a.now ≡ take 4 b.now }
{
    LittleEndian::read_u32(a) == LittleEndian::read_u32(b)
}
