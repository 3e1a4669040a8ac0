//! Notices, read from messages.

ghost use Rattle.std.specs.Prelude.{◌≡◌, ◌≤◌, ◌↔◌, length, option_map, IfSome, IfOk, IsOk};
ghost use Rattle.std.specs.Prelude.{IsNone, None, Some, Ok, unwrap_or, []};
ghost use Rattle.packet_entry.specs.Numbers.{longest_payload};
ghost use Rattle.netlink_codec.specs.Attributes.{attributes};
ghost use Rattle.nfqa_msgs.specs.NoticeWriting.{Told, FitsTold, notice_text};
ghost use Rattle.nfqa_msgs.specs.Telling.{telling};
ghost use Rattle.nfqa_msgs.specs.NoticeReading as read;
ghost use Rattle.nfqa_msgs.specs.NoticeMeaning.{notice_of, IsNoNotice};

use crate::at_places::notice_at_its_places;
use crate::laws::notices_are_told_apart;
use crate::notice::{Notice, Telling};
use crate::notice_spelling::is_notice_of;
use netlink_codec::{attr_padding, next_message};
use nfqa_headers::attribute_reading::{content_of, last_contents, value_of};
use nfqa_headers::kinds::{
    FULL_LENGTH, HARDWARE_ADDRESS, MARK, PACKET_HEADER, PAYLOAD, PRIORITY, TIMESTAMP, VALUE_LENGTH,
};
use nfqa_headers::packet_address::read_address;
use nfqa_headers::packet_header::{read_id, read_protocol};
use nfqa_headers::queue_header::{QUEUE_HEADER_LENGTH, read_queue};
use nfqa_headers::timestamp::{read_micros, read_seconds};
use packet_entry::{Bytes, NoMemory};
use std::alloc::Global;

/// What a notice tells, where the bytes are one: exactly the text of something that a notice can
/// tell (`FitsTold`), without a byte more or less. The notice that a queue writes of a packet is
/// always such a text. `None` for all other bytes. Bytes that begin with no message, or with one of
/// fewer than 4 bytes after its header, need no memory.
pub fn decode_notice(alloc: Global, bytes: &[u8]) -> Result<Option<Notice>, NoMemory>
    ensures found { IfOk result (λ answer. IfSome answer (λ notice.
        (told : Told) × FitsTold told × (bytes.now ≡ notice_text told)
        × (notice ≡ notice_of told))) }
    ensures only { (told : Told) → FitsTold told → bytes.now ≡ notice_text told →
        IfOk result (λ answer. answer ≡ Some (notice_of told)) }
    ensures none { IfOk result (λ answer. IsNone answer ↔ IsNoNotice bytes.now) }
    ensures no_memory { read.told_by bytes.now ≡ None → IsOk result }
{
    match told_exactly(bytes) {
        None => Ok(None),
        Some(told) => {
            let payload = Bytes::copy(alloc, told.payload)?;
            Ok(Some(notice_with(&told, payload)))
        }
    }
}

/// As [`decode_notice`], of shared bytes: the notice's payload is a part of their buffer, and none
/// of its bytes is copied.
pub fn decode_shared_notice(bytes: &Bytes) -> Result<Option<Notice>, NoMemory>
    ensures found { IfOk result (λ answer. IfSome answer (λ notice.
        (told : Told) × FitsTold told × (bytes.now ≡ notice_text told)
        × (notice ≡ notice_of told))) }
    ensures only { (told : Told) → FitsTold told → bytes.now ≡ notice_text told →
        IfOk result (λ answer. answer ≡ Some (notice_of told)) }
    ensures none { IfOk result (λ answer. IsNone answer ↔ IsNoNotice bytes.now) }
    ensures no_memory { read.told_by bytes.now ≡ None → IsOk result }
{
    match told_exactly(bytes.as_slice()) {
        None => Ok(None),
        Some(told) => {
            let payload = payload_in(bytes, &told)?;
            Ok(Some(notice_with(&told, payload)))
        }
    }
}

/// The payload, cut out of the notice that tells this.
fn payload_in(bytes: &Bytes, told: &Telling<'_>) -> Result<Bytes, NoMemory>
    requires fits { FitsTold (telling told.now) }
    requires text { bytes.now ≡ notice_text (telling told.now) }
    ensures { IfOk result (λ payload. payload ≡ told.now.payload.now) }
{
    let length = told.payload.len();
    let end = bytes.len() - attr_padding(length);
    bytes.cut(end - length, end)
}

/// What is told, with this payload.
pub(crate) fn notice_with(told: &Telling<'_>, payload: Bytes) -> Notice
    requires fits { FitsTold (telling told.now) }
    requires payload { payload ≡ told.now.payload.now }
    ensures { result ≡ notice_of (telling told.now) }
{
    Notice {
        queue: told.queue,
        id: told.id,
        protocol: told.protocol,
        mark: told.mark,
        priority: told.priority,
        length: match told.cut_from {
            None => told.payload.len() as u32,
            Some(length) => length,
        },
        payload,
    }
}

/// What the bytes tell, where they are exactly the notice that tells it.
fn told_exactly(bytes: &[u8]) -> Option<Telling<'_>>
    ensures found { IfSome result (λ told.
        FitsTold (telling told) × (bytes.now ≡ notice_text (telling told))) }
    ensures only { (told : Told) → FitsTold told → bytes.now ≡ notice_text told →
        option_map telling result ≡ Some told }
    ensures nothing { read.told_by bytes.now ≡ None → result ≡ None }
{
    // By this law what a notice tells is what is read from its text.
    notices_are_told_apart();
    if let Some(told) = notice_at_its_places(bytes) {
        return Some(told);
    }
    match told_by(bytes) {
        None => None,
        Some(told) => {
            if is_notice_of(bytes, &told) {
                Some(told)
            } else {
                None
            }
        }
    }
}

/// What the message that the bytes begin with tells, be it a notice or not.
#[tactic(auto, unfolding(crate::specs::NoticeReading::told_by))]
fn told_by(bytes: &[u8]) -> Option<Telling<'_>>
    ensures value { option_map telling result ≡ read.told_by bytes.now }
    ensures fits { IfSome result (λ told. FitsTold (telling told)) }
{
    let (message, _) = next_message(bytes)?;
    if message.body.len() < QUEUE_HEADER_LENGTH {
        return None;
    }
    let queue = read_queue(message.body);
    Some(told_in(queue, &message.body[QUEUE_HEADER_LENGTH..]))
}

/// What the attributes of a message for this queue tell.
#[tactic(auto, unfolding(crate::specs::NoticeReading::told_in))]
fn told_in(queue: u16, row: &[u8]) -> Telling<'_>
    ensures value { telling result ≡ read.told_in queue (attributes row.now) }
    ensures fits { FitsTold (telling result) }
{
    let contents = last_contents(row);
    let header = content_of(&contents, PACKET_HEADER);
    let timestamp = content_of(&contents, TIMESTAMP);
    let full_length = content_of(&contents, FULL_LENGTH);
    let payload = payload_of(content_of(&contents, PAYLOAD));
    Telling {
        queue,
        id: read_id(header),
        protocol: read_protocol(header),
        mark: value_of(content_of(&contents, MARK), VALUE_LENGTH, 0),
        priority: value_of(content_of(&contents, PRIORITY), VALUE_LENGTH, 0),
        source: read_address(content_of(&contents, HARDWARE_ADDRESS)),
        seconds: read_seconds(timestamp),
        micros: read_micros(timestamp),
        cut_from: above(payload.len(), value_of(full_length, VALUE_LENGTH, 0)),
        payload,
    }
}

fn payload_of(content: Option<&[u8]>) -> &[u8]
    requires { IfSome content (λ content. length content.now ≤ longest_payload) }
    ensures value { result.now ≡ unwrap_or (option_map (λ content. content.now) content.entry) [] }
    ensures limit { length result.now ≤ longest_payload }
{
    match content {
        None => &[],
        Some(content) => content,
    }
}

/// The number, where it is above the length.
fn above(length: usize, number: u32) -> Option<u32>
    ensures { result ≡ read.above length number }
{
    if length < number as usize {
        Some(number)
    } else {
        None
    }
}
