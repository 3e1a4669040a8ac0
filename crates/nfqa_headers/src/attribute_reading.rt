//! The known attributes of a message, checked for their length and found by their kinds.

ghost use Rattle.std.specs.Prelude.{ℕ, ◌≡◌, ◌≤◌, ◌+◌, length, Option, option_map, IfSome};
ghost use Rattle.std.specs.Prelude.{IfOk, IsOk};
ghost use Rattle.std.specs.Prelude.{IsNone, false};
ghost use Rattle.std.specs.List.{list_any};
ghost use Rattle.packet_entry.specs.Numbers.{longest_payload};
ghost use Rattle.netlink_codec.specs.Attributes.{attributes};
ghost use Rattle.nfqa_headers.specs.Headers.{field, value_in, value_field, value_length};
ghost use Rattle.nfqa_headers.specs.AttributeReading as read;
ghost use Rattle.nfqa_headers.specs.AttributeReading.{config_least, verdict_least, least_content};
ghost use Rattle.nfqa_headers.specs.AttributeReading.{is_short, content_at, last_content};
ghost use Rattle.nfqa_headers.specs.Numbers.{priority_kind};

use crate::command::COMMAND_LENGTH;
use crate::kinds::{
    COMMAND, CONFIG, FLAGS, KINDS, MARK, MASK, MAXLEN, PARAMS, PRIORITY, VALUE_LENGTH,
    VERDICT_HEADER,
};
use crate::params::PARAMS_LENGTH;
use crate::verdict_header::VERDICT_HEADER_LENGTH;
use byteorder::{BigEndian, ByteOrder};
use netlink_codec::attrs;
use packet_entry::{Bytes, NoMemory};
use std::alloc::Global;

/// How many bytes the content of this kind needs in a message of this number.
fn least_length(number: u16, kind: u16) -> usize
    ensures { result ≡ least_content number kind }
{
    if number == CONFIG {
        config_length(kind)
    } else {
        verdict_length(kind)
    }
}

fn config_length(kind: u16) -> usize
    ensures { result ≡ config_least kind }
{
    match kind {
        COMMAND => COMMAND_LENGTH,
        PARAMS => PARAMS_LENGTH,
        MAXLEN | MASK | FLAGS => VALUE_LENGTH,
        _ => 0,
    }
}

fn verdict_length(kind: u16) -> usize
    ensures { result ≡ verdict_least kind }
{
    match kind {
        VERDICT_HEADER => VERDICT_HEADER_LENGTH,
        MARK | PRIORITY => VALUE_LENGTH,
        _ => 0,
    }
}

/// Whether a known attribute of a message of this number has fewer bytes than its kind needs. Each
/// occurrence counts.
pub fn has_short(number: u16, row: &[u8]) -> bool
    ensures { result ≡ list_any (is_short number) (attributes row.now) }
{
    for attr in attrs(row) {
        if attr.body.len() < least_length(number, attr.kind) {
            return true;
        }
    }
    false
}

/// The contents of a row of attributes at the places of their kinds, found in one walk. Of a kind
/// that repeats it is the last one.
pub fn last_contents(row: &[u8]) -> [Option<&[u8]>; KINDS]
    ensures value { (kind : ℕ) → kind ≤ priority_kind →
        option_map (λ content. content.now) (content_at result kind)
        ≡ last_content kind (attributes row.now) }
    ensures limit { (kind : ℕ) → kind ≤ priority_kind →
        IfSome (content_at result kind) (λ content. length content.now ≤ longest_payload) }
    // In a message without short attributes each content has the bytes that its kind needs.
    ensures long { (number kind : ℕ) → list_any (is_short number) (attributes row.now) ≡ false →
        kind ≤ priority_kind → IfSome (content_at result kind) (λ content.
        least_content number kind ≤ length content.now) }
{
    let mut last = [None; KINDS];
    for attr in attrs(row) {
        let kind = attr.kind as usize;
        if kind < KINDS {
            last[kind] = Some(attr.body);
        }
    }
    last
}

/// The content of this kind, of those that were found.
pub fn content_of<'a>(contents: &[Option<&'a [u8]>; KINDS], kind: u16) -> Option<&'a [u8]>
    requires { kind ≤ priority_kind }
    ensures { result ≡ content_at contents.now kind }
{
    contents[kind as usize]
}

/// The number that an attribute's content says.
pub fn read_value(content: Option<&[u8]>) -> Option<u32>
    requires { IfSome content (λ content. value_length ≤ length content.now) }
    ensures { result
        ≡ option_map (value_in value_field) (option_map (λ content. content.now) content.entry) }
{
    content.map(BigEndian::read_u32)
}

/// A content, where it has at least `least` bytes.
pub fn at_least(content: Option<&[u8]>, least: usize) -> Option<&[u8]>
    ensures value { option_map (λ content. content.now) result
        ≡ read.at_least least (option_map (λ content. content.now) content.entry) }
    ensures long { IfSome result (λ content. least ≤ length content.now) }
{
    content.filter(|content| least <= content.len())
}

/// The number at this place of a content, which has at least `least` bytes; else 0.
pub fn value_of(content: Option<&[u8]>, least: usize, place: usize) -> u32
    requires { place + 4 ≤ least }
    ensures { result
        ≡ read.value_of least (field place 4) (option_map (λ content. content.now) content.entry) }
{
    match at_least(content, least) {
        None => 0,
        Some(content) => BigEndian::read_u32(&content[place..]),
    }
}

/// The bytes in the packet's place. Memory is taken where there is a payload, also an empty one.
pub fn copy_payload(alloc: Global, content: Option<&[u8]>) -> Result<Option<Bytes>, NoMemory>
    requires { IfSome content (λ content. length content.now ≤ longest_payload) }
    ensures value { IfOk result (λ payload.
        payload ≡ option_map (λ content. content.now) content.entry) }
    ensures limit { IfOk result (λ payload.
        IfSome payload (λ bytes. length bytes ≤ longest_payload)) }
    ensures no_memory { IsNone content.entry → IsOk result }
{
    match content {
        None => Ok(None),
        Some(content) => Ok(Some(Bytes::copy(alloc, content)?)),
    }
}
