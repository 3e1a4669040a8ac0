//! `netlink_codec`: messages, attributes and acknowledgements.

use netlink_codec::{Message, ack, attrs, next_message, put_attr, put_message};
use std::alloc::Global;
use std::fmt::Write;
use std::test::Fail;
use test_inputs::{Row, add, debug, hex};

/// The bytes of a message before its attributes: its header, and that of a queue.
const QUEUE_HEADER: usize = 4;

/// Above every kind of an attribute.
const KINDS: u32 = 0x4000;

/// The most bytes of a message in the table, and of an attribute.
const LONGEST: usize = 100_000;

const MAX_CONTENT: usize = 65_531;

/// What a call of this crate answers, printed.
pub fn answer(alloc: Global, row: &Row<'_>) -> Result<Option<String>, Fail> {
    let shown = match row.call {
        "message" => match next_message(&row.bytes(alloc, 0)?) {
            Some((message, used)) => message_and_back(alloc, &message, used)?,
            None => debug(alloc, None::<u8>)?,
        },
        "lengths" => lengths(alloc, row.number(0))?,
        "put_message" => written_message(alloc, row)?,
        "put_attr" => written_attribute(alloc, row.number(0), &row.bytes(alloc, 1)?)?,
        "ack" => match next_message(&row.bytes(alloc, 1)?) {
            Some((message, _)) => acknowledgement(
                alloc,
                &message,
                (row.number(0) % 65_536) as u16,
            )?,
            None => debug(alloc, None::<u8>)?,
        },
        _ => return Ok(None),
    };
    Ok(Some(shown))
}

/// The fields of a message and its attributes, and whether it is written as it was read.
fn message_and_back(alloc: Global, message: &Message<'_>, used: usize) -> Result<String, Fail> {
    let (kind, flags) = (message.kind, message.flags);
    let (sequence, port) = (message.sequence, message.port);
    let mut text = format!(in alloc; "kind {kind} flags {flags} {sequence} {port} used {used}")?;
    for attr in attrs(message.body.get(QUEUE_HEADER..).unwrap_or(&[])) {
        let content = hex(alloc, attr.body)?;
        write!(text, "; {}: {content}", attr.kind)?;
    }
    let mut out = Vec::new(alloc);
    if message.body.len() < LONGEST {
        put_message(&mut out, kind, flags, sequence, port, message.body)?;
    }
    if out.as_slice() == message.whole {
        text.push_str("; written")?;
    }
    Ok(text)
}

/// From which length in its header on a message is answered so, of so many bytes that are there:
/// with how many are used.
fn lengths(alloc: Global, there: u32) -> Result<String, Fail> {
    let mut text = String::new(alloc);
    let mut bytes = vec![in alloc; 0; there as usize]?;
    let mut last = Some(0);
    for length in 0..=there.saturating_add(1).min(255) as u8 {
        if let Some(first) = bytes.get_mut(0) {
            *first = length;
        }
        let used = next_message(&bytes).map(|(_, used)| used);
        if used != last {
            let answer = format!(in alloc; "{length} {used:?}")?;
            add(&mut text, answer.as_str())?;
            last = used;
        }
    }
    Ok(text)
}

/// A message of this kind, these flags, this sequence, this port and this body.
fn written_message(alloc: Global, row: &Row<'_>) -> Result<String, Fail> {
    let body = row.bytes(alloc, 4)?;
    let mut out = Vec::new(alloc);
    if body.len() < LONGEST {
        let (kind, flags) = (row.number(0) % 65_536, row.number(1) % 65_536);
        put_message(
            &mut out,
            kind as u16,
            flags as u16,
            row.number(2),
            row.number(3),
            &body,
        )?;
    }
    Ok(hex(alloc, &out)?)
}

fn written_attribute(alloc: Global, kind: u32, content: &[u8]) -> Result<String, Fail> {
    let mut out = Vec::new(alloc);
    if kind < KINDS && content.len() <= MAX_CONTENT {
        put_attr(&mut out, kind as u16, content)?;
    }
    Ok(hex(alloc, &out)?)
}

fn acknowledgement(alloc: Global, request: &Message<'_>, errno: u16) -> Result<String, Fail> {
    let mut out = Vec::new(alloc);
    if request.whole.len() < LONGEST {
        ack(request, errno, &mut out)?;
    }
    Ok(hex(alloc, &out)?)
}
