//! A message cut at each byte, and with each length in its header up to its own.

ghost use Rattle.solo_tests.specs.Examples.{IsGoing};

use super::planes::{plane, send};
use super::{ONE_RULE, journal_of};
use solo_plane::SoloPlane;
use std::alloc::{AllocError, Global};
use std::test::Fail;

/// Port 7 binds queue 0.
const BIND: [u8; 28] = [
    28, 0, 0, 0, 2, 3, 5, 0, 1, 0, 0, 0, 7, 0, 0, 0, 0, 0, 0, 0, 8, 0, 1, 0, 1, 0, 0, 0,
];

/// A verdict that accepts id 1 of queue 0.
const ACCEPT: [u8; 32] = [
    32, 0, 0, 0, 1, 3, 1, 0, 3, 0, 0, 0, 7, 0, 0, 0, 0, 0, 0, 0, 12, 0, 2, 0, 0, 0, 0, 1, 0, 0, 0,
    1,
];

/// Port 7 sends each front of it: nothing is used, and nothing answered.
fn each_front_is_sent(plane: &mut SoloPlane, alloc: Global) -> Result<(), Fail>
    requires { IsGoing 0 plane.old }
    ensures { IsGoing 0 plane.new }
{
    for there in 0..32usize {
        let mut replies = Vec::new(alloc);
        let used = send(plane, alloc, &ACCEPT[..there], &mut replies, 0)?;
        if used != 0 || !replies.is_empty() {
            return Err(Fail::new("the front of a message is one"));
        }
    }
    Ok(())
}

/// How many bytes are used of the message with this length in its header.
fn used_of(length: u8) -> u32 {
    match length {
        0..=15 => 0,
        16 => 16,
        17..=20 => 20,
        21..=24 => 24,
        25..=28 => 28,
        _ => 32,
    }
}

/// What answers it: from 20 bytes on the errno 22 and the message, else nothing.
fn reply_to(alloc: Global, length: u8, message: &[u8]) -> Result<Vec<u8>, AllocError> {
    let mut reply = Vec::new(alloc);
    if length >= 20 {
        reply.extend_from_slice(&[length.wrapping_add(20), 0, 0, 0, 2, 0, 0, 0])?;
        reply.extend_from_slice(&[3, 0, 0, 0, 7, 0, 0, 0, 0xea, 0xff, 0xff, 0xff])?;
        reply.extend_from_slice(message.get(..usize::from(length)).unwrap_or(&[]))?;
    }
    Ok(reply)
}

/// Port 7 sends it with each shorter length in its header.
fn each_length_is_sent(plane: &mut SoloPlane, alloc: Global) -> Result<(), Fail>
    requires { IsGoing 0 plane.old }
    ensures { IsGoing 0 plane.new }
{
    for length in 0..32u8 {
        let mut bytes = ACCEPT;
        bytes[0] = length;
        let mut replies = Vec::new(alloc);
        let used = send(plane, alloc, &bytes, &mut replies, 0)?;
        let wanted = reply_to(alloc, length, &bytes)?;
        if used != used_of(length) || replies.as_slice() != wanted.as_slice() {
            return Err(Fail::new("a message of another length"));
        }
    }
    Ok(())
}

/// Port 7 binds queue 0, and sends all of these.
fn all_are_sent(plane: &mut SoloPlane, alloc: Global) -> Result<(), Fail>
    requires { IsGoing 0 plane.old }
{
    let mut replies = Vec::new(alloc);
    send(plane, alloc, &BIND, &mut replies, 0)?;
    each_front_is_sent(plane, alloc)?;
    each_length_is_sent(plane, alloc)
}

/// The entries: the binding, and a refused verdict for each length from 20 to 31. Those of 16 to 19
/// bytes were messages 2 to 5.
fn wanted(alloc: Global) -> Result<String, Fail> {
    let mut text = String::from_str(alloc, "nfq-journal 2\nM 0 7 1 config 0 cmd 1 = 0 0\n")?;
    for call in 6..18u32 {
        let line = format!(in alloc; "M 0 7 {call} verdict 0 - = 22 0\n")?;
        text.push_str(line.as_str())?;
    }
    text.push_str("P 7\n")?;
    Ok(text)
}

#[test]
fn cut_messages_are_nothing_or_refused(rt: HostRuntime) -> Result<(), Fail> {
    let mut plane = plane(rt.alloc(), ONE_RULE, 1024)?;
    let sent = all_are_sent(&mut plane, rt.alloc());
    let histories = plane.close(rt.alloc());
    sent?;
    let journal = journal_of(rt.alloc(), &histories?)?;
    let wanted = wanted(rt.alloc())?;
    let front = journal
        .as_slice()
        .get(..wanted.len())
        .ok_or("a short journal")?;
    assert_eq!(rt; front, wanted.as_bytes());
    Ok(())
}
