//! How much memory a journal takes, so that it is taken at once.

use crate::digits::DIGITS;
use histories::{AskWords, Did, Entry, Event, Histories, PortLog};
use nfqa_msgs::Request;
use packet_entry::Bytes;

/// More bytes than a line has beside its byte texts, with numbers of a usual length.
const LINE: usize = 96;

/// More bytes than the journal mostly has: of small packets some three times as many. Where it has
/// more after all, it grows.
pub fn room_for(histories: &Histories) -> usize {
    let mut room = LINE;
    for entry in &histories.entries {
        room = room.saturating_add(of_entry(entry));
    }
    for log in &histories.logs {
        room = room.saturating_add(of_log(log));
    }
    room
}

fn of_entry(entry: &Entry) -> usize {
    match &entry.event {
        Event::Arrive { card, .. } => of_bytes(&card.bytes),
        Event::Ask { request, .. } => of_request(request),
        _ => LINE,
    }
}

fn of_log(log: &PortLog) -> usize {
    let mut room = LINE;
    for did in &log.dids {
        room = room.saturating_add(of_did(did));
    }
    room
}

fn of_did(did: &Did) -> usize {
    match did {
        Did::Sent { ask, .. } => match ask {
            AskWords::Plain { request } => of_request(request),
            AskWords::Raw { bytes } => of_bytes(bytes),
        },
        _ => LINE,
    }
}

fn of_request(request: &Request) -> usize {
    match request {
        Request::Verdict {
            payload: Some(bytes),
            ..
        } => of_bytes(bytes),
        _ => LINE,
    }
}

/// A line with these bytes.
fn of_bytes(bytes: &Bytes) -> usize {
    bytes.len().saturating_mul(DIGITS).saturating_add(LINE)
}
