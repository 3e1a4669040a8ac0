//! How many bytes the lines of a journal have at most.

ghost use Rattle.std.specs.Prelude.{◌≡◌, ◌+◌, ◌≤◌, ◌++◌, length, IfSome, decimal, codes};
ghost use Rattle.text_lines.specs.Hexadecimal.{hexadecimal};
ghost use Rattle.histories.specs.Happenings.{payload_of};
ghost use Rattle.journals.specs.declared.version.Version.TheVariants.{Second};
ghost use Rattle.journals.specs.Format as text;
ghost use Rattle.journals.specs.Journal as today;

use crate::digits::DIGITS;
use crate::fits::{half, head_fits, request_fits, some_wide};
use crate::version::Version;
use histories::{AskWords, Did, Entry, Event, Reply};
use nfqa_msgs::{Head, Request};
use packet_entry::{Bytes, Card};
use queue_core::Outcome;

/// What an arrival's line says of the packet has at most so many bytes beside the packet's own.
const CARD: usize = 180;
/// A request has at most so many bytes beside its payload.
const REQUEST: usize = 200;
/// What an entry's line says of its event has at most so many bytes beside packet and request.
const EVENT: usize = 70;
/// What an entry's line says of its reply has at most so many bytes, with the line's end.
const REPLY: usize = 50;
/// The line that a port's log begins with has at most so many bytes.
const PORT: usize = 25;
/// The line of what a port did has at most so many bytes beside what was sent.
const DID: usize = 70;
/// The word of a message that isn't in words, and the blank after it.
const RAW: usize = 4;

/// So many bytes hold the line of an entry with its end; `None` where they are too many to be
/// counted.
pub fn entry_room(entry: &Entry) -> Option<usize>
    ensures { IfSome result (λ room. length (today.entry entry.now) ≤ room) }
{
    reply_is_short(&entry.reply);
    event_room(entry.queue, &entry.event)?.checked_add(REPLY)
}

/// So many bytes hold the line that a port's log begins with, with its end.
pub fn port_room(port: u32) -> usize
    ensures { length (today.port port) ≤ result }
{
    number_is_short(port as u64);
    PORT
}

/// So many bytes hold the line of what a port did with its end; `None` where they are too many to be
/// counted.
pub fn did_room(did: &Did) -> Option<usize>
    ensures { IfSome result (λ room. length (today.did did.now) ≤ room) }
{
    match did {
        Did::Received {
            queue,
            number,
            visit,
        } => {
            three_are_short("R ", *queue, *number, *visit);
            Some(DID)
        }
        Did::Sent { call, ask, answer } => {
            number_is_short(*call as u64);
            answer_is_short(*answer);
            ask_room(ask)?.checked_add(DID)
        }
        Did::Closed => Some(DID),
    }
}

fn ask_room(ask: &AskWords) -> Option<usize>
    ensures { IfSome result (λ room. length (text.ask Second ask.now) ≤ room) }
{
    match ask {
        AskWords::Plain { request } => request_room(request),
        AskWords::Raw { bytes } => bytes_room(bytes)?.checked_add(RAW),
    }
}

fn event_room(queue: u16, event: &Event) -> Option<usize>
    ensures { IfSome result (λ room. length (text.event Second queue event.now) ≤ room) }
{
    number_is_short(queue as u64);
    match event {
        Event::Arrive { card, bypass, room } => {
            card_room(card, yes_no(*bypass), yes_no(*room))?.checked_add(EVENT)
        }
        Event::Ask {
            port,
            call,
            request,
        } => {
            number_is_short(*port as u64);
            number_is_short(*call as u64);
            request_room(request)?.checked_add(EVENT)
        }
        Event::PortClosed { port } => {
            number_is_short(*port as u64);
            Some(EVENT)
        }
        Event::DeviceDown { device } => {
            number_is_short(*device as u64);
            Some(EVENT)
        }
    }
}

fn card_room(card: &Card, bypass: &str, room: &str) -> Option<usize>
    requires bypass { length bypass.now ≡ 1 }
    requires room { length room.now ≡ 1 }
    ensures { IfSome result
        (λ all. length (text.card Second card.now bypass.now room.now) ≤ all) }
{
    card_is_short(card, bypass, room);
    let link = bytes_room(&card.link)?;
    let bytes = bytes_room(&card.bytes)?;
    link.checked_add(bytes)?.checked_add(CARD)
}

fn request_room(request: &Request) -> Option<usize>
    ensures { IfSome result (λ room. length (text.request Second request.now) ≤ room) }
{
    request_is_short(request);
    match request {
        Request::Verdict { payload, .. } => payload_room(payload)?.checked_add(REQUEST),
        Request::Config { .. } => Some(REQUEST),
        Request::Batch { .. } => Some(REQUEST),
    }
}

/// A request has at most so many bytes beside its payload.
pub(crate) fn request_is_short(request: &Request)
    ensures { length (text.request Second request.now)
        ≤ 182 + length (text.payload (payload_of request.now)) }
{
    request_fits(request);
}

fn payload_room(payload: &Option<Bytes>) -> Option<usize>
    ensures { IfSome result (λ room. length (text.payload payload.now) ≤ room + 9) }
{
    match payload {
        Some(bytes) => bytes_room(bytes),
        None => Some(0),
    }
}

/// So many bytes hold the digits of these, or the dash of none.
#[tactic(auto, using(crate::proofs::Lengths::hexadecimal_within))]
fn bytes_room(bytes: &Bytes) -> Option<usize>
    ensures { IfSome result (λ room. length (hexadecimal bytes.now) ≤ room) }
{
    bytes.len().checked_mul(DIGITS)?.checked_add(1)
}

fn card_is_short(card: &Card, bypass: &str, room: &str)
    requires bypass { length bypass.now ≡ 1 }
    requires room { length room.now ≡ 1 }
    ensures { length (text.card Second card.now bypass.now room.now)
        ≤ 174 + length (hexadecimal card.now.link) + length (hexadecimal card.now.bytes) }
{
    journey_is_short(card);
    facts_are_short(Version::Second, card);
    ways_are_short(bypass, room);
}

fn ways_are_short(bypass: &str, room: &str)
    requires bypass { length bypass.now ≡ 1 }
    requires room { length room.now ≡ 1 }
    ensures { length (bypass.now ++ codes " " ++ room.now ++ codes " ") ≤ 4 }
{}

fn journey_is_short(card: &Card)
    ensures { length (text.journey card.now) ≤ 63 }
{
    number_is_short(card.number as u64);
    number_is_short(card.visit as u64);
    number_is_short(card.table as u64);
}

fn facts_are_short(version: Version, card: &Card)
    ensures { length (text.facts version card.now) ≤ 105 }
{
    match version {
        Version::First | Version::Second => (),
    }
    number_is_short(card.mark as u64);
    number_is_short(card.priority as u64);
    number_is_short(card.seconds as u64);
    number_is_short(card.micros as u64);
    number_is_short(card.protocol as u64);
}

pub(crate) fn reply_is_short(reply: &Reply)
    ensures { length (text.reply reply.now) ≤ 44 }
{
    match reply {
        Reply::Arrived { outcome } => outcome_is_short(*outcome),
        Reply::Answer { errno, taken } => {
            number_is_short(*errno as u64);
            number_is_short(*taken as u64);
        }
        Reply::Flushed { taken } => number_is_short(*taken as u64),
    }
}

fn outcome_is_short(outcome: Outcome)
    ensures { length (text.outcome outcome) ≤ 34 }
{
    match outcome {
        Outcome::Taken { id } | Outcome::UserFull { id } | Outcome::UserFullOpen { id } => {
            number_is_short(id as u64)
        }
        _ => (),
    }
}

pub(crate) fn priority_is_short(version: Version, priority: Option<u32>)
    ensures { length (text.new_priority version priority) ≤ 30 }
{
    some_wide(priority);
}

/// A number of 64 bits has at most 20 digits.
pub fn number_is_short(_number: u64)
    ensures { length (decimal _number) ≤ 20 }
{}

/// A letter, and a queue and two numbers behind it.
pub(crate) fn three_are_short(letter: &str, queue: u16, first: u32, second: u32)
    requires letter { length letter.now ≤ 2 }
    ensures { length (letter.now ++ decimal queue ++ codes " " ++ decimal first ++ codes " "
        ++ decimal second) ≤ 64 }
{
    number_is_short(queue as u64);
    number_is_short(first as u64);
    number_is_short(second as u64);
}

fn yes_no(yes: bool) -> &'static str
    ensures word { result.now ≡ text.yes_no yes }
    ensures letter { length result.now ≡ 1 }
{
    if yes { "y" } else { "n" }
}

/// What an arrival's line says before the packet's bytes.
pub(crate) fn arrival_is_short(version: Version, queue: u16, card: &Card, bypass: bool, room: bool)
    ensures { length (codes "A " ++ decimal queue ++ codes " " ++ text.journey card.now
        ++ (text.yes_no bypass ++ codes " " ++ text.yes_no room ++ codes " ")
        ++ text.facts version card.now) ≤ 195 }
{
    number_is_short(queue as u64);
    journey_is_short(card);
    ways_are_short(yes_no(bypass), yes_no(room));
    facts_are_short(version, card);
}

/// A verdict or a batch, up to its mark.
pub(crate) fn verdict_is_short(word: &str, queue: u16, head: Option<Head>, mark: Option<u32>)
    requires word { length word.now ≤ 8 }
    ensures { length (word.now ++ decimal queue ++ codes " " ++ text.head head
        ++ text.part (codes " mark ") mark) ≤ 96 }
{
    half(queue);
    head_fits(head);
    some_wide(mark);
}

pub(crate) fn answer_is_short(answer: Option<u16>)
    ensures { length (text.answer answer) ≤ 23 }
{
    if let Some(answer) = answer {
        number_is_short(answer as u64);
    }
}
