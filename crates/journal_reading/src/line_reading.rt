//! One line of a journal.

ghost use Rattle.std.specs.Prelude.{◌≡◌, IfOk, bytes_eq, option_map};
ghost use Rattle.text_lines.specs.Digits.{decimal};
ghost use Rattle.queue_core.specs.declared.event.Reply.TheVariants.{Flushed};
ghost use Rattle.journals.specs.Format.{title};
ghost use Rattle.journal_reading.specs.Reading as read;

use crate::fields::{behind, bytes, half, priority, wide, word, yes_no};
use crate::line::Line;
use crate::request_reading::{asked, request};
use histories::{Did, Entry, queue_of};
use journals::Version;
use nfqa_msgs::Request;
use packet_entry::{Card, NoMemory};
use queue_core::{Event, Outcome, Reply};
use std::alloc::Global;
use text_lines::{cut, decimal, decimal_16, is_word};

/// Whether this is the first line of a journal of this version.
pub(crate) fn is_title(version: Version, line: &[u8]) -> bool
    ensures { result ≡ bytes_eq line.now (title version) }
{
    match version {
        Version::First => is_word(line, b"nfq-journal 1"),
        Version::Second => is_word(line, b"nfq-journal 2"),
    }
}

/// What a line says, or `None` where it is no line of a journal of this version.
#[tactic(auto, unfolding(crate::specs::Reading::line_in))]
pub(crate) fn read_line(
    alloc: Global,
    version: Version,
    line: &[u8],
) -> Result<Option<Line>, NoMemory>
    ensures { IfOk result (λ found. found ≡ read.line_in version line.now) }
{
    if is_title(version, line) {
        return Ok(Some(Line::Heading));
    }
    if is_word(line, b"end") {
        return Ok(Some(Line::End));
    }
    if is_word(line, b"X") {
        return Ok(Some(Line::DidLine { did: Did::Closed }));
    }
    match word(line) {
        Some((word, rest)) => line_by(alloc, version, word, rest),
        None => Ok(None),
    }
}

/// The lines by their first word.
#[tactic(auto, unfolding(crate::specs::Reading::line_by))]
fn line_by(
    alloc: Global,
    version: Version,
    word: &[u8],
    rest: &[u8],
) -> Result<Option<Line>, NoMemory>
    ensures { IfOk result (λ found. found ≡ read.line_by version word.now rest.now) }
{
    if is_word(word, b"A") {
        Ok(arrival(alloc, version, rest)?.map(|entry| Line::EntryLine { entry }))
    } else if is_word(word, b"M") {
        Ok(ask(alloc, version, rest)?.map(|entry| Line::EntryLine { entry }))
    } else if is_word(word, b"C") {
        Ok(port_closed(rest).map(|entry| Line::EntryLine { entry }))
    } else if is_word(word, b"D") {
        Ok(device_down(rest).map(|entry| Line::EntryLine { entry }))
    } else if is_word(word, b"R") {
        Ok(received(rest).map(|did| Line::DidLine { did }))
    } else if is_word(word, b"S") {
        Ok(sent(alloc, version, rest)?.map(|did| Line::DidLine { did }))
    } else if is_word(word, b"P") {
        Ok(decimal(rest).map(|port| Line::PortLine { port }))
    } else {
        Ok(None)
    }
}

/// `Q NUMBER VISIT TABLE BYPASS ROOM MARK PRIORITY SECONDS MICROS PROTOCOL LINK BYTES OUTCOME`,
/// where version 1 has no PRIORITY
#[tactic(auto, unfolding(crate::specs::Reading::arrival_in))]
fn arrival(alloc: Global, version: Version, text: &[u8]) -> Result<Option<Entry>, NoMemory>
    ensures { IfOk result (λ found. found ≡ read.arrival_in version text.now) }
{
    let Some((queue, rest)) = half(text) else {
        return Ok(None);
    };
    let Some((card, bypass, room, rest)) = card(alloc, version, rest)? else {
        return Ok(None);
    };
    let Some(outcome) = outcome(rest) else {
        return Ok(None);
    };
    Ok(Some(Entry {
        queue,
        event: Event::Arrive { card, bypass, room },
        reply: Reply::Arrived { outcome },
    }))
}

/// What an arrival's line says of the packet, of the bypass and of the room.
#[tactic(auto, unfolding(crate::specs::Reading::card_in))]
fn card(
    alloc: Global,
    version: Version,
    text: &[u8],
) -> Result<Option<(Card, bool, bool, &[u8])>, NoMemory>
    ensures { IfOk result (λ found. option_map (λ x. ((x.0, (x.1, x.2)), x.3.now)) found
        ≡ read.card_in version text.now) }
{
    let Some((number, visit, table, rest)) = journey(text) else {
        return Ok(None);
    };
    let Some((bypass, room, rest)) = chances(rest) else {
        return Ok(None);
    };
    let Some((mark, priority, seconds, micros, protocol, rest)) = facts(version, rest) else {
        return Ok(None);
    };
    let Some((link, rest)) = bytes(alloc, rest)? else {
        return Ok(None);
    };
    let Some((bytes, rest)) = bytes(alloc, rest)? else {
        return Ok(None);
    };
    let card = Card {
        number,
        visit,
        table,
        mark,
        priority,
        seconds,
        micros,
        protocol,
        link,
        bytes,
    };
    Ok(Some((card, bypass, room, rest)))
}

/// `NUMBER VISIT TABLE`
#[tactic(auto, unfolding(crate::specs::Reading::journey_in))]
fn journey(text: &[u8]) -> Option<(u32, u32, u16, &[u8])>
    ensures { option_map (λ x. (((x.0, x.1), x.2), x.3.now)) result ≡ read.journey_in text.now }
{
    let (number, rest) = wide(text)?;
    let (visit, rest) = wide(rest)?;
    let (table, rest) = half(rest)?;
    Some((number, visit, table, rest))
}

/// `BYPASS ROOM`
fn chances(text: &[u8]) -> Option<(bool, bool, &[u8])>
    ensures { option_map (λ x. ((x.0, x.1), x.2.now)) result
        ≡ read.both (read.field read.yes_no_in) (read.field read.yes_no_in) text.now }
{
    let (bypass, rest) = yes_no(text)?;
    let (room, rest) = yes_no(rest)?;
    Some((bypass, room, rest))
}

/// `MARK PRIORITY SECONDS MICROS PROTOCOL`, where version 1 has no PRIORITY
#[tactic(auto, unfolding(crate::specs::Reading::facts_in))]
fn facts(version: Version, text: &[u8]) -> Option<(u32, u32, u32, u32, u16, &[u8])>
    ensures { option_map (λ x. ((((x.0, x.1), x.2), (x.3, x.4)), x.5.now)) result
        ≡ read.facts_in version text.now }
{
    let (mark, rest) = wide(text)?;
    let (priority, rest) = priority(version, rest)?;
    let (seconds, rest) = wide(rest)?;
    let (micros, rest) = wide(rest)?;
    let (protocol, rest) = half(rest)?;
    Some((mark, priority, seconds, micros, protocol, rest))
}

#[tactic(auto, unfolding(crate::specs::Reading::outcome_in))]
fn outcome(word: &[u8]) -> Option<Outcome>
    ensures { result ≡ read.outcome_in word.now }
{
    match cut(word, b':') {
        Some((name, number)) => numbered(name, number),
        None => bare(word),
    }
}

/// An outcome with an id.
#[tactic(auto, unfolding(crate::specs::Reading::numbered))]
fn numbered(name: &[u8], number: &[u8]) -> Option<Outcome>
    ensures { result ≡ read.numbered name.now number.now }
{
    if is_word(name, b"taken") {
        Some(Outcome::Taken {
            id: decimal(number)?,
        })
    } else if is_word(name, b"userfull") {
        Some(Outcome::UserFull {
            id: decimal(number)?,
        })
    } else if is_word(name, b"userfull-open") {
        Some(Outcome::UserFullOpen {
            id: decimal(number)?,
        })
    } else {
        None
    }
}

/// An outcome without an id.
#[tactic(auto, unfolding(crate::specs::Reading::bare))]
fn bare(word: &[u8]) -> Option<Outcome>
    ensures { result ≡ read.bare word.now }
{
    if is_word(word, b"overflow") {
        Some(Outcome::Overflow)
    } else if is_word(word, b"overflow-open") {
        Some(Outcome::OverflowOpen)
    } else if is_word(word, b"noqueue") {
        Some(Outcome::NoQueue)
    } else if is_word(word, b"bypassed") {
        Some(Outcome::Bypassed)
    } else if is_word(word, b"copynone") {
        Some(Outcome::CopyNone)
    } else if is_word(word, b"loop") {
        Some(Outcome::Loop)
    } else {
        None
    }
}

/// `Q PORT CALL REQUEST = ERRNO TAKEN`, where Q is the request's queue.
#[tactic(auto, unfolding(crate::specs::Reading::ask_in))]
fn ask(alloc: Global, version: Version, text: &[u8]) -> Result<Option<Entry>, NoMemory>
    ensures { IfOk result (λ found. found ≡ read.ask_in version text.now) }
{
    let Some((queue, port, call, rest)) = caller(text) else {
        return Ok(None);
    };
    let Some((request, rest)) = request(alloc, version, rest)? else {
        return Ok(None);
    };
    let Some((errno, taken)) = answered(rest) else {
        return Ok(None);
    };
    if queue_of(&request) != queue {
        return Ok(None);
    }
    Ok(Some(Entry {
        queue,
        event: Event::Ask {
            port,
            call,
            request,
        },
        reply: Reply::Answer { errno, taken },
    }))
}

/// `Q PORT CALL`
fn caller(text: &[u8]) -> Option<(u16, u32, u32, &[u8])>
    ensures { option_map (λ x. ((x.0, (x.1, x.2)), x.3.now)) result
        ≡ read.both (read.field read.half) (read.both (read.field decimal) (read.field decimal))
        text.now }
{
    let (queue, rest) = half(text)?;
    let (port, rest) = wide(rest)?;
    let (call, rest) = wide(rest)?;
    Some((queue, port, call, rest))
}

/// `= ERRNO TAKEN`
fn answered(text: &[u8]) -> Option<(u16, u32)>
    ensures { result ≡ read.answered_in text.now }
{
    let (errno, rest) = half(behind(text, b"=")?)?;
    Some((errno, decimal(rest)?))
}

/// `Q NUMBER NUMBER`
fn three(text: &[u8]) -> Option<(u16, u32, u32)>
    ensures { option_map (λ x. ((x.0, x.1), x.2)) result
        ≡ read.last (read.both (read.field read.half) (read.field decimal)) decimal text.now }
{
    let (queue, rest) = half(text)?;
    let (first, rest) = wide(rest)?;
    let second = decimal(rest)?;
    Some((queue, first, second))
}

/// The entry of an event whose reply is how many packets left.
fn flushed(queue: u16, event: Event, taken: u32) -> Entry
    ensures { result ≡ record { queue = queue; event = event; reply = Flushed taken } }
{
    Entry {
        queue,
        event,
        reply: Reply::Flushed { taken },
    }
}

/// `Q PORT TAKEN`
#[tactic(auto, unfolding(crate::specs::Reading::port_closed_in))]
fn port_closed(text: &[u8]) -> Option<Entry>
    ensures { result ≡ read.port_closed_in text.now }
{
    let (queue, port, taken) = three(text)?;
    Some(flushed(queue, Event::PortClosed { port }, taken))
}

/// `Q DEVICE TAKEN`
#[tactic(auto, unfolding(crate::specs::Reading::device_down_in))]
fn device_down(text: &[u8]) -> Option<Entry>
    ensures { result ≡ read.device_down_in text.now }
{
    let (queue, device, taken) = three(text)?;
    Some(flushed(queue, Event::DeviceDown { device }, taken))
}

/// `Q NUMBER VISIT`
#[tactic(auto, unfolding(crate::specs::Reading::received_in))]
fn received(text: &[u8]) -> Option<Did>
    ensures { result ≡ read.received_in text.now }
{
    let (queue, number, visit) = three(text)?;
    Some(Did::Received {
        queue,
        number,
        visit,
    })
}

/// `CALL REQUEST = ANSWER`, or `CALL raw BYTES = ANSWER`
#[tactic(auto, unfolding(crate::specs::Reading::sent_in))]
fn sent(alloc: Global, version: Version, text: &[u8]) -> Result<Option<Did>, NoMemory>
    ensures { IfOk result (λ found. found ≡ read.sent_in version text.now) }
{
    let Some((call, rest)) = wide(text) else {
        return Ok(None);
    };
    let Some((ask, rest)) = asked(alloc, version, rest)? else {
        return Ok(None);
    };
    let Some(rest) = behind(rest, b"=") else {
        return Ok(None);
    };
    match answer(rest) {
        Some(answer) => Ok(Some(Did::Sent { call, ask, answer })),
        None => Ok(None),
    }
}

/// The errno of an acknowledgement, `-` where there was none.
fn answer(word: &[u8]) -> Option<Option<u16>>
    ensures { result ≡ read.answer_in word.now }
{
    if is_word(word, b"-") {
        return Some(None);
    }
    Some(Some(decimal_16(word)?))
}
