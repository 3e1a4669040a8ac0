//! From histories to a journal's text.

ghost use Rattle.std.specs.Prelude.{◌≡◌, ◌+◌, ◌≤◌, ◌++◌, OnOk, OnErr, codes, length, take};
ghost use Rattle.std.specs.Prelude.{decimal};
ghost use Rattle.text_lines.specs.Hexadecimal.{hexadecimal};
ghost use Rattle.journals.specs.Appending.{Appends};
ghost use Rattle.journals.specs.Format as text;
ghost use Rattle.journals.specs.Journal as today;

use crate::appending::{append_number, append_text, append_word};
use crate::digits::{DIGITS, put_digits};
use crate::line_room::{
    answer_is_short, arrival_is_short, number_is_short, priority_is_short, reply_is_short,
    request_is_short, three_are_short, verdict_is_short,
};
use crate::parts::{
    put_answer, put_arrival, put_config, put_new_priority, put_reply, put_three, put_verdict,
};
use crate::placing::{put_number, put_word};
use crate::room::room_for;
use crate::version::Version;
use histories::{
    AskWords, Did, Dids, Entries, Entry, Event, Histories, Logs, PortLog, Reply, queue_of,
};
use nfqa_msgs::Request;
use packet_entry::{Bytes, Card, NoMemory};
use std::alloc::{AllocError, Global};

/// The version that is written.
const WRITTEN: Version = Version::Second;
/// What an arrival's line says before the packet's bytes has at most so many.
const FRONT: usize = 195;
/// What a line says of a request, and before it, has at most so many beside the payload.
const ASKED: usize = 250;
/// The line of a notice has at most so many.
const RECEIVED: usize = 65;
/// What a line says of a reply or of an answer, and its end, has at most so many.
const END: usize = 45;

/// Appends the journal of these histories. Out of memory nothing has changed.
///
/// A journal has no line for packets that were lost: it tells all only of histories without any.
pub fn journal_text(alloc: Global, histories: &Histories, out: &mut Vec<u8>) -> Result<(), NoMemory>
    ensures ok { OnOk result (out.new.items ≡ out.old.items ++ today.journal histories.now) }
    ensures err { OnErr result (out.new.items ≡ out.old.items) }
{
    let mut journal = Vec::with_capacity(alloc, room_for(histories))?;
    push_journal(WRITTEN, histories, &mut journal)?;
    append_text(journal, out)
}

pub(crate) fn push_journal(
    version: Version,
    histories: &Histories,
    out: &mut Vec<u8>,
) -> Result<(), AllocError>
    ensures { OnOk result (out.new.items ≡ out.old.items
        ++ text.journal_in version histories.now) }
{
    push_heading(version, out)?;
    push_histories(version, histories, out)?;
    append_ending(out)
}

/// Appends a journal's first line. So a journal can be written line by line: this one, each entry's
/// ([`append_entry`]), for each log the port's ([`append_port`]) and those of what it did
/// ([`append_did`]), and the last one ([`append_ending`]).
pub fn append_heading(out: &mut Vec<u8>) -> Result<(), AllocError>
    ensures { Appends result out.old out.new today.heading }
{
    push_heading(WRITTEN, out)
}

fn push_heading(version: Version, out: &mut Vec<u8>) -> Result<(), AllocError>
    ensures { Appends result out.old out.new (text.heading version) }
{
    match version {
        Version::First => append_word("nfq-journal 1\n", out),
        Version::Second => append_word("nfq-journal 2\n", out),
    }
}

/// Appends a journal's last line.
pub fn append_ending(out: &mut Vec<u8>) -> Result<(), AllocError>
    ensures { Appends result out.old out.new today.ending }
{
    append_word("end\n", out)
}

fn push_histories(
    version: Version,
    histories: &Histories,
    out: &mut Vec<u8>,
) -> Result<(), AllocError>
    ensures { OnOk result (out.new.items ≡ out.old.items
        ++ text.histories version histories.now) }
{
    push_entries(version, &histories.entries, out)?;
    push_logs(version, &histories.logs, out)
}

fn push_entries(version: Version, entries: &Entries, out: &mut Vec<u8>) -> Result<(), AllocError>
    ensures { OnOk result (out.new.items ≡ out.old.items
        ++ text.entries version entries.now) }
{
    for entry in entries {
        push_entry(version, entry, out)?;
    }
    Ok(())
}

fn push_logs(version: Version, logs: &Logs, out: &mut Vec<u8>) -> Result<(), AllocError>
    ensures { OnOk result (out.new.items ≡ out.old.items ++ text.logs version logs.now) }
{
    for log in logs {
        push_log(version, log, out)?;
    }
    Ok(())
}

fn push_log(version: Version, log: &PortLog, out: &mut Vec<u8>) -> Result<(), AllocError>
    ensures { OnOk result (out.new.items ≡ out.old.items ++ text.log version log.now) }
{
    append_port(log.port, out)?;
    push_dids(version, &log.dids, out)
}

/// Appends the line that a port's log begins with, with its end. Takes no memory where there is
/// room for the line, as [`port_room`](crate::port_room) bytes are.
pub fn append_port(port: u32, out: &mut Vec<u8>) -> Result<(), AllocError>
    ensures { Appends result out.old out.new (today.port port) }
{
    append_number("P ", port as u64, out)?;
    append_word("\n", out)
}

fn push_dids(version: Version, dids: &Dids, out: &mut Vec<u8>) -> Result<(), AllocError>
    ensures { OnOk result (out.new.items ≡ out.old.items ++ text.dids version dids.now) }
{
    for did in dids {
        push_did(version, did, out)?;
    }
    Ok(())
}

/// Appends the line of an entry, with its end. Takes no memory where there is room for the line, as
/// [`entry_room`](crate::entry_room) bytes are. Out of memory a part of the line may stand there.
pub fn append_entry(entry: &Entry, out: &mut Vec<u8>) -> Result<(), AllocError>
    ensures { Appends result out.old out.new (today.entry entry.now) }
{
    push_entry(WRITTEN, entry, out)
}

fn push_entry(version: Version, entry: &Entry, out: &mut Vec<u8>) -> Result<(), AllocError>
    ensures { Appends result out.old out.new (text.entry version entry.now) }
{
    push_event(version, entry.queue, &entry.event, out)?;
    push_reply(&entry.reply, out)
}

/// What an entry's line says of its event.
fn push_event(
    version: Version,
    queue: u16,
    event: &Event,
    out: &mut Vec<u8>,
) -> Result<(), AllocError>
    ensures { Appends result out.old out.new (text.event version queue event.now) }
{
    match event {
        Event::Arrive { card, bypass, room } => {
            push_arrival(version, queue, card, *bypass, *room, out)
        }
        Event::Ask {
            port,
            call,
            request,
        } => push_asked(version, queue, *port, *call, request, out),
        Event::PortClosed { port } => {
            append_number("C ", queue as u64, out)?;
            append_number(" ", *port as u64, out)
        }
        Event::DeviceDown { device } => {
            append_number("D ", queue as u64, out)?;
            append_number(" ", *device as u64, out)
        }
    }
}

/// What an arrival's line says of the packet, of the bypass and of the room, and the blank after
/// it.
fn push_arrival(
    version: Version,
    queue: u16,
    card: &Card,
    bypass: bool,
    room: bool,
    out: &mut Vec<u8>,
) -> Result<(), AllocError>
    ensures { Appends result out.old out.new (codes "A " ++ decimal queue ++ codes " "
        ++ text.journey card.now
        ++ (text.yes_no bypass ++ codes " " ++ text.yes_no room ++ codes " ")
        ++ text.facts version card.now
        ++ (hexadecimal card.now.link ++ codes " " ++ hexadecimal card.now.bytes ++ codes " ")) }
{
    arrival_is_short(version, queue, card, bypass, room);
    let mut line = [0; FRONT];
    let end = put_arrival(version, queue, card, bypass, room, &mut line, 0);
    out.extend_from_slice(&line[..end])?;
    push_frame(card, out)
}

/// The packet's bytes, and the blank after them.
fn push_frame(card: &Card, out: &mut Vec<u8>) -> Result<(), AllocError>
    ensures { Appends result out.old out.new
        (hexadecimal card.now.link ++ codes " " ++ hexadecimal card.now.bytes ++ codes " ") }
{
    push_bytes(card.link.as_slice(), out)?;
    append_word(" ", out)?;
    push_bytes(card.bytes.as_slice(), out)?;
    append_word(" ", out)
}

/// What a request's line says of the request and of who made it.
fn push_asked(
    version: Version,
    queue: u16,
    port: u32,
    call: u32,
    request: &Request,
    out: &mut Vec<u8>,
) -> Result<(), AllocError>
    ensures { Appends result out.old out.new (codes "M " ++ decimal queue ++ codes " "
        ++ decimal port ++ codes " " ++ decimal call ++ codes " "
        ++ text.request version request.now) }
{
    three_are_short("M ", queue, port, call);
    let mut line = [0; ASKED];
    let at = put_three("M ", queue, port, call, &mut line, 0);
    let at = put_word(" ", &mut line, at);
    push_request(version, request, &mut line, at, out)
}

/// Appends the first bytes of a line, and a request after them.
fn push_request(
    version: Version,
    request: &Request,
    line: &mut [u8],
    at: usize,
    out: &mut Vec<u8>,
) -> Result<(), AllocError>
    requires room { at + 182 ≤ length line.old }
    ensures { Appends result out.old out.new
        (take at line.old ++ text.request version request.now) }
{
    let queue = queue_of(request);
    match request {
        Request::Config {
            command,
            params,
            maxlen,
            flags,
            mask,
            ..
        } => {
            request_is_short(request);
            let end = put_config(queue, *command, *params, *maxlen, *flags, *mask, line, at);
            out.extend_from_slice(&line[..end])
        }
        Request::Verdict {
            head,
            mark,
            payload,
            priority,
            ..
        } => {
            verdict_is_short("verdict ", queue, *head, *mark);
            let end = put_verdict("verdict ", queue, *head, *mark, line, at);
            push_payload(version, payload, *priority, line, end, out)
        }
        Request::Batch {
            head,
            mark,
            priority,
            ..
        } => {
            verdict_is_short("batch ", queue, *head, *mark);
            let end = put_verdict("batch ", queue, *head, *mark, line, at);
            push_new_priority(version, *priority, line, end, out)
        }
    }
}

/// Appends the first bytes of a line, and after them the payload and the priority that a request
/// sets, where it does.
#[inline(always)]
fn push_payload(
    version: Version,
    payload: &Option<Bytes>,
    priority: Option<u32>,
    line: &mut [u8],
    at: usize,
    out: &mut Vec<u8>,
) -> Result<(), AllocError>
    requires room { at + 30 ≤ length line.old }
    ensures { Appends result out.old out.new
        (take at line.old ++ text.payload payload.now ++ text.new_priority version priority) }
{
    match payload {
        Some(bytes) => {
            out.extend_from_slice(&line[..at])?;
            append_word(" payload ", out)?;
            push_bytes(bytes.as_slice(), out)?;
            push_new_priority(version, priority, line, 0, out)
        }
        None => push_new_priority(version, priority, line, at, out),
    }
}

/// Appends the first bytes of a line, and after them the priority that a request sets.
#[inline(always)]
fn push_new_priority(
    version: Version,
    priority: Option<u32>,
    line: &mut [u8],
    at: usize,
    out: &mut Vec<u8>,
) -> Result<(), AllocError>
    requires room { at + 30 ≤ length line.old }
    ensures { Appends result out.old out.new
        (take at line.old ++ text.new_priority version priority) }
{
    priority_is_short(version, priority);
    let end = put_new_priority(version, priority, line, at);
    out.extend_from_slice(&line[..end])
}

/// Bytes in lower-case hexadecimal, `-` for none.
#[inline(always)]
fn push_bytes(bytes: &[u8], out: &mut Vec<u8>) -> Result<(), AllocError>
    ensures { Appends result out.old out.new (hexadecimal bytes.now) }
{
    if bytes.is_empty() {
        return append_word("-", out);
    }
    let size = bytes.len() * DIGITS;
    let Ok(()) = out.reserve(size) else {
        return Err(AllocError);
    };
    let start = out.len();
    out.resize(start + size, 0)?;
    put_digits(bytes, &mut out[start..]);
    Ok(())
}

/// What an entry's line says of its reply, and the line's end.
fn push_reply(reply: &Reply, out: &mut Vec<u8>) -> Result<(), AllocError>
    ensures { Appends result out.old out.new (text.reply reply.now ++ codes "\n") }
{
    reply_is_short(reply);
    let mut line = [0; END];
    let at = put_reply(reply, &mut line, 0);
    let end = put_word("\n", &mut line, at);
    out.extend_from_slice(&line[..end])
}

/// Appends the line of what a port did, with its end. Takes no memory where there is room for the
/// line, as [`did_room`](crate::did_room) bytes are. Out of memory a part of the line may stand
/// there.
pub fn append_did(did: &Did, out: &mut Vec<u8>) -> Result<(), AllocError>
    ensures { Appends result out.old out.new (today.did did.now) }
{
    push_did(WRITTEN, did, out)
}

fn push_did(version: Version, did: &Did, out: &mut Vec<u8>) -> Result<(), AllocError>
    ensures { Appends result out.old out.new (text.did version did.now) }
{
    match did {
        Did::Received {
            queue,
            number,
            visit,
        } => push_received(*queue, *number, *visit, out),
        Did::Sent { call, ask, answer } => {
            push_sent(version, *call, ask, out)?;
            push_answer(*answer, out)
        }
        Did::Closed => append_word("X\n", out),
    }
}

/// The line of a notice that a port received.
fn push_received(queue: u16, number: u32, visit: u32, out: &mut Vec<u8>) -> Result<(), AllocError>
    ensures { Appends result out.old out.new (codes "R " ++ decimal queue ++ codes " "
        ++ decimal number ++ codes " " ++ decimal visit ++ codes "\n") }
{
    three_are_short("R ", queue, number, visit);
    let mut line = [0; RECEIVED];
    let at = put_three("R ", queue, number, visit, &mut line, 0);
    let end = put_word("\n", &mut line, at);
    out.extend_from_slice(&line[..end])
}

/// What a port sent, a request or the bytes of another message, and in which call.
fn push_sent(
    version: Version,
    call: u32,
    ask: &AskWords,
    out: &mut Vec<u8>,
) -> Result<(), AllocError>
    ensures { Appends result out.old out.new
        (codes "S " ++ decimal call ++ codes " " ++ text.ask version ask.now) }
{
    number_is_short(call as u64);
    let mut line = [0; ASKED];
    let at = put_number("S ", call as u64, &mut line, 0);
    let at = put_word(" ", &mut line, at);
    match ask {
        AskWords::Plain { request } => push_request(version, request, &mut line, at, out),
        AskWords::Raw { bytes } => {
            let end = put_word("raw ", &mut line, at);
            out.extend_from_slice(&line[..end])?;
            push_bytes(bytes.as_slice(), out)
        }
    }
}

/// The answer to what a port sent, and the line's end.
fn push_answer(answer: Option<u16>, out: &mut Vec<u8>) -> Result<(), AllocError>
    ensures { Appends result out.old out.new (text.answer answer ++ codes "\n") }
{
    answer_is_short(answer);
    let mut line = [0; END];
    let at = put_answer(answer, &mut line, 0);
    let end = put_word("\n", &mut line, at);
    out.extend_from_slice(&line[..end])
}
