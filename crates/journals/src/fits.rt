//! What the types of histories say of them: each value fits its field.

ghost use Rattle.std.specs.Prelude.{All, IfSome};
ghost use Rattle.hex.specs.Hex.{IsBytes};
ghost use Rattle.journals.specs.declared.version.Version.TheVariants.{Second};
ghost use Rattle.journals.specs.Formed.{FitsAsk, FitsCard, FitsDid, FitsHead, FitsOutcome};
ghost use Rattle.journals.specs.Formed.{FitsParams, FitsRequest, IsHalf, IsSmall, IsWide};
ghost use Rattle.journals.specs.WellFormed.{Fit, FitsEntry, FitsEvent, FitsLog, FitsReply};

use histories::{
    AskWords, Did, Dids, Entries, Entry, Event, Histories, Logs, PortLog, Reply, queue_of,
};
use nfqa_msgs::{Head, Params, Request};
use packet_entry::{Bytes, Card};
use queue_core::Outcome;

/// Each value fits its field.
pub fn histories_fit(histories: &Histories)
    ensures { Fit histories.now }
{
    entries_fit(&histories.entries);
    logs_fit(&histories.logs);
}

fn wide(n: u32)
    ensures { IsWide n }
{}

pub(crate) fn half(n: u16)
    ensures { IsHalf n }
{}

fn small(n: u8)
    ensures { IsSmall n }
{}

fn are_bytes(bytes: &[u8])
    ensures { IsBytes bytes.now }
{}

pub(crate) fn some_wide(n: Option<u32>)
    ensures { IfSome n IsWide }
{
    if let Some(n) = n {
        wide(n);
    }
}

fn some_half(n: Option<u16>)
    ensures { IfSome n IsHalf }
{
    if let Some(n) = n {
        half(n);
    }
}

fn some_small(n: Option<u8>)
    ensures { IfSome n IsSmall }
{
    if let Some(n) = n {
        small(n);
    }
}

fn params_fit(params: Option<Params>)
    ensures { IfSome params FitsParams }
{
    if let Some(Params { range, mode }) = params {
        wide(range);
        small(mode);
    }
}

pub(crate) fn head_fits(head: Option<Head>)
    ensures { IfSome head FitsHead }
{
    if let Some(Head { verdict, id }) = head {
        wide(verdict);
        wide(id);
    }
}

fn payload_fits(payload: &Option<Bytes>)
    ensures { IfSome payload.now IsBytes }
{
    if let Some(bytes) = payload {
        are_bytes(bytes.as_slice());
    }
}

pub(crate) fn request_fits(request: &Request)
    ensures { FitsRequest Second request.now }
{
    half(queue_of(request));
    match request {
        Request::Config {
            command,
            params,
            maxlen,
            flags,
            mask,
            ..
        } => {
            some_small(*command);
            params_fit(*params);
            some_wide(*maxlen);
            some_wide(*flags);
            some_wide(*mask);
        }
        Request::Verdict {
            head,
            mark,
            payload,
            priority,
            ..
        } => {
            head_fits(*head);
            some_wide(*mark);
            payload_fits(payload);
            some_wide(*priority);
        }
        Request::Batch {
            head,
            mark,
            priority,
            ..
        } => {
            head_fits(*head);
            some_wide(*mark);
            some_wide(*priority);
        }
    }
}

fn card_fits(card: &Card)
    ensures { FitsCard Second card.now }
{
    wide(card.number);
    wide(card.visit);
    half(card.table);
    wide(card.mark);
    wide(card.priority);
    wide(card.seconds);
    wide(card.micros);
    half(card.protocol);
    are_bytes(card.link.as_slice());
    are_bytes(card.bytes.as_slice());
}

fn outcome_fits(outcome: Outcome)
    ensures { FitsOutcome outcome }
{
    match outcome {
        Outcome::Taken { id } | Outcome::UserFull { id } | Outcome::UserFullOpen { id } => wide(id),
        _ => (),
    }
}

fn reply_fits(reply: Reply)
    ensures { FitsReply reply }
{
    match reply {
        Reply::Arrived { outcome } => outcome_fits(outcome),
        Reply::Answer { errno, taken } => {
            half(errno);
            wide(taken);
        }
        Reply::Flushed { taken } => wide(taken),
    }
}

fn event_fits(event: &Event)
    ensures { FitsEvent event.now }
{
    match event {
        Event::Arrive { card, .. } => card_fits(card),
        Event::Ask {
            port,
            call,
            request,
        } => {
            wide(*port);
            wide(*call);
            request_fits(request);
        }
        Event::PortClosed { port } => wide(*port),
        Event::DeviceDown { device } => wide(*device),
    }
}

fn entry_fits(entry: &Entry)
    ensures { FitsEntry entry.now }
{
    half(entry.queue);
    event_fits(&entry.event);
    reply_fits(entry.reply);
}

fn entries_fit(entries: &Entries)
    ensures { All FitsEntry entries.now }
{
    for entry in entries {
        entry_fits(entry);
    }
}

fn ask_fits(ask: &AskWords)
    ensures { FitsAsk Second ask.now }
{
    match ask {
        AskWords::Plain { request } => request_fits(request),
        AskWords::Raw { bytes } => are_bytes(bytes.as_slice()),
    }
}

fn did_fits(did: &Did)
    ensures { FitsDid Second did.now }
{
    match did {
        Did::Received {
            queue,
            number,
            visit,
        } => {
            half(*queue);
            wide(*number);
            wide(*visit);
        }
        Did::Sent { call, ask, answer } => {
            wide(*call);
            ask_fits(ask);
            some_half(*answer);
        }
        Did::Closed => (),
    }
}

fn dids_fit(dids: &Dids)
    ensures { All (FitsDid Second) dids.now }
{
    for did in dids {
        did_fits(did);
    }
}

fn log_fits(log: &PortLog)
    ensures { FitsLog log.now }
{
    wide(log.port);
    dids_fit(&log.dids);
}

fn logs_fit(logs: &Logs)
    ensures { All FitsLog logs.now }
{
    for log in logs {
        log_fits(log);
    }
}
