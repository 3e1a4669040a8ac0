//! Requests, and other messages, as a journal's lines have them.

ghost use Rattle.std.specs.Prelude.{◌≡◌, Option, codes, option_map};
ghost use Rattle.text_lines.specs.Digits.{decimal};
ghost use Rattle.journal_reading.specs.Reading.{asked_in, batch_in, both, bytes_in, config_in};
ghost use Rattle.journal_reading.specs.Reading.{field};
ghost use Rattle.journal_reading.specs.Reading.{half, head_in, new_priority_in, params_in, part};
ghost use Rattle.journal_reading.specs.Reading.{Reads, request_by, request_in, small, verdict_in};

use crate::fields::{behind, bytes, half, small, wide, word};
use histories::AskWords;
use journals::Version;
use nfqa_msgs::{Head, Params, Request};
use packet_entry::{Bytes, NoMemory};
use std::alloc::Global;
use text_lines::is_word;

/// A request, or the bytes of another message.
#[tactic(auto, unfolding(crate::specs::Reading::asked_in))]
pub(crate) fn asked(
    alloc: Global,
    version: Version,
    text: &[u8],
) -> Result<Option<(AskWords, &[u8])>, NoMemory>
    ensures { Reads result (asked_in version text.now) }
{
    if let Some(rest) = behind(text, b"raw") {
        return match bytes(alloc, rest)? {
            Some((bytes, rest)) => Ok(Some((AskWords::Raw { bytes }, rest))),
            None => Ok(None),
        };
    }
    match request(alloc, version, text)? {
        Some((request, rest)) => Ok(Some((AskWords::Plain { request }, rest))),
        None => Ok(None),
    }
}

/// A request, by its first word.
#[tactic(auto, unfolding(crate::specs::Reading::request_in))]
pub(crate) fn request(
    alloc: Global,
    version: Version,
    text: &[u8],
) -> Result<Option<(Request, &[u8])>, NoMemory>
    ensures { Reads result (request_in version text.now) }
{
    match word(text) {
        Some((word, rest)) => request_by(alloc, version, word, rest),
        None => Ok(None),
    }
}

#[tactic(auto, unfolding(crate::specs::Reading::request_by))]
fn request_by<'a>(
    alloc: Global,
    version: Version,
    word: &[u8],
    rest: &'a [u8],
) -> Result<Option<(Request, &'a [u8])>, NoMemory>
    ensures { Reads result (request_by version word.now rest.now) }
{
    if is_word(word, b"config") {
        Ok(config(rest))
    } else if is_word(word, b"verdict") {
        verdict(alloc, version, rest)
    } else if is_word(word, b"batch") {
        Ok(batch(version, rest))
    } else {
        Ok(None)
    }
}

/// `Q [cmd N] [params MODE RANGE] [maxlen N] [flags N] [mask N]`
#[tactic(auto, unfolding(crate::specs::Reading::config_in))]
fn config(text: &[u8]) -> Option<(Request, &[u8])>
    ensures { option_map (λ x. (x.0, x.1.now)) result ≡ config_in text.now }
{
    let (queue, rest) = half(text)?;
    let (command, rest) = command_part(rest)?;
    let (params, rest) = params_part(rest)?;
    let (maxlen, rest) = number_part(rest, b"maxlen")?;
    let (flags, rest) = number_part(rest, b"flags")?;
    let (mask, rest) = number_part(rest, b"mask")?;
    let request = Request::Config {
        queue,
        command,
        params,
        maxlen,
        flags,
        mask,
    };
    Some((request, rest))
}

/// `Q (VERDICT ID | -) [mark N] [payload BYTES] [priority N]`, the last not in version 1
#[tactic(auto, unfolding(crate::specs::Reading::verdict_in))]
fn verdict(
    alloc: Global,
    version: Version,
    text: &[u8],
) -> Result<Option<(Request, &[u8])>, NoMemory>
    ensures { Reads result (verdict_in version text.now) }
{
    let Some((queue, head, rest)) = headed(text) else {
        return Ok(None);
    };
    let Some((mark, rest)) = number_part(rest, b"mark") else {
        return Ok(None);
    };
    let Some((payload, rest)) = payload_part(alloc, rest)? else {
        return Ok(None);
    };
    let Some((priority, rest)) = new_priority(version, rest) else {
        return Ok(None);
    };
    let request = Request::Verdict {
        queue,
        head,
        mark,
        payload,
        priority,
    };
    Ok(Some((request, rest)))
}

/// `Q (VERDICT MAX | -) [mark N] [priority N]`, the last not in version 1
#[tactic(auto, unfolding(crate::specs::Reading::batch_in))]
fn batch(version: Version, text: &[u8]) -> Option<(Request, &[u8])>
    ensures { option_map (λ x. (x.0, x.1.now)) result ≡ batch_in version text.now }
{
    let (queue, head, rest) = headed(text)?;
    let (mark, rest) = number_part(rest, b"mark")?;
    let (priority, rest) = new_priority(version, rest)?;
    let request = Request::Batch {
        queue,
        head,
        mark,
        priority,
    };
    Some((request, rest))
}

/// The queue and the verdict header that a verdict and a batch begin with.
fn headed(text: &[u8]) -> Option<(u16, Option<Head>, &[u8])>
    ensures { option_map (λ x. ((x.0, x.1), x.2.now)) result
        ≡ both (field half) head_in text.now }
{
    let (queue, rest) = half(text)?;
    let (head, rest) = head(rest)?;
    Some((queue, head, rest))
}

/// The verdict and the id; `-` where there is no verdict header.
#[tactic(auto, unfolding(crate::specs::Reading::head_in))]
fn head(text: &[u8]) -> Option<(Option<Head>, &[u8])>
    ensures { option_map (λ x. (x.0, x.1.now)) result ≡ head_in text.now }
{
    if let Some(rest) = behind(text, b"-") {
        return Some((None, rest));
    }
    let (verdict, rest) = wide(text)?;
    let (id, rest) = wide(rest)?;
    Some((Some(Head { verdict, id }), rest))
}

/// `[cmd N]`
fn command_part(text: &[u8]) -> Option<(Option<u8>, &[u8])>
    ensures { option_map (λ x. (x.0, x.1.now)) result
        ≡ part (codes "cmd") (field small) text.now }
{
    match behind(text, b"cmd") {
        Some(rest) => {
            let (command, rest) = small(rest)?;
            Some((Some(command), rest))
        }
        None => Some((None, text)),
    }
}

/// `[params MODE RANGE]`
#[tactic(auto, unfolding(crate::specs::Reading::params_in))]
fn params_part(text: &[u8]) -> Option<(Option<Params>, &[u8])>
    ensures { option_map (λ x. (x.0, x.1.now)) result
        ≡ part (codes "params") params_in text.now }
{
    match behind(text, b"params") {
        Some(rest) => {
            let (mode, rest) = small(rest)?;
            let (range, rest) = wide(rest)?;
            Some((Some(Params { range, mode }), rest))
        }
        None => Some((None, text)),
    }
}

/// `[NAME N]`
fn number_part<'a>(text: &'a [u8], name: &[u8]) -> Option<(Option<u32>, &'a [u8])>
    ensures { option_map (λ x. (x.0, x.1.now)) result ≡ part name.now (field decimal) text.now }
{
    match behind(text, name) {
        Some(rest) => {
            let (number, rest) = wide(rest)?;
            Some((Some(number), rest))
        }
        None => Some((None, text)),
    }
}

/// `[priority N]`. Version 1 has none.
fn new_priority(version: Version, text: &[u8]) -> Option<(Option<u32>, &[u8])>
    ensures { option_map (λ x. (x.0, x.1.now)) result ≡ new_priority_in version text.now }
{
    match version {
        Version::First => Some((None, text)),
        Version::Second => number_part(text, b"priority"),
    }
}

/// `[payload BYTES]`
fn payload_part(alloc: Global, text: &[u8]) -> Result<Option<(Option<Bytes>, &[u8])>, NoMemory>
    ensures { Reads result (part (codes "payload") (field bytes_in) text.now) }
{
    let Some(rest) = behind(text, b"payload") else {
        return Ok(Some((None, text)));
    };
    match bytes(alloc, rest)? {
        Some((bytes, rest)) => Ok(Some((Some(bytes), rest))),
        None => Ok(None),
    }
}
