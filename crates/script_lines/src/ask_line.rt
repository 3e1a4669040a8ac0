//! Asks by the words of their line.

ghost use Rattle.std.specs.Prelude.{◌≡◌, ◌≤◌, length, option_map, IfOk, IfSome};
ghost use Rattle.text_lines.specs.Hexadecimal.{bytes_of};
ghost use Rattle.text_lines.specs.Words.{words_of};
ghost use Rattle.script_lines.specs.Limits.{IsPayload, IsTemplate};
ghost use Rattle.script_lines.specs.AskLine.{ask_of, batch_of, command_named};
ghost use Rattle.script_lines.specs.AskLine.{command_part, config_of, id_of, judged, mode_of};
ghost use Rattle.script_lines.specs.AskLine.{number_part, numbered_verdict, only_word};
ghost use Rattle.script_lines.specs.AskLine.{params_part, payload_part, queue_of};
ghost use Rattle.script_lines.specs.AskLine.{queue_verdict, raw_of, to_queue, verdict_of};
ghost use Rattle.script_lines.specs.AskLine.{verdict_word, with_priority};

use crate::template::{Judgement, OrThis, Settings, Template};
use nfqa_msgs::{BIND, META, NONE, PACKET, PF_BIND, PF_UNBIND, Params, UNBIND};
use packet_entry::{Bytes, NoMemory};
use queue_core::{ACCEPT, DROP, QUEUE, QUEUE_BYPASS, REPEAT, STOP};
use std::alloc::Global;
use text_lines::{
    cut, decimal, decimal_8, decimal_16, hexadecimal_bytes, is_end, is_word, next_word, rest_after,
};

/// The word for what the notice says.
const THIS: &[u8] = b"this";
/// The place of the queue's number in a queue verdict: its high 16 bits, from `NF_VERDICT_QBITS` of
/// the kernel's netfilter.h on.
const QUEUE_NUMBER_PLACE: u32 = 65_536;
/// The most bytes of a payload, of this reader.
const MAX_PAYLOAD_BYTES: usize = 2_048;
/// The most bytes of a datagram, of this reader.
const MAX_RAW_BYTES: usize = 4_096;

/// The ask that a line is, or `None` where no form allows it.
#[tactic(auto, unfolding(crate::specs::AskLine::ask_of))]
pub(crate) fn read_ask(alloc: Global, line: &[u8]) -> Result<Option<Template>, NoMemory>
    ensures value { IfOk result (λ ask. ask ≡ ask_of (words_of line.now)) }
    ensures fit { IfOk result (λ ask. IfSome ask IsTemplate) }
{
    let Some((word, rest)) = next_word(line) else {
        return Ok(None);
    };
    if is_word(word, b"config") {
        Ok(config(rest))
    } else if is_word(word, b"verdict") {
        verdict(alloc, rest)
    } else if is_word(word, b"batch") {
        Ok(batch(rest))
    } else if is_word(word, b"raw") {
        raw(alloc, rest)
    } else {
        Ok(None)
    }
}

/// `Q [COMMAND] [params MODE RANGE] [maxlen N] [flags N] [mask N]`
#[tactic(auto, unfolding(crate::specs::AskLine::config_of))]
fn config(line: &[u8]) -> Option<Template>
    ensures value { result ≡ config_of (words_of line.now) }
    ensures fit { IfSome result IsTemplate }
{
    let (queue, rest) = next_word(line)?;
    let queue = queue_word(queue)?;
    let (command, rest) = command(rest)?;
    let (params, rest) = params(rest)?;
    let (maxlen, rest) = number_part(rest, b"maxlen")?;
    let (flags, rest) = number_part(rest, b"flags")?;
    let (mask, rest) = number_part(rest, b"mask")?;
    if !is_end(rest) {
        return None;
    }
    let settings = Settings {
        command,
        params,
        maxlen,
        flags,
        mask,
    };
    Some(Template::Config { queue, settings })
}

/// `[bind | unbind | pfbind | pfunbind | cmd N]`
#[tactic(auto, unfolding(crate::specs::AskLine::command_part))]
fn command(line: &[u8]) -> Option<(Option<u8>, &[u8])>
    ensures { option_map (λ x. (x.0, words_of x.1.now)) result ≡ command_part (words_of line.now) }
{
    let Some((word, rest)) = next_word(line) else {
        return Some((None, line));
    };
    if is_word(word, b"cmd") {
        let (number, rest) = next_word(rest)?;
        return Some((Some(decimal_8(number)?), rest));
    }
    match command_named(word) {
        Some(command) => Some((Some(command), rest)),
        None => Some((None, line)),
    }
}

/// The command that a word names.
#[tactic(auto, unfolding(crate::specs::AskLine::command_named))]
fn command_named(word: &[u8]) -> Option<u8>
    ensures { result ≡ command_named word.now }
{
    if is_word(word, b"bind") {
        Some(BIND)
    } else if is_word(word, b"unbind") {
        Some(UNBIND)
    } else if is_word(word, b"pfbind") {
        Some(PF_BIND)
    } else if is_word(word, b"pfunbind") {
        Some(PF_UNBIND)
    } else {
        None
    }
}

/// `[params MODE RANGE]`
#[tactic(auto, unfolding(crate::specs::AskLine::params_part))]
fn params(line: &[u8]) -> Option<(Option<Params>, &[u8])>
    ensures { option_map (λ x. (x.0, words_of x.1.now)) result ≡ params_part (words_of line.now) }
{
    let Some(rest) = rest_after(line, b"params") else {
        return Some((None, line));
    };
    let (mode, rest) = next_word(rest)?;
    let mode = copy_mode(mode)?;
    let (range, rest) = next_word(rest)?;
    let range = decimal(range)?;
    Some((Some(Params { range, mode }), rest))
}

/// The copy mode that a word names, or its number.
#[tactic(auto, unfolding(crate::specs::AskLine::mode_of))]
fn copy_mode(word: &[u8]) -> Option<u8>
    ensures { result ≡ mode_of word.now }
{
    if is_word(word, b"none") {
        Some(NONE)
    } else if is_word(word, b"meta") {
        Some(META)
    } else if is_word(word, b"packet") {
        Some(PACKET)
    } else {
        decimal_8(word)
    }
}

/// `Q VERDICT ID [mark N]`, without a priority.
#[tactic(auto, unfolding(crate::specs::AskLine::judged))]
fn judgement(line: &[u8]) -> Option<(Judgement, &[u8])>
    ensures { option_map (λ x. (x.0, words_of x.1.now)) result ≡ judged (words_of line.now) }
{
    let (queue, rest) = next_word(line)?;
    let queue = queue_word(queue)?;
    let (verdict, rest) = next_word(rest)?;
    let verdict = verdict_word(verdict)?;
    let (id, rest) = next_word(rest)?;
    let id = id_word(id)?;
    let (mark, rest) = number_part(rest, b"mark")?;
    let judgement = Judgement {
        queue,
        verdict,
        id,
        mark,
        priority: None,
    };
    Some((judgement, rest))
}

/// The same with the priority of `[priority N]`, which ends the line.
#[tactic(auto, unfolding(crate::specs::AskLine::with_priority))]
fn with_priority(judgement: Judgement, line: &[u8]) -> Option<Judgement>
    ensures { result ≡ with_priority judgement (words_of line.now) }
{
    let (priority, rest) = number_part(line, b"priority")?;
    if !is_end(rest) {
        return None;
    }
    Some(Judgement {
        priority,
        ..judgement
    })
}

/// `Q VERDICT ID [mark N] [payload BYTES] [priority N]`
#[tactic(auto, unfolding(crate::specs::AskLine::verdict_of))]
fn verdict(alloc: Global, line: &[u8]) -> Result<Option<Template>, NoMemory>
    ensures value { IfOk result (λ ask. ask ≡ verdict_of (words_of line.now)) }
    ensures fit { IfOk result (λ ask. IfSome ask IsTemplate) }
{
    let Some((judgement, rest)) = judgement(line) else {
        return Ok(None);
    };
    let Some((payload, rest)) = payload_part(alloc, rest)? else {
        return Ok(None);
    };
    match with_priority(judgement, rest) {
        Some(judgement) => Ok(Some(Template::Verdict { judgement, payload })),
        None => Ok(None),
    }
}

/// `[payload BYTES]`
#[tactic(auto, unfolding(crate::specs::AskLine::value_part))]
fn payload_part(alloc: Global, line: &[u8]) -> Result<Option<(Option<Bytes>, &[u8])>, NoMemory>
    ensures value { IfOk result (λ read.
        option_map (λ x. (x.0, words_of x.1.now)) read ≡ payload_part (words_of line.now)) }
    ensures fit { IfOk result (λ read. IfSome read (λ x. IfSome x.0 IsPayload)) }
{
    let Some(rest) = rest_after(line, b"payload") else {
        return Ok(Some((None, line)));
    };
    let Some((word, rest)) = next_word(rest) else {
        return Ok(None);
    };
    match spelled_bytes(alloc, word, MAX_PAYLOAD_BYTES)? {
        Some(bytes) => Ok(Some((Some(bytes), rest))),
        None => Ok(None),
    }
}

/// `Q VERDICT MAX [mark N] [priority N]`
#[tactic(auto, unfolding(crate::specs::AskLine::batch_of))]
fn batch(line: &[u8]) -> Option<Template>
    ensures value { result ≡ batch_of (words_of line.now) }
    ensures fit { IfSome result IsTemplate }
{
    let (judgement, rest) = judgement(line)?;
    let judgement = with_priority(judgement, rest)?;
    Some(Template::Batch { judgement })
}

/// `BYTES`, one or more.
#[tactic(auto, unfolding(crate::specs::AskLine::raw_of))]
fn raw(alloc: Global, line: &[u8]) -> Result<Option<Template>, NoMemory>
    ensures value { IfOk result (λ ask. ask ≡ raw_of (words_of line.now)) }
    ensures fit { IfOk result (λ ask. IfSome ask IsTemplate) }
{
    let Some(word) = only_word(line) else {
        return Ok(None);
    };
    let Some(bytes) = spelled_bytes(alloc, word, MAX_RAW_BYTES)? else {
        return Ok(None);
    };
    if bytes.len() == 0 {
        return Ok(None);
    }
    Ok(Some(Template::Raw { bytes }))
}

/// The bytes that a word spells, at most so many.
fn spelled_bytes(alloc: Global, word: &[u8], most: usize) -> Result<Option<Bytes>, NoMemory>
    ensures value { IfOk result (λ bytes. bytes ≡ bytes_of most word.now) }
    ensures few { IfOk result (λ bytes. IfSome bytes (λ bytes. length bytes ≤ most)) }
{
    match hexadecimal_bytes(alloc, word, most)? {
        Some(bytes) => Ok(Some(Bytes::from_vec(bytes)?)),
        None => Ok(None),
    }
}

/// The word of a line that has just one.
pub(crate) fn only_word(line: &[u8]) -> Option<&[u8]>
    ensures { option_map (λ word. word.now) result ≡ only_word (words_of line.now) }
{
    let (word, rest) = next_word(line)?;
    if is_end(rest) { Some(word) } else { None }
}

/// `[NAME N]`
#[tactic(auto, unfolding(crate::specs::AskLine::value_part))]
fn number_part<'a>(line: &'a [u8], name: &[u8]) -> Option<(Option<u32>, &'a [u8])>
    ensures { option_map (λ x. (x.0, words_of x.1.now)) result
        ≡ number_part name.now (words_of line.now) }
{
    let Some(rest) = rest_after(line, name) else {
        return Some((None, line));
    };
    let (number, rest) = next_word(rest)?;
    Some((Some(decimal(number)?), rest))
}

fn queue_word(word: &[u8]) -> Option<OrThis<u16>>
    ensures { result ≡ queue_of word.now }
{
    if is_word(word, THIS) {
        return Some(OrThis::This);
    }
    Some(OrThis::Number {
        number: decimal_16(word)?,
    })
}

fn id_word(word: &[u8]) -> Option<OrThis<u32>>
    ensures { result ≡ id_of word.now }
{
    if is_word(word, THIS) {
        return Some(OrThis::This);
    }
    Some(OrThis::Number {
        number: decimal(word)?,
    })
}

/// A verdict by its name or its number.
#[tactic(auto, unfolding(crate::specs::AskLine::verdict_word))]
fn verdict_word(word: &[u8]) -> Option<u32>
    ensures { result ≡ verdict_word word.now }
{
    if is_word(word, b"drop") {
        Some(DROP)
    } else if is_word(word, b"accept") {
        Some(ACCEPT)
    } else if is_word(word, b"repeat") {
        Some(REPEAT)
    } else if is_word(word, b"stop") {
        Some(STOP)
    } else {
        numbered_verdict(word)
    }
}

/// `queue:N`, `queue:N:bypass`, or a number.
#[tactic(auto, unfolding(crate::specs::AskLine::numbered_verdict))]
fn numbered_verdict(word: &[u8]) -> Option<u32>
    ensures { result ≡ numbered_verdict word.now }
{
    match cut(word, b':') {
        Some((name, rest)) if is_word(name, b"queue") => queue_verdict(rest),
        Some(_) => None,
        None => decimal(word),
    }
}

/// `N` or `N:bypass`, which stands after `queue:`.
#[tactic(auto, unfolding(crate::specs::AskLine::queue_verdict))]
fn queue_verdict(word: &[u8]) -> Option<u32>
    ensures { result ≡ queue_verdict word.now }
{
    match cut(word, b':') {
        Some((queue, option)) if is_word(option, b"bypass") => {
            Some(to_queue(decimal_16(queue)?) + QUEUE_BYPASS)
        }
        Some(_) => None,
        None => Some(to_queue(decimal_16(word)?)),
    }
}

/// The verdict that hands a packet on to this queue.
fn to_queue(queue: u16) -> u32
    ensures { result ≡ to_queue queue }
{
    u32::from(queue) * QUEUE_NUMBER_PLACE + QUEUE
}
