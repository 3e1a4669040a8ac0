//! The parts of lines that have no bytes of packets, put into a slice.

ghost use Rattle.std.specs.Prelude.{◌≡◌, ◌+◌, ◌≤◌, ◌++◌, length, codes, decimal};
ghost use Rattle.nfqa_msgs.specs.declared.request.Request.TheVariants.{Config};
ghost use Rattle.journals.specs.declared.version.Version.TheVariants.{Second};
ghost use Rattle.journals.specs.Format as text;
ghost use Rattle.journals.specs.Placing.{Placed};

use crate::placing::{put_number, put_option, put_word};
use crate::version::Version;
use histories::Reply;
use nfqa_msgs::{Head, Params};
use packet_entry::Card;
use queue_core::Outcome;

/// What an arrival's line says before the packet's bytes.
pub(crate) fn put_arrival(
    version: Version,
    queue: u16,
    card: &Card,
    bypass: bool,
    room: bool,
    to: &mut [u8],
    at: usize,
) -> usize
    requires room { at + length (codes "A " ++ decimal queue ++ codes " "
        ++ text.journey card.now
        ++ (text.yes_no bypass ++ codes " " ++ text.yes_no room ++ codes " ")
        ++ text.facts version card.now) ≤ length to.old }
    ensures { Placed to.old to.new at (codes "A " ++ decimal queue ++ codes " "
        ++ text.journey card.now
        ++ (text.yes_no bypass ++ codes " " ++ text.yes_no room ++ codes " ")
        ++ text.facts version card.now) result }
{
    let at = put_number("A ", queue as u64, to, at);
    let at = put_word(" ", to, at);
    let at = put_journey(card, to, at);
    let at = put_word(ways(bypass, room), to, at);
    put_facts(version, card, to, at)
}

/// Whether the packet may go on without a queue, and whether the mailbox had room.
#[inline(always)]
fn ways(bypass: bool, room: bool) -> &'static str
    ensures { result.now ≡ text.yes_no bypass ++ codes " " ++ text.yes_no room ++ codes " " }
{
    if bypass {
        if room { "y y " } else { "y n " }
    } else if room {
        "n y "
    } else {
        "n n "
    }
}

/// Where the packet is on its way.
fn put_journey(card: &Card, to: &mut [u8], at: usize) -> usize
    requires room { at + length (text.journey card.now) ≤ length to.old }
    ensures { Placed to.old to.new at (text.journey card.now) result }
{
    let at = put_number("", card.number as u64, to, at);
    let at = put_number(" ", card.visit as u64, to, at);
    let at = put_number(" ", card.table as u64, to, at);
    put_word(" ", to, at)
}

/// What else is known of the packet, but for its bytes.
fn put_facts(version: Version, card: &Card, to: &mut [u8], at: usize) -> usize
    requires room { at + length (text.facts version card.now) ≤ length to.old }
    ensures { Placed to.old to.new at (text.facts version card.now) result }
{
    let at = put_marks(version, card, to, at);
    let at = put_number("", card.seconds as u64, to, at);
    let at = put_number(" ", card.micros as u64, to, at);
    let at = put_number(" ", card.protocol as u64, to, at);
    put_word(" ", to, at)
}

/// The packet's mark and its priority.
fn put_marks(version: Version, card: &Card, to: &mut [u8], at: usize) -> usize
    requires room { at + length (decimal card.now.mark ++ codes " "
        ++ text.priority version card.now.priority) ≤ length to.old }
    ensures { Placed to.old to.new at (decimal card.now.mark ++ codes " "
        ++ text.priority version card.now.priority) result }
{
    let at = put_number("", card.mark as u64, to, at);
    let at = put_word(" ", to, at);
    put_priority(version, card.priority, to, at)
}

/// A packet's priority, and the blank after it.
fn put_priority(version: Version, priority: u32, to: &mut [u8], at: usize) -> usize
    requires room { at + length (text.priority version priority) ≤ length to.old }
    ensures { Placed to.old to.new at (text.priority version priority) result }
{
    match version {
        Version::First => at,
        Version::Second => {
            let at = put_number("", priority as u64, to, at);
            put_word(" ", to, at)
        }
    }
}

/// A letter, and a queue and two numbers behind it.
#[inline(always)]
pub(crate) fn put_three(
    letter: &str,
    queue: u16,
    first: u32,
    second: u32,
    to: &mut [u8],
    at: usize,
) -> usize
    requires room { at + length (letter.now ++ decimal queue ++ codes " " ++ decimal first
        ++ codes " " ++ decimal second) ≤ length to.old }
    ensures { Placed to.old to.new at (letter.now ++ decimal queue ++ codes " " ++ decimal first
        ++ codes " " ++ decimal second) result }
{
    let at = put_number(letter, queue as u64, to, at);
    let at = put_number(" ", first as u64, to, at);
    put_number(" ", second as u64, to, at)
}

/// A configuration request.
pub(crate) fn put_config(
    queue: u16,
    command: Option<u8>,
    params: Option<Params>,
    maxlen: Option<u32>,
    flags: Option<u32>,
    mask: Option<u32>,
    to: &mut [u8],
    at: usize,
) -> usize
    requires room { at + length (text.request Second
        (Config queue command params maxlen flags mask)) ≤ length to.old }
    ensures { Placed to.old to.new at
        (text.request Second (Config queue command params maxlen flags mask)) result }
{
    let at = put_number("config ", queue as u64, to, at);
    let at = put_command(command, to, at);
    let at = put_params(params, to, at);
    put_values(maxlen, flags, mask, to, at)
}

/// The numbers at the end of a configuration request.
fn put_values(
    maxlen: Option<u32>,
    flags: Option<u32>,
    mask: Option<u32>,
    to: &mut [u8],
    at: usize,
) -> usize
    requires room { at + length (text.part (codes " maxlen ") maxlen
        ++ text.part (codes " flags ") flags ++ text.part (codes " mask ") mask) ≤ length to.old }
    ensures { Placed to.old to.new at (text.part (codes " maxlen ") maxlen
        ++ text.part (codes " flags ") flags ++ text.part (codes " mask ") mask) result }
{
    let at = put_option(" maxlen ", maxlen, to, at);
    let at = put_option(" flags ", flags, to, at);
    put_option(" mask ", mask, to, at)
}

fn put_command(command: Option<u8>, to: &mut [u8], at: usize) -> usize
    requires room { at + length (text.part (codes " cmd ") command) ≤ length to.old }
    ensures { Placed to.old to.new at (text.part (codes " cmd ") command) result }
{
    match command {
        Some(command) => put_number(" cmd ", command as u64, to, at),
        None => at,
    }
}

fn put_params(params: Option<Params>, to: &mut [u8], at: usize) -> usize
    requires room { at + length (text.params params) ≤ length to.old }
    ensures { Placed to.old to.new at (text.params params) result }
{
    match params {
        Some(Params { range, mode }) => {
            let at = put_number(" params ", mode as u64, to, at);
            put_number(" ", range as u64, to, at)
        }
        None => at,
    }
}

/// A verdict or a batch, up to its mark.
#[inline(always)]
pub(crate) fn put_verdict(
    word: &str,
    queue: u16,
    head: Option<Head>,
    mark: Option<u32>,
    to: &mut [u8],
    at: usize,
) -> usize
    requires room { at + length (word.now ++ decimal queue ++ codes " " ++ text.head head
        ++ text.part (codes " mark ") mark) ≤ length to.old }
    ensures { Placed to.old to.new at (word.now ++ decimal queue ++ codes " " ++ text.head head
        ++ text.part (codes " mark ") mark) result }
{
    let at = put_number(word, queue as u64, to, at);
    let at = put_word(" ", to, at);
    let at = put_head(head, to, at);
    put_option(" mark ", mark, to, at)
}

/// The verdict and the id, of a batch the greatest; `-` where there is no verdict header.
fn put_head(head: Option<Head>, to: &mut [u8], at: usize) -> usize
    requires room { at + length (text.head head) ≤ length to.old }
    ensures { Placed to.old to.new at (text.head head) result }
{
    match head {
        Some(Head { verdict, id }) => {
            let at = put_number("", verdict as u64, to, at);
            put_number(" ", id as u64, to, at)
        }
        None => put_word("-", to, at),
    }
}

/// The priority that a request sets, where it does.
pub(crate) fn put_new_priority(
    version: Version,
    priority: Option<u32>,
    to: &mut [u8],
    at: usize,
) -> usize
    requires room { at + length (text.new_priority version priority) ≤ length to.old }
    ensures { Placed to.old to.new at (text.new_priority version priority) result }
{
    match version {
        Version::First => at,
        Version::Second => put_option(" priority ", priority, to, at),
    }
}

/// What an entry's line says of its reply.
pub(crate) fn put_reply(reply: &Reply, to: &mut [u8], at: usize) -> usize
    requires room { at + length (text.reply reply.now) ≤ length to.old }
    ensures { Placed to.old to.new at (text.reply reply.now) result }
{
    match reply {
        Reply::Arrived { outcome } => put_outcome(*outcome, to, at),
        Reply::Answer { errno, taken } => {
            let at = put_number(" = ", *errno as u64, to, at);
            put_number(" ", *taken as u64, to, at)
        }
        Reply::Flushed { taken } => put_number(" ", *taken as u64, to, at),
    }
}

fn put_outcome(outcome: Outcome, to: &mut [u8], at: usize) -> usize
    requires room { at + length (text.outcome outcome) ≤ length to.old }
    ensures { Placed to.old to.new at (text.outcome outcome) result }
{
    match outcome {
        Outcome::Taken { id } => put_number("taken:", id as u64, to, at),
        Outcome::Overflow => put_word("overflow", to, at),
        Outcome::OverflowOpen => put_word("overflow-open", to, at),
        Outcome::UserFull { id } => put_number("userfull:", id as u64, to, at),
        Outcome::UserFullOpen { id } => put_number("userfull-open:", id as u64, to, at),
        Outcome::NoQueue => put_word("noqueue", to, at),
        Outcome::Bypassed => put_word("bypassed", to, at),
        Outcome::CopyNone => put_word("copynone", to, at),
        Outcome::Loop => put_word("loop", to, at),
    }
}

/// The errno of an acknowledgement, `-` where there was none.
pub(crate) fn put_answer(answer: Option<u16>, to: &mut [u8], at: usize) -> usize
    requires room { at + length (text.answer answer) ≤ length to.old }
    ensures { Placed to.old to.new at (text.answer answer) result }
{
    match answer {
        Some(answer) => put_number(" = ", answer as u64, to, at),
        None => put_word(" = -", to, at),
    }
}
