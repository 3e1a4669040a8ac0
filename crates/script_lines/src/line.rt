//! What one line of a script says.

ghost use Rattle.std.specs.Prelude.{◌≡◌, IfOk, IfSome};
ghost use Rattle.text_lines.specs.Words.{words_of};
ghost use Rattle.script_lines.specs.Limits.{IsBlockLine, IsLine, IsWords};
ghost use Rattle.script_lines.specs.Line.{down_of, end_of, number_of, of_block, says, says_by};
ghost use Rattle.script_lines.specs.Line.{set_up, without_notice};

use crate::answering::OnLine;
use crate::ask_line::{only_word, read_ask};
use crate::on_line::read_on;
use histories::AskWords;
use packet_entry::NoMemory;
use std::alloc::Global;
use text_lines::{are_printable, decimal, first_said, is_word, next_word, rest_after};

/// The most notices that a mailbox holds, of this reader.
const MAX_MAIL: u32 = 65_536;

/// A line `down DEVICE after N`.
#[derive(Clone, Copy, Debug, PartialEq, Eq)]
pub struct Down {
    /// The device that goes down.
    pub device: u32,
    /// After which frame, counted from 1; 0 is before the first.
    pub after: u32,
}

/// What one line of a script says.
#[derive(Debug, Drop)]
pub enum Line {
    /// It is empty or a comment.
    Nothing,
    /// `mail N`: how many notices each mailbox holds.
    Mail { mail: u32 },
    /// `pace N`: after how many frames each time the mailboxes are emptied, and after the last; 0
    /// is after the last alone.
    Pace { pace: u32 },
    /// `hashkey N`: the key of the flow hash.
    Key { key: u32 },
    /// `down DEVICE after N`: a device goes down.
    Down { down: Down },
    /// `port N`: the block of this port begins.
    Port { port: u32 },
    /// A line of the block.
    Inside { line: BlockLine },
}

/// What one line inside a block says.
#[derive(Debug, Drop)]
pub enum BlockLine {
    /// `open ASK`: this is asked for when the port opens.
    Open { words: AskWords },
    /// `on ..`: this is answered to notices.
    On { on: OnLine },
    /// `end ASK`: this is asked for at the end.
    End { words: AskWords },
    /// `end close`: the port is closed at the end.
    Close,
}

/// What a line says, or `None` where no form allows it.
#[tactic(auto, unfolding(crate::specs::Line::says))]
pub fn read_line(alloc: Global, text: &[u8]) -> Result<Option<Line>, NoMemory>
    ensures value { IfOk result (λ line. line ≡ says text.now) }
    ensures fit { IfOk result (λ line. IfSome line IsLine) }
{
    if !are_printable(text) {
        return Ok(None);
    }
    match first_said(text) {
        None => Ok(Some(Line::Nothing)),
        Some((word, rest)) => by_first_word(alloc, word, rest),
    }
}

/// What a line says by its first word and what comes after it.
#[tactic(auto, unfolding(crate::specs::Line::says_by))]
fn by_first_word(alloc: Global, word: &[u8], rest: &[u8]) -> Result<Option<Line>, NoMemory>
    ensures value { IfOk result (λ line. line ≡ says_by word.now (words_of rest.now)) }
    ensures fit { IfOk result (λ line. IfSome line IsLine) }
{
    match set_up(word, rest) {
        Some(line) => Ok(Some(line)),
        None => match of_block(alloc, word, rest)? {
            Some(line) => Ok(Some(Line::Inside { line })),
            None => Ok(None),
        },
    }
}

/// A line that stands before the blocks, or the first of a block.
#[tactic(auto, unfolding(crate::specs::Line::set_up))]
fn set_up(word: &[u8], rest: &[u8]) -> Option<Line>
    ensures value { result ≡ set_up word.now (words_of rest.now) }
    ensures fit { IfSome result IsLine }
{
    if is_word(word, b"mail") {
        let mail = number(rest)?;
        if mail >= 1 && mail <= MAX_MAIL {
            Some(Line::Mail { mail })
        } else {
            None
        }
    } else if is_word(word, b"pace") {
        let pace = number(rest)?;
        Some(Line::Pace { pace })
    } else if is_word(word, b"hashkey") {
        let key = number(rest)?;
        Some(Line::Key { key })
    } else if is_word(word, b"down") {
        let down = down_after(rest)?;
        Some(Line::Down { down })
    } else if is_word(word, b"port") {
        let port = number(rest)?;
        if port >= 1 {
            Some(Line::Port { port })
        } else {
            None
        }
    } else {
        None
    }
}

/// A line inside a block.
#[tactic(auto, unfolding(crate::specs::Line::of_block))]
fn of_block(alloc: Global, word: &[u8], rest: &[u8]) -> Result<Option<BlockLine>, NoMemory>
    ensures value { IfOk result (λ line. line ≡ of_block word.now (words_of rest.now)) }
    ensures fit { IfOk result (λ line. IfSome line IsBlockLine) }
{
    if is_word(word, b"open") {
        match read_alone(alloc, rest)? {
            Some(words) => Ok(Some(BlockLine::Open { words })),
            None => Ok(None),
        }
    } else if is_word(word, b"on") {
        match read_on(alloc, rest)? {
            Some(on) => Ok(Some(BlockLine::On { on })),
            None => Ok(None),
        }
    } else if is_word(word, b"end") {
        end(alloc, rest)
    } else {
        Ok(None)
    }
}

/// `ASK` or `close`, which stands after `end`.
#[tactic(auto, unfolding(crate::specs::Line::end_of))]
fn end(alloc: Global, line: &[u8]) -> Result<Option<BlockLine>, NoMemory>
    ensures value { IfOk result (λ said. said ≡ end_of (words_of line.now)) }
    ensures fit { IfOk result (λ said. IfSome said IsBlockLine) }
{
    if let Some(word) = only_word(line) {
        if is_word(word, b"close") {
            return Ok(Some(BlockLine::Close));
        }
    }
    match read_alone(alloc, line)? {
        Some(words) => Ok(Some(BlockLine::End { words })),
        None => Ok(None),
    }
}

/// An ask that needs no notice: it doesn't say `this`.
#[tactic(auto, unfolding(crate::specs::Line::without_notice))]
fn read_alone(alloc: Global, line: &[u8]) -> Result<Option<AskWords>, NoMemory>
    ensures value { IfOk result (λ words. words ≡ without_notice (words_of line.now)) }
    ensures fit { IfOk result (λ words. IfSome words IsWords) }
{
    match read_ask(alloc, line)? {
        Some(ask) => Ok(ask.alone()),
        None => Ok(None),
    }
}

/// A number alone.
fn number(line: &[u8]) -> Option<u32>
    ensures { result ≡ number_of (words_of line.now) }
{
    decimal(only_word(line)?)
}

/// `DEVICE after N`
#[tactic(auto, unfolding(crate::specs::Line::down_of))]
fn down_after(line: &[u8]) -> Option<Down>
    ensures { result ≡ down_of (words_of line.now) }
{
    let (device, rest) = next_word(line)?;
    let device = decimal(device)?;
    let rest = rest_after(rest, b"after")?;
    let after = number(rest)?;
    Some(Down { device, after })
}
