//! An `on` line by its words: `CONDITION [and CONDITION].. do ASK [; ASK]..`.

ghost use Rattle.std.specs.Prelude.{◌≡◌, ◌≤◌, IfOk, IfSome, All, length, option_map};
ghost use Rattle.text_lines.specs.Words.{words_of};
ghost use Rattle.script_lines.specs.Limits.{IsOnLine, IsTemplate};
ghost use Rattle.script_lines.specs.Line.{asks_in, conditions_of, on_of};

use crate::answering::OnLine;
use crate::ask_line::read_ask;
use crate::condition::Condition;
use crate::condition_line::read_condition;
use crate::template::Template;
use packet_entry::{NoMemory, Sequence};
use std::alloc::Global;
use text_lines::cut_at_word;

/// The most asks of a line, of this reader.
const MAX_ASKS: usize = 8;

/// What comes after `on`, or `None` where no form allows it.
#[tactic(auto, unfolding(crate::specs::Line::on_of))]
pub(crate) fn read_on(alloc: Global, line: &[u8]) -> Result<Option<OnLine>, NoMemory>
    ensures value { IfOk result (λ on. on ≡ on_of (words_of line.now)) }
    ensures fit { IfOk result (λ on. IfSome on IsOnLine) }
{
    let Some((conditions, asks)) = cut_at_word(line, b"do") else {
        return Ok(None);
    };
    let Some(conditions) = read_conditions(alloc, conditions)? else {
        return Ok(None);
    };
    let Some(asks) = read_asks(alloc, asks)? else {
        return Ok(None);
    };
    if asks.len() > MAX_ASKS {
        return Ok(None);
    }
    Ok(Some(OnLine {
        conditions: Sequence::from_vec(conditions),
        asks: Sequence::from_vec(asks),
    }))
}

/// The conditions that stand with `and` between them.
#[tactic(auto, using(crate::proofs::LineParts::begins))]
fn read_conditions(alloc: Global, line: &[u8]) -> Result<Option<Vec<Condition>>, NoMemory>
    ensures value { IfOk result (λ read.
        option_map (λ conditions. conditions.items) read ≡ conditions_of (words_of line.now)) }
    ensures some { IfOk result (λ read. IfSome read (λ conditions. 1 ≤ length conditions.items)) }
{
    let mut conditions = Vec::new(alloc);
    let mut rest = line;
    while let Some((part, later)) = cut_at_word(rest, b"and") {
        let Some(condition) = read_condition(part) else {
            return Ok(None);
        };
        conditions.push(condition)?;
        rest = later;
    }
    let Some(condition) = read_condition(rest) else {
        return Ok(None);
    };
    conditions.push(condition)?;
    Ok(Some(conditions))
}

/// The asks that stand with `;` between them.
#[tactic(auto, using(crate::proofs::LineParts::begins))]
fn read_asks(alloc: Global, line: &[u8]) -> Result<Option<Vec<Template>>, NoMemory>
    ensures value { IfOk result (λ read.
        option_map (λ asks. asks.items) read ≡ asks_in (words_of line.now)) }
    ensures some { IfOk result (λ read. IfSome read (λ asks. 1 ≤ length asks.items)) }
    ensures fit { IfOk result (λ read. IfSome read (λ asks. All IsTemplate asks.items)) }
{
    let mut asks = Vec::new(alloc);
    let mut rest = line;
    while let Some((part, later)) = cut_at_word(rest, b";") {
        let Some(ask) = read_ask(alloc, part)? else {
            return Ok(None);
        };
        asks.push(ask)?;
        rest = later;
    }
    let Some(ask) = read_ask(alloc, rest)? else {
        return Ok(None);
    };
    asks.push(ask)?;
    Ok(Some(asks))
}
