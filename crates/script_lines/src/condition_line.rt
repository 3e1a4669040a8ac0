//! Conditions by the words of their line.

ghost use Rattle.std.specs.Prelude.{◌≡◌};
ghost use Rattle.text_lines.specs.Words.{words_of};
ghost use Rattle.script_lines.specs.ConditionLine.{condition_of, every_of, mark_of, test_of};

use crate::condition::{Condition, Period};
use text_lines::{cut, decimal, decimal_8, decimal_16, is_end, is_word, next_word};

/// The condition that a line is, or `None` where no form allows it.
#[tactic(auto, unfolding(crate::specs::ConditionLine::condition_of))]
pub(crate) fn read_condition(line: &[u8]) -> Option<Condition>
    ensures { result ≡ condition_of (words_of line.now) }
{
    let (word, rest) = next_word(line)?;
    if is_word(word, b"any") {
        return if is_end(rest) {
            Some(Condition::Any)
        } else {
            None
        };
    }
    let (value, rest) = next_word(rest)?;
    if is_end(rest) {
        test(word, value)
    } else {
        None
    }
}

/// The condition of this name and value.
#[tactic(auto, unfolding(crate::specs::ConditionLine::test_of))]
fn test(name: &[u8], value: &[u8]) -> Option<Condition>
    ensures { result ≡ test_of name.now value.now }
{
    if is_word(name, b"id") {
        let id = decimal(value)?;
        Some(Condition::Id { id })
    } else if is_word(name, b"queue") {
        let queue = decimal_16(value)?;
        Some(Condition::Queue { queue })
    } else if is_word(name, b"mark") {
        mark(value)
    } else if is_word(name, b"proto") {
        let protocol = decimal_8(value)?;
        Some(Condition::Protocol { protocol })
    } else if is_word(name, b"every") {
        every(value)
    } else if is_word(name, b"longer") {
        let than = decimal(value)?;
        Some(Condition::Longer { than })
    } else if is_word(name, b"priority") {
        Some(Condition::Priority {
            priority: decimal(value)?,
        })
    } else {
        None
    }
}

/// `VALUE/MASK`
#[tactic(auto, unfolding(crate::specs::ConditionLine::mark_of))]
fn mark(word: &[u8]) -> Option<Condition>
    ensures { result ≡ mark_of word.now }
{
    let (value, mask) = cut(word, b'/')?;
    let value = decimal(value)?;
    let mask = decimal(mask)?;
    Some(Condition::Mark { value, mask })
}

/// `N`, at least 1.
#[tactic(auto, unfolding(crate::specs::ConditionLine::every_of))]
fn every(word: &[u8]) -> Option<Condition>
    ensures { result ≡ every_of word.now }
{
    let number = decimal(word)?;
    if number == 0 {
        return None;
    }
    Some(Condition::Every {
        period: Period::new(number),
    })
}
