//! What one line of a rules file says.

ghost use Rattle.std.specs.Prelude.{◌≡◌, option_map};
ghost use Rattle.std.specs.List.{list_all};
ghost use Rattle.text_lines.specs.Words.{words_of};
ghost use Rattle.hook_chain.specs.Line.{has_name_length, is_chain_name, is_counters};
ghost use Rattle.hook_chain.specs.Line.{is_letter, is_table_byte, is_table_name, opening, policy};
ghost use Rattle.hook_chain.specs.Line.{said, says, says_by};

use crate::rule::Rule;
use crate::rule_line::rule;
use text_lines::{
    are_digits, are_printable, cut, first_said, is_end, is_word, next_word, rest_after,
};

/// The most bytes of a name. For a table's it is `XT_TABLE_MAXNAMELEN` of the kernel's x_tables.h,
/// less the zero byte at the end; for a chain's it is this project's own limit.
const MAX_NAME: usize = 31;

/// What one line of a rules file says.
#[derive(Clone, Copy)]
pub(crate) enum Line<'a> {
    /// It is empty or a comment.
    Nothing,
    /// `*NAME`: a table of this name begins.
    Opens { name: &'a [u8] },
    /// `:NAME ACCEPT [N:N]`: a chain's policy. ACCEPT is the only one that is read.
    Policy,
    /// `-A FORWARD ..`: one more rule.
    Adds { rule: Rule },
    /// `COMMIT`: the table ends.
    Closes,
}

/// What a line says, or `None` where no form allows it.
#[tactic(auto, unfolding(crate::specs::Line::says))]
pub(crate) fn read_line(text: &[u8]) -> Option<Line<'_>>
    ensures { option_map said result ≡ says text.now }
{
    if !are_printable(text) {
        return None;
    }
    match first_said(text) {
        None => Some(Line::Nothing),
        Some((word, rest)) => by_first_word(word, rest),
    }
}

/// What a line says by its first word and what comes after it.
#[tactic(auto, unfolding(crate::specs::Line::says_by))]
fn by_first_word<'a>(word: &'a [u8], rest: &[u8]) -> Option<Line<'a>>
    ensures { option_map said result ≡ says_by word.now (words_of rest.now) }
{
    match word {
        [b'*', name @ ..] => opening(name, rest),
        [b':', name @ ..] => policy(name, rest),
        _ if is_word(word, b"-A") => Some(Line::Adds { rule: rule(rest)? }),
        _ if is_word(word, b"COMMIT") && is_end(rest) => Some(Line::Closes),
        _ => None,
    }
}

/// `*NAME` alone.
#[tactic(auto, unfolding(crate::specs::Line::opening))]
fn opening<'a>(name: &'a [u8], rest: &[u8]) -> Option<Line<'a>>
    ensures { option_map said result ≡ opening name.now (words_of rest.now) }
{
    if is_table_name(name) && is_end(rest) {
        Some(Line::Opens { name })
    } else {
        None
    }
}

/// `:NAME ACCEPT [N:N]`.
#[tactic(auto, unfolding(crate::specs::Line::policy))]
fn policy<'a>(name: &'a [u8], rest: &[u8]) -> Option<Line<'a>>
    ensures { option_map said result ≡ policy name.now (words_of rest.now) }
{
    let rest = rest_after(rest, b"ACCEPT")?;
    let (counters, rest) = next_word(rest)?;
    if is_chain_name(name) && is_counters(counters) && is_end(rest) {
        Some(Line::Policy)
    } else {
        None
    }
}

fn is_table_name(name: &[u8]) -> bool
    ensures { result ≡ is_table_name name.now }
{
    has_name_length(name) && are_table_bytes(name)
}

fn are_table_bytes(name: &[u8]) -> bool
    ensures { result ≡ list_all is_table_byte name.now }
{
    name.iter().all(|byte| is_table_byte(*byte))
}

fn is_table_byte(byte: u8) -> bool
    ensures { result ≡ is_table_byte byte }
{
    matches!(byte, b'a'..=b'z' | b'0'..=b'9' | b'-' | b'_')
}

fn is_chain_name(name: &[u8]) -> bool
    ensures { result ≡ is_chain_name name.now }
{
    has_name_length(name) && are_letters(name)
}

fn are_letters(name: &[u8]) -> bool
    ensures { result ≡ list_all is_letter name.now }
{
    name.iter().all(|byte| is_letter(*byte))
}

fn is_letter(byte: u8) -> bool
    ensures { result ≡ is_letter byte }
{
    matches!(byte, b'a'..=b'z' | b'A'..=b'Z')
}

fn has_name_length(name: &[u8]) -> bool
    ensures { result ≡ has_name_length name.now }
{
    !name.is_empty() && name.len() <= MAX_NAME
}

/// `[N:N]`, the packets and bytes that a chain's policy has met.
#[tactic(auto, unfolding(crate::specs::Line::is_counters))]
fn is_counters(word: &[u8]) -> bool
    ensures { result ≡ is_counters word.now }
{
    match word {
        [b'[', inside @ .., b']'] => match cut(inside, b':') {
            Some((packets, bytes)) => are_digits(packets) && are_digits(bytes),
            None => false,
        },
        _ => false,
    }
}
