//! The lines of a text, and which of them say something.

ghost use Rattle.std.specs.Prelude.{◌≡◌, ℕ, ◌<◌, ◌≤◌, false, length, slice_index, IfSome, ◌==◌};
ghost use Rattle.std.specs.Prelude.{option_map, MatchOption, ◌∷◌, []};
ghost use Rattle.std.specs.List.{list_all};
ghost use Rattle.std.specs.Str.Lines.{lines, strip_carriage_return};
ghost use Rattle.text_lines.specs.Numbers.{line_feed};
ghost use Rattle.text_lines.specs.Words.{first_said, is_printable, words_of};

use crate::word::next_word;

/// The byte that ends a line.
const LINE_FEED: u8 = b'\n';
/// The byte that may come before a line's end.
const CARRIAGE_RETURN: u8 = b'\r';
/// The byte that a comment begins with.
const COMMENT: u8 = b'#';

/// The first line of a text and the text after it, or `None` where there is no line.
///
/// A line is ended by LF. One CR before it is dropped. A last piece without LF is a line as it
/// stands, unless it is empty.
pub fn next_line(text: &[u8]) -> Option<(&[u8], &[u8])>
    ensures line { MatchOption result (lines text.now ≡ [])
        (λ x. lines text.now ≡ x.0.now ∷ lines x.1.now) }
    ensures shorter { IfSome result (λ x. length x.1.now < length text.now) }
{
    if text.is_empty() {
        return None;
    }
    let (line, rest) = text.split_at(line_length(text));
    match rest {
        [] => Some((line, rest)),
        [_, rest @ ..] => Some((without_carriage_return(line), rest)),
    }
}

/// The bytes before the first LF, or all.
fn line_length(text: &[u8]) -> usize
    ensures within { result ≤ length text.now }
    ensures before { (k : ℕ) → k < result → (slice_index text.now k == line_feed) ≡ false }
    ensures at { result < length text.now → slice_index text.now result ≡ line_feed }
{
    for (at, byte) in text.iter().enumerate() {
        if *byte == LINE_FEED {
            return at;
        }
    }
    text.len()
}

fn without_carriage_return(line: &[u8]) -> &[u8]
    ensures { result.now ≡ strip_carriage_return line.now }
{
    match line {
        [front @ .., CARRIAGE_RETURN] => front,
        _ => line,
    }
}

/// The first word of a line and what comes after it, or `None` where the line says nothing: it is
/// empty, has only blanks, or begins with `#`, behind blanks too.
pub fn first_said(line: &[u8]) -> Option<(&[u8], &[u8])>
    ensures word { option_map (λ x. (x.0.now, words_of x.1.now)) result
        ≡ first_said (words_of line.now) }
    ensures shorter { IfSome result (λ x. length x.1.now < length line.now) }
{
    let (word, rest) = next_word(line)?;
    match word {
        [COMMENT, ..] => None,
        _ => Some((word, rest)),
    }
}

/// Whether a line has only bytes of printable ASCII and tabs.
pub fn are_printable(line: &[u8]) -> bool
    ensures { result ≡ list_all is_printable line.now }
{
    line.iter().all(|byte| is_printable(*byte))
}

/// Printable ASCII, or a tab.
fn is_printable(byte: u8) -> bool
    ensures { result ≡ is_printable byte }
{
    byte == b'\t' || (byte >= b' ' && byte <= b'~')
}
