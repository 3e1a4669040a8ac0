//! The words of a line.

ghost use Rattle.std.specs.Prelude.{◌≡◌, bytes_eq, ℕ, ◌<◌, ◌≤◌, ◌==◌, true, false, length};
ghost use Rattle.std.specs.Prelude.{slice_index, IfSome, option_map, ◌-◌, drop};
ghost use Rattle.std.specs.List.{list_all};
ghost use Rattle.text_lines.specs.Words.{IsAtWordEnd, are_digits, cut_at, cut_at_word, first_word};
ghost use Rattle.text_lines.specs.Words.{is_blank, is_digit, words_after, words_of};

/// A space or a tab.
fn is_blank(byte: u8) -> bool
    ensures { result ≡ is_blank byte }
{
    byte == b' ' || byte == b'\t'
}

/// The first word of a line and what comes after it, or `None` where only blanks are left.
pub fn next_word(line: &[u8]) -> Option<(&[u8], &[u8])>
    ensures word { option_map (λ x. (x.0.now, words_of x.1.now)) result
        ≡ first_word (words_of line.now) }
    ensures shorter { IfSome result (λ x. length x.1.now < length line.now) }
    ensures rest { IfSome result (λ x. IsAtWordEnd line.now x.1.now) }
{
    let line = after_blanks(line);
    if line.is_empty() {
        return None;
    }
    Some(line.split_at(word_length(line)))
}

fn after_blanks(line: &[u8]) -> &[u8]
    ensures words { words_of result.now ≡ words_of line.now }
    ensures no_blank { 0 < length result.now → is_blank (slice_index result.now 0) ≡ false }
    ensures no_longer { length result.now ≤ length line.now }
    ensures end { result.now ≡ drop (length line.now - length result.now) line.now }
{
    &line[blanks(line)..]
}

/// How many blanks a line begins with.
fn blanks(line: &[u8]) -> usize
    ensures within { result ≤ length line.now }
    ensures before { (k : ℕ) → k < result → is_blank (slice_index line.now k) ≡ true }
    ensures at { result < length line.now → is_blank (slice_index line.now result) ≡ false }
{
    for (at, byte) in line.iter().enumerate() {
        if !is_blank(*byte) {
            return at;
        }
    }
    line.len()
}

/// How many bytes stand before the first blank, or all.
fn word_length(line: &[u8]) -> usize
    ensures within { result ≤ length line.now }
    ensures before { (k : ℕ) → k < result → is_blank (slice_index line.now k) ≡ false }
    ensures at { result < length line.now → is_blank (slice_index line.now result) ≡ true }
{
    for (at, byte) in line.iter().enumerate() {
        if is_blank(*byte) {
            return at;
        }
    }
    line.len()
}

/// What comes after this word, where it is the line's first.
pub fn rest_after<'a>(line: &'a [u8], word: &[u8]) -> Option<&'a [u8]>
    ensures { option_map (λ rest. words_of rest.now) result
        ≡ words_after word.now (words_of line.now) }
{
    let (first, rest) = next_word(line)?;
    if is_word(first, word) {
        Some(rest)
    } else {
        None
    }
}

/// Whether a word is this one.
pub fn is_word(word: &[u8], wanted: &[u8]) -> bool
    ensures { result ≡ bytes_eq word.now wanted.now }
{
    word == wanted
}

/// Whether only blanks are left.
pub fn is_end(line: &[u8]) -> bool
    ensures { result ≡ (length (words_of line.now) == 0) }
{
    next_word(line).is_none()
}

/// The parts of a word round the first byte `mark` in it, or `None` where there is none.
pub fn cut(word: &[u8], mark: u8) -> Option<(&[u8], &[u8])>
    ensures { option_map (λ x. (x.0.now, x.1.now)) result ≡ cut_at mark word.now }
{
    for (at, byte) in word.iter().enumerate() {
        if *byte == mark {
            return Some((&word[..at], &word[at + 1..]));
        }
    }
    None
}

/// The parts of a line round the first word that is this one, or `None` where there is none.
pub fn cut_at_word<'a>(line: &'a [u8], word: &[u8]) -> Option<(&'a [u8], &'a [u8])>
    ensures words { option_map (λ x. (words_of x.0.now, words_of x.1.now)) result
        ≡ cut_at_word word.now (words_of line.now) }
    ensures shorter { IfSome result (λ x. length x.1.now < length line.now) }
{
    let mut rest = line;
    while let Some((first, later)) = next_word(rest) {
        if is_word(first, word) {
            return Some((&line[..line.len() - rest.len()], later));
        }
        rest = later;
    }
    None
}

/// Whether a word is digits, one or more.
pub fn are_digits(word: &[u8]) -> bool
    ensures { result ≡ are_digits word.now }
{
    !word.is_empty() && all_digits(word)
}

fn all_digits(word: &[u8]) -> bool
    ensures { result ≡ list_all is_digit word.now }
{
    word.iter().all(|byte| is_digit(*byte))
}

fn is_digit(byte: u8) -> bool
    ensures { result ≡ is_digit byte }
{
    matches!(byte, b'0'..=b'9')
}
