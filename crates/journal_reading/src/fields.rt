//! The fields of a journal's line. Each is read from a text's front, up to the next blank, and
//! answered with the text behind that blank; `None` where no such field stands there.

ghost use Rattle.std.specs.Prelude.{◌≡◌, IfOk, option_map};
ghost use Rattle.text_lines.specs.Digits.{decimal};
ghost use Rattle.text_lines.specs.Words.{byte, cut_at};
ghost use Rattle.journal_reading.specs.Reading.{behind, bytes_in, field, half, priority_in, small};
ghost use Rattle.journal_reading.specs.Reading.{Reads, yes_no_in};

use journals::Version;
use packet_entry::{Bytes, NoMemory};
use std::alloc::Global;
use text_lines::{cut, decimal, decimal_8, decimal_16, hexadecimal_bytes, is_word};

/// The byte between words.
const BLANK: u8 = b' ';

/// A word and the text behind the blank that ends it.
pub(crate) fn word(text: &[u8]) -> Option<(&[u8], &[u8])>
    ensures { option_map (λ x. (x.0.now, x.1.now)) result ≡ cut_at (byte " ") text.now }
{
    cut(text, BLANK)
}

/// The text behind this word and its blank.
pub(crate) fn behind<'a>(text: &'a [u8], wanted: &[u8]) -> Option<&'a [u8]>
    ensures { option_map (λ rest. rest.now) result ≡ behind wanted.now text.now }
{
    let (word, rest) = word(text)?;
    if is_word(word, wanted) {
        Some(rest)
    } else {
        None
    }
}

/// A number of 32 bits.
pub(crate) fn wide(text: &[u8]) -> Option<(u32, &[u8])>
    ensures { option_map (λ x. (x.0, x.1.now)) result ≡ field decimal text.now }
{
    let (word, rest) = word(text)?;
    Some((decimal(word)?, rest))
}

/// A number of 16 bits.
pub(crate) fn half(text: &[u8]) -> Option<(u16, &[u8])>
    ensures { option_map (λ x. (x.0, x.1.now)) result ≡ field half text.now }
{
    let (word, rest) = word(text)?;
    Some((decimal_16(word)?, rest))
}

/// A number of 8 bits.
pub(crate) fn small(text: &[u8]) -> Option<(u8, &[u8])>
    ensures { option_map (λ x. (x.0, x.1.now)) result ≡ field small text.now }
{
    let (word, rest) = word(text)?;
    Some((decimal_8(word)?, rest))
}

/// A packet's priority. Version 1 has none: there it is 0.
pub(crate) fn priority(version: Version, text: &[u8]) -> Option<(u32, &[u8])>
    ensures { option_map (λ x. (x.0, x.1.now)) result ≡ priority_in version text.now }
{
    match version {
        Version::First => Some((0, text)),
        Version::Second => wide(text),
    }
}

/// `y` or `n`.
pub(crate) fn yes_no(text: &[u8]) -> Option<(bool, &[u8])>
    ensures { option_map (λ x. (x.0, x.1.now)) result ≡ field yes_no_in text.now }
{
    let (word, rest) = word(text)?;
    Some((yes_no_word(word)?, rest))
}

fn yes_no_word(word: &[u8]) -> Option<bool>
    ensures { result ≡ yes_no_in word.now }
{
    if is_word(word, b"y") {
        Some(true)
    } else if is_word(word, b"n") {
        Some(false)
    } else {
        None
    }
}

/// Bytes in lower-case hexadecimal, or `-` for none.
pub(crate) fn bytes(alloc: Global, text: &[u8]) -> Result<Option<(Bytes, &[u8])>, NoMemory>
    ensures { Reads result (field bytes_in text.now) }
{
    let Some((word, rest)) = word(text) else {
        return Ok(None);
    };
    match bytes_word(alloc, word)? {
        Some(bytes) => Ok(Some((bytes, rest))),
        None => Ok(None),
    }
}

/// The bytes that a word spells. For none no memory is taken.
fn bytes_word(alloc: Global, word: &[u8]) -> Result<Option<Bytes>, NoMemory>
    ensures { IfOk result (λ read. read ≡ bytes_in word.now) }
{
    let Some(bytes) = hexadecimal_bytes(alloc, word, word.len())? else {
        return Ok(None);
    };
    Ok(Some(shared(alloc, bytes)?))
}

/// The bytes of a vector, which isn't copied.
fn shared(alloc: Global, bytes: Vec<u8>) -> Result<Bytes, NoMemory>
    ensures { IfOk result (λ shared. shared ≡ bytes.items) }
{
    if bytes.is_empty() {
        return Ok(Bytes::new(alloc));
    }
    Ok(Bytes::from_vec(bytes)?)
}
