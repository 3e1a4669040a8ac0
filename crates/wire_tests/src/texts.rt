//! `text_lines`: lines, words, numbers and bytes of text files.

use std::alloc::{AllocError, Global};
use std::test::Fail;
use test_inputs::{Row, debug, hex};
use text_lines::*;

/// What calls of this crate answer, printed.
pub fn answer(alloc: Global, row: &Row<'_>) -> Result<Option<String>, Fail> {
    let (given, other) = (row.bytes(alloc, 0)?, row.bytes(alloc, 1)?);
    let (bytes, word) = (given.as_slice(), other.as_slice());
    let shown = match row.call {
        "next_line" => debug(alloc, pair(next_line(bytes)))?,
        "words" => words(alloc, bytes)?,
        "rest_after" => debug(alloc, rest_after(bytes, word).map(text))?,
        "cut_at_word" => debug(alloc, pair(cut_at_word(bytes, word)))?,
        "cut" => debug(alloc, pair(cut(bytes, b':')))?,
        "kinds" => kinds(alloc, bytes)?,
        "decimals" => decimals(alloc, bytes)?,
        "wide" => debug(alloc, wide(bytes))?,
        "hexadecimal_bytes" => match hexadecimal_bytes(alloc, bytes, row.number(1) as usize)? {
            Some(read) => hex(alloc, &read)?,
            None => debug(alloc, None::<u8>)?,
        },
        _ => return Ok(None),
    };
    Ok(Some(shown))
}

fn words(alloc: Global, line: &[u8]) -> Result<String, AllocError> {
    let (word, said) = (pair(next_word(line)), pair(first_said(line)));
    format!(in alloc; "{word:?} {said:?} {}", is_end(line))
}

fn kinds(alloc: Global, bytes: &[u8]) -> Result<String, AllocError> {
    let (printable, digits) = (are_printable(bytes), are_digits(bytes));
    format!(in alloc; "{printable} {digits} {}", is_word(bytes, b"and"))
}

fn decimals(alloc: Global, word: &[u8]) -> Result<String, AllocError> {
    let (half, small) = (decimal_16(word), decimal_8(word));
    format!(in alloc; "{:?} {half:?} {small:?}", decimal(word))
}

fn text(bytes: &[u8]) -> &str {
    str::from_utf8(bytes).unwrap_or("no text")
}

fn pair<'a>(parts: Option<(&'a [u8], &'a [u8])>) -> Option<(&'a str, &'a str)> {
    let (first, rest) = parts?;
    Some((text(first), text(rest)))
}
