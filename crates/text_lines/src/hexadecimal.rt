//! Bytes as words of lower-case hexadecimal.

ghost use Rattle.std.specs.Prelude.{◌≡◌, ◌≤◌, length, IfOk, IfSome, IsErr, IsTrue, option_map};
ghost use Rattle.std.specs.List.{list_all};
ghost use Rattle.text_lines.specs.Hexadecimal.{are_pairs, bytes_of, is_lower_digit};

use crate::word::is_word;
use hex::FromHexError;
use std::alloc::{AllocError, Global};

/// The word for no bytes.
const NO_BYTES: &[u8] = b"-";
/// The digits of a byte.
const BYTE_DIGITS: usize = 2;

/// The bytes that a word spells, in lower-case hexadecimal, two digits a byte; `-` spells the empty
/// list. `None` where the word has another form, or spells more than `most` bytes.
///
/// `AllocError` is out of memory, which is taken only for one byte or more.
#[tactic(auto, unfolding(crate::specs::Hexadecimal::bytes_of))]
pub fn hexadecimal_bytes(
    alloc: Global,
    word: &[u8],
    most: usize,
) -> Result<Option<Vec<u8>>, AllocError>
    ensures value { IfOk result (λ read. option_map (λ bytes. bytes.items) read
        ≡ bytes_of most word.now) }
    ensures few { IfOk result (λ read. IfSome read (λ bytes. length bytes.items ≤ most)) }
    ensures memory { IsErr result → IsTrue (are_pairs most word.now) }
{
    if is_word(word, NO_BYTES) {
        return Ok(Some(Vec::new(alloc)));
    }
    if !are_pairs(word, most) {
        return Ok(None);
    }
    match hex::decode(alloc, word) {
        Ok(bytes) => Ok(Some(bytes)),
        Err(FromHexError::OutOfMemory) => Err(AllocError),
        Err(_) => Ok(None),
    }
}

fn are_pairs(word: &[u8], most: usize) -> bool
    ensures { result ≡ are_pairs most word.now }
{
    !word.is_empty()
        && word.len() % BYTE_DIGITS == 0
        && word.len() / BYTE_DIGITS <= most
        && are_lower_digits(word)
}

fn are_lower_digits(word: &[u8]) -> bool
    ensures { result ≡ list_all is_lower_digit word.now }
{
    word.iter().all(|byte| is_lower_digit(*byte))
}

fn is_lower_digit(byte: u8) -> bool
    ensures { result ≡ is_lower_digit byte }
{
    matches!(byte, b'0'..=b'9' | b'a'..=b'f')
}
