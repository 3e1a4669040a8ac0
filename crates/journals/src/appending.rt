//! What the texts of journals and ledgers are appended by.

ghost use Rattle.std.specs.Prelude.{◌≡◌, ◌++◌, OnOk, OnErr, decimal};
ghost use Rattle.journals.specs.Appending.{Appends};

use crate::line_room::number_is_short;
use itoa::write_digits;
use packet_entry::NoMemory;
use std::alloc::AllocError;

/// A number of 64 bits has at most so many digits.
const MAX_DIGITS: usize = 20;

/// Appends a text to bytes. Where there are none yet, its memory is taken over as it is. Out of
/// memory the bytes are as they were.
pub fn append_text(mut text: Vec<u8>, out: &mut Vec<u8>) -> Result<(), NoMemory>
    ensures ok { OnOk result (out.new.items ≡ out.old.items ++ text.items) }
    ensures err { OnErr result (out.new.items ≡ out.old.items) }
{
    if out.is_empty() {
        *out = text;
        return Ok(());
    }
    out.append(&mut text)?;
    Ok(())
}

/// Appends a word. Out of memory the text is as it was.
#[inline(always)]
pub fn append_word(word: &str, out: &mut Vec<u8>) -> Result<(), AllocError>
    ensures { Appends result out.old out.new word.now }
{
    out.extend_from_slice(word.as_bytes())
}

/// Appends a word and a number behind it, in decimal. Out of memory the word may stand there alone.
#[inline(always)]
pub fn append_number(word: &str, number: u64, out: &mut Vec<u8>) -> Result<(), AllocError>
    ensures { Appends result out.old out.new (word.now ++ decimal number) }
{
    append_word(word, out)?;
    number_is_short(number);
    let mut digits = [0; MAX_DIGITS];
    let start = write_digits(number, &mut digits, MAX_DIGITS);
    out.extend_from_slice(&digits[start..])
}
