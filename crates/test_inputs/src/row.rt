//! A row of the table, and the bytes and numbers in it.

use std::alloc::{AllocError, Global};

/// `CALL ARGUMENT, ARGUMENT, .. = ANSWER`.
#[derive(Clone, Copy)]
pub struct Row<'a> {
    pub call: &'a str,
    pub arguments: &'a str,
    pub answer: &'a str,
}

impl<'a> Row<'a> {
    /// The row of a line; `None` where it is empty, or begins with `#`.
    pub fn of(line: &'a str) -> Option<Row<'a>> {
        if line.is_empty() || line.starts_with('#') {
            return None;
        }
        let (left, answer) = line.split_once(" = ").unwrap_or((line, ""));
        let (call, arguments) = left.split_once(' ').unwrap_or((left, ""));
        Some(Row {
            call,
            arguments,
            answer,
        })
    }

    /// The argument at this place, counted from 0; an empty text where there is none.
    pub fn argument(&self, place: usize) -> &'a str {
        self.arguments.split(',').nth(place).unwrap_or("").trim()
    }

    /// The number at this place.
    pub fn number(&self, place: usize) -> u32 {
        number(self.argument(place))
    }

    /// The word after this one among the arguments.
    pub fn named(&self, name: &str) -> Option<&'a str> {
        let mut words = self.arguments.split(' ');
        words.find(|word| *word == name)?;
        words.next()
    }

    /// The number after this word.
    pub fn named_number(&self, name: &str) -> Option<u32> {
        self.named(name).map(number)
    }

    /// Whether this word is among the arguments.
    pub fn has(&self, name: &str) -> bool {
        self.arguments.split(' ').any(|word| word == name)
    }

    /// The bytes that the argument at this place spells.
    pub fn bytes(&self, alloc: Global, place: usize) -> Result<Vec<u8>, AllocError> {
        bytes(alloc, self.argument(place))
    }
}

/// A decimal number, or 0.
pub fn number(word: &str) -> u32 {
    word.parse().unwrap_or(0)
}

/// The bytes that a text spells. In quotes it is the bytes themselves, in which `\n`, `\r`, `\t`
/// and `\xHH` are escapes. Otherwise it is hexadecimal digits, in which blanks are passed over, and
/// `HH*N` is N times a byte.
pub fn bytes(alloc: Global, text: &str) -> Result<Vec<u8>, AllocError> {
    let mut bytes = Vec::new(alloc);
    match text.strip_prefix('"') {
        Some(quoted) => put_quoted(&mut bytes, quoted.strip_suffix('"').unwrap_or(quoted))?,
        None => {
            for word in text.split(' ') {
                match word.split_once('*') {
                    Some((byte, times)) => {
                        let new = bytes.len().saturating_add(number(times) as usize);
                        bytes.resize(new, pair(byte))?;
                    }
                    None => put_pairs(&mut bytes, word)?,
                }
            }
        }
    }
    Ok(bytes)
}

/// Appends the bytes that pairs of hexadecimal digits spell.
fn put_pairs(bytes: &mut Vec<u8>, word: &str) -> Result<(), AllocError> {
    let mut high = None;
    for digit in word.bytes() {
        high = match high {
            None => Some(value(digit)),
            Some(first) => {
                bytes.push(first << 4 | value(digit))?;
                None
            }
        };
    }
    Ok(())
}

/// The byte that two hexadecimal digits spell.
fn pair(word: &str) -> u8 {
    u8::from_str_radix(word, 16).unwrap_or(0)
}

fn value(digit: u8) -> u8 {
    (digit as char).to_digit(16).unwrap_or(0) as u8
}

/// Appends the bytes of a quoted text.
fn put_quoted(bytes: &mut Vec<u8>, text: &str) -> Result<(), AllocError> {
    let mut pieces = text.split('\\');
    if let Some(first) = pieces.next() {
        bytes.extend_from_slice(first.as_bytes())?;
    }
    for piece in pieces {
        put_escaped(bytes, piece.as_bytes())?;
    }
    Ok(())
}

/// Appends what comes after a `\`: the byte that the escape stands for, and the rest.
fn put_escaped(bytes: &mut Vec<u8>, piece: &[u8]) -> Result<(), AllocError> {
    let rest = match piece {
        [b'x', high, low, rest @ ..] => {
            bytes.push(value(*high) << 4 | value(*low))?;
            rest
        }
        [b'n', rest @ ..] => {
            bytes.push(b'\n')?;
            rest
        }
        [b'r', rest @ ..] => {
            bytes.push(b'\r')?;
            rest
        }
        [b't', rest @ ..] => {
            bytes.push(b'\t')?;
            rest
        }
        rest => rest,
    };
    bytes.extend_from_slice(rest)
}
