//! Answers, printed.

use std::alloc::{AllocError, Global};
use std::fmt::{Debug, Write};

/// A run of at least so many equal bytes is printed as `HH*N`, and longer bytes aren't printed as
/// text.
const LONG: usize = 64;

/// How many bytes are printed as one group.
const GROUP: usize = 4;

/// A value, as Rust prints it.
pub fn debug<T: Debug + Drop>(alloc: Global, value: T) -> Result<String, AllocError> {
    format!(in alloc; "{value:?}")
}

/// Appends one of several answers.
pub fn add(text: &mut String, answer: &str) -> Result<(), AllocError> {
    if !text.is_empty() {
        text.push_str("; ")?;
    }
    text.push_str(answer)
}

/// Bytes in hexadecimal, in groups of four.
pub fn hex(alloc: Global, bytes: &[u8]) -> Result<String, AllocError> {
    let mut text = String::new(alloc);
    text.push('[')?;
    let (mut told, mut grouped) = (0usize, 0usize);
    for (place, byte) in bytes.iter().enumerate() {
        if place < told {
            continue;
        }
        let rest = bytes.get(place..).unwrap_or(&[]);
        let run = rest.iter().take_while(|other| *other == byte).count();
        if grouped == GROUP || run >= LONG && grouped > 0 {
            text.push(' ')?;
            grouped = 0;
        }
        if run >= LONG {
            write!(text, "{byte:02x}*{run}")?;
            told = place.saturating_add(run);
            grouped = GROUP;
        } else {
            write!(text, "{byte:02x}")?;
            grouped = grouped.saturating_add(1);
        }
    }
    text.push(']')?;
    Ok(text)
}

/// Bytes as a text where they are a short one, and else in hexadecimal.
pub fn content(alloc: Global, bytes: &[u8]) -> Result<String, AllocError> {
    match str::from_utf8(bytes) {
        Ok(text) if bytes.len() < LONG => debug(alloc, text),
        _ => hex(alloc, bytes),
    }
}
