//! The lines, words and numbers of text files.
//!
//! [`next_line`] takes line after line from a text, [`first_said`] passes over the lines that say
//! nothing, [`next_word`] and [`rest_after`] take word after word from a line, and [`decimal`] and
//! its kin read the numbers that words spell. They borrow from the text and take no memory; only
//! [`hexadecimal_bytes`] does, for the bytes that it reads.
//! [`LineFault`] says at which line a file was refused, and [`Stop`] why its reader doesn't go on.
#![tactic(auto)]

mod fault;
mod hexadecimal;
mod laws;
mod line;
mod number;
mod stop;
mod word;

pub use fault::LineFault;
pub use hexadecimal::hexadecimal_bytes;
pub use laws::{bytes_are_spelled, lines_are_passed_over, numbers_are_spelled};
pub use line::{are_printable, first_said, next_line};
pub use number::{decimal, decimal_8, decimal_16, wide};
pub use stop::Stop;
pub use word::{are_digits, cut, cut_at_word, is_end, is_word, next_word, rest_after};
