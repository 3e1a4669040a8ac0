//! Why no histories were read from a text.

ghost use Rattle.std.specs.Prelude.{◌≡◌};
ghost use Rattle.journal_reading.specs.JournalFile.{fault_of};

use text_lines::Stop;
use thiserror::Error;

/// Why no histories were read from a text.
#[derive(Clone, Copy, Debug, PartialEq, Eq, Error)]
pub enum JournalFault {
    /// The first line, counted from 1, at whose end the text no longer begins a journal; the
    /// number of line ends plus 1 where the text ends too early.
    #[error("line {line} is refused")]
    Bad { line: u32 },
    /// Out of memory.
    #[error("out of memory")]
    NoMemory,
}

impl JournalFault {
    /// The fault of the journal whose line `line_number` stopped the reader.
    pub(crate) fn at(stop: Stop, line_number: u32) -> JournalFault
        ensures { result ≡ fault_of stop line_number }
    {
        match stop {
            Stop::Refused => JournalFault::Bad { line: line_number },
            Stop::NoMemory => JournalFault::NoMemory,
        }
    }
}
