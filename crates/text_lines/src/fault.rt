//! Why a file of lines was refused.

use thiserror::Error;

/// Why a file of lines was refused.
#[derive(Clone, Copy, Debug, PartialEq, Eq, Error)]
pub enum LineFault {
    /// The first line, counted from 1, that no form allows in its place; the number of lines plus 1
    /// where the file ends too early.
    #[error("line {line} is refused")]
    Bad { line: u32 },
    /// Out of memory.
    #[error("out of memory")]
    NoMemory,
}
