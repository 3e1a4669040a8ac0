//! Why the reading of a file of lines doesn't go on.

ghost use Rattle.std.specs.Prelude.{◌≡◌};
ghost use Rattle.text_lines.specs.Refusals.{fault_of};
ghost use Rattle.text_lines.specs.declared.stop.Stop.TheVariants as stop;

use crate::LineFault;
use packet_entry::NoMemory;
use std::alloc::{AllocError, AllocFailed};

/// Why the reading of a file of lines doesn't go on.
#[derive(Clone, Copy, Debug, PartialEq, Eq)]
pub enum Stop {
    /// The line may not stand here.
    Refused,
    /// Out of memory.
    NoMemory,
}

impl From<AllocError> for Stop {
    ghost from_gives = { λ _ e. e ≡ stop.NoMemory };

    fn from(_error: AllocError) -> Stop {
        Stop::NoMemory
    }
}

impl<T: Drop> From<AllocFailed<T>> for Stop {
    ghost from_gives = { λ _ e. e ≡ stop.NoMemory };

    fn from(_error: AllocFailed<T>) -> Stop {
        Stop::NoMemory
    }
}

impl From<NoMemory> for Stop {
    ghost from_gives = { λ _ e. e ≡ stop.NoMemory };

    fn from(_error: NoMemory) -> Stop {
        Stop::NoMemory
    }
}

impl Stop {
    /// The fault of the file whose line `line_number`, counted from 1, stopped the reader.
    pub fn at(self, line_number: u32) -> LineFault
        ensures { result ≡ fault_of self line_number }
    {
        match self {
            Stop::Refused => LineFault::Bad { line: line_number },
            Stop::NoMemory => LineFault::NoMemory,
        }
    }
}
