//! Lines of the texts that are written part by part, whatever they tell.

ghost use Rattle.std.specs.Prelude.{ℕ, List, ◌≤◌, length, IfSome};
ghost use Rattle.journals.specs.Appending.{Appends};
ghost use Rattle.journals.specs.Journal as journal;
ghost use Rattle.fate_ledger.specs.Ledger as ledger;

use fate_ledger::{FateLine, append_ledger_line, ledger_line_room};
use histories::{Did, Entry};
use journals::{append_did, append_entry, append_port, did_room, entry_room, port_room};
use std::alloc::AllocError;

/// What is written as one line.
pub(crate) trait Line {
    /// The line, with its end.
    ghost text: { Self → List ℕ };

    /// So many bytes hold the line; `None` where they are too many to be counted.
    fn room(&self) -> Option<usize>
        ensures { IfSome result (λ room. length (text self.now) ≤ room) };

    /// Appends the line. Takes no memory where there is room for it.
    fn append(&self, out: &mut Vec<u8>) -> Result<(), AllocError>
        ensures { Appends result out.old out.new (text self.now) };
}

/// What happened at a queue, a line of a journal.
impl Line for Entry {
    ghost text = { journal.entry };

    fn room(&self) -> Option<usize> {
        entry_room(self)
    }

    fn append(&self, out: &mut Vec<u8>) -> Result<(), AllocError> {
        append_entry(self, out)
    }
}

/// The line of a journal that a port's log begins with.
#[derive(Clone, Copy)]
pub(crate) struct PortLine {
    pub(crate) port: u32,
}

impl Line for PortLine {
    ghost text = { λ l. journal.port l.port };

    fn room(&self) -> Option<usize> {
        Some(port_room(self.port))
    }

    fn append(&self, out: &mut Vec<u8>) -> Result<(), AllocError> {
        append_port(self.port, out)
    }
}

/// What a port did, a line of a journal.
impl Line for Did {
    ghost text = { journal.did };

    fn room(&self) -> Option<usize> {
        did_room(self)
    }

    fn append(&self, out: &mut Vec<u8>) -> Result<(), AllocError> {
        append_did(self, out)
    }
}

/// What became of a frame, a line of a ledger.
impl Line for FateLine {
    ghost text = { ledger.line };

    fn room(&self) -> Option<usize> {
        Some(ledger_line_room(self))
    }

    fn append(&self, out: &mut Vec<u8>) -> Result<(), AllocError> {
        append_ledger_line(self, out)
    }
}
