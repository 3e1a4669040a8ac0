//! What is found of histories that aren't those of a run, and the line that says so.

ghost use Rattle.std.specs.Prelude.{◌≡◌, IfOk};
ghost use Rattle.std.specs.String.{string_bytes};
ghost use Rattle.journal_audit.specs.Printed as printed;

use crate::first_illegal::Place1;
use crate::part::Part;
use std::alloc::{AllocError, Global};

/// What is found of histories that aren't those of a run.
#[derive(Clone, Copy, Debug, PartialEq, Eq)]
pub enum Finding {
    /// The place of the least queue whose history isn't legal, with the length of its shortest
    /// beginning that isn't.
    Entry { place: Place1 },
    /// The least number of a packet of which not just those arrivals came that were asked for.
    Record { number: u32 },
    /// The first part of being made by the script that doesn't hold.
    Makers { part: Part },
    /// All parts hold, and no order of all events exists in which each comes after what it rests
    /// on.
    Order,
}

impl Finding {
    /// The line that is printed.
    pub fn line(self, alloc: Global) -> Result<String, AllocError>
        ensures { IfOk result (λ line. string_bytes line ≡ printed.line_of self) }
    {
        let mut line = String::new(alloc);
        match self {
            Finding::Entry { place } => {
                writeln!(line, "audit: queue {} entry {}", place.queue, place.at)?
            }
            Finding::Record { number } => writeln!(line, "audit: record {number}")?,
            Finding::Makers { part } => writeln!(line, "audit: makers {}", part.letter())?,
            Finding::Order => writeln!(line, "audit: makers i")?,
        }
        Ok(line)
    }
}
