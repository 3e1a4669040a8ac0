//! A ledger that is to be written, with all the memory that its writing takes.

ghost use Rattle.std.specs.Prelude.{◌≡◌, ◌≤◌, length, IsTrue, IfOk, IfSome, OnOk, OnErr, Some};
ghost use Rattle.host_io.specs.Host.{ChangesOnly, IsLater, Rises};
ghost use Rattle.fate_ledger.specs.Ledger as text;
ghost use Rattle.run_files.specs.Parts.{AreLinesWithin, IsLedgerReady};

use crate::line_room::Room;
use crate::line_writing::write_list;
use crate::part_writing::Part;
use fate_ledger::{FateLines, append_ledger_heading};
use host_io::{Host, WriteFault};
use packet_entry::NoMemory;
use std::alloc::Global;
use std::marker::Model;

/// The first line of a ledger has so many bytes.
const HEADING: usize = 41;

/// A ledger that can be written as a file, part by part, without taking memory. Contracts see the
/// bytes of the file.
#[derive(Debug, Drop)]
pub struct LedgerFile {
    lines: FateLines,
    /// No line has more bytes.
    longest: usize,
    /// Where a part is built.
    part: Part,
}

impl Model for LedgerFile {
    ghost use Rattle.std.specs.Prelude.{List, ℕ};
    ghost use Rattle.fate_ledger.specs.Ledger as text;
    ghost use Rattle.run_files.specs.Parts.{IsLedgerReady};

    ghost Value = { List ℕ };

    ghost view = { λ f. text.ledger f.lines };

    ghost invariant = { λ f. IsLedgerReady f.lines f.longest f.part.at f.part.bytes };
}

impl LedgerFile {
    /// Takes all memory that the writing wants.
    pub fn new(alloc: Global, lines: FateLines) -> Result<LedgerFile, NoMemory>
        ensures { IfOk result (λ file. file ≡ text.ledger lines) }
    {
        let room = ledger_room(&lines).ok_or(NoMemory)?;
        Ok(LedgerFile {
            lines,
            longest: room.longest,
            part: Part::new(alloc, room.longest)?,
        })
    }

    /// Writes the file, which the host makes anew. Takes no memory.
    pub fn write<H: Host>(self, host: &mut H, name: &str) -> Result<(), WriteFault>
        ensures bytes { OnOk result (IsTrue (H.tells host.old) →
            H.content host.new name.now ≡ Some self) }
        ensures write_fault { OnErr result
            (Rises (H.write_faults host.old name.now) (H.write_faults host.new name.now)) }
        ensures files { ChangesOnly name.now (H.content host.old) (H.content host.new) }
        ensures later { IsLater H.tells H.read_faults H.write_faults host.old host.new }
    {
        let LedgerFile {
            lines,
            longest,
            mut part,
        } = self;
        write_ledger(host, name, &lines, longest, &mut part)
    }
}

/// How many bytes the lines of a ledger have; `None` where they are too many to be counted.
fn ledger_room(lines: &FateLines) -> Option<Room>
    ensures lines { IfSome result (λ room. AreLinesWithin text.line room.longest lines.now) }
    ensures all { IfSome result (λ room. length (text.ledger lines.now) ≤ room.all) }
{
    let room = Room {
        longest: 0,
        all: HEADING,
    };
    room.with_lines(lines)
}

/// Writes the file of a ledger. `part` is its first part; no line has more than `longest` bytes.
fn write_ledger<H: Host>(
    host: &mut H,
    name: &str,
    lines: &FateLines,
    longest: usize,
    part: &mut Part,
) -> Result<(), WriteFault>
    requires { IsLedgerReady lines.now longest part.old.at part.old.bytes }
    ensures bytes { OnOk result (IsTrue (H.tells host.old) →
        H.content host.new name.now ≡ Some (text.ledger lines.now)) }
    ensures write_fault { OnErr result
        (Rises (H.write_faults host.old name.now) (H.write_faults host.new name.now)) }
    ensures files { ChangesOnly name.now (H.content host.old) (H.content host.new) }
    ensures later { IsLater H.tells H.read_faults H.write_faults host.old host.new }
{
    let Ok(()) = append_ledger_heading(&mut part.bytes) else {
        unreachable!()
    };
    write_list(host, name, lines, longest, part)?;
    part.write(host, name)
}
