//! A journal that is to be written, with all the memory that its writing takes.

ghost use Rattle.std.specs.Prelude.{◌≡◌, IsTrue, IfOk, OnOk, OnErr, Some};
ghost use Rattle.host_io.specs.Host.{ChangesOnly, IsLater, Rises};
ghost use Rattle.journals.specs.Journal as text;

use crate::journal_lines::write_journal;
use crate::journal_room::journal_room;
use crate::part_writing::Part;
use histories::Histories;
use host_io::{Host, WriteFault};
use packet_entry::NoMemory;
use std::alloc::Global;
use std::marker::Model;

/// A journal that can be written as a file, part by part, without taking memory. Contracts see the
/// bytes of the file.
#[derive(Debug, Drop)]
pub struct JournalFile {
    histories: Histories,
    /// No line has more bytes.
    longest: usize,
    /// Where a part is built.
    part: Part,
}

impl Model for JournalFile {
    ghost use Rattle.std.specs.Prelude.{List, ℕ};
    ghost use Rattle.journals.specs.Journal as text;
    ghost use Rattle.run_files.specs.Parts.{IsJournalReady};

    ghost Value = { List ℕ };

    ghost view = { λ f. text.journal f.histories };

    ghost invariant = { λ f. IsJournalReady f.histories f.longest f.part.at f.part.bytes };
}

impl JournalFile {
    /// Takes all memory that the writing wants.
    pub fn new(alloc: Global, histories: Histories) -> Result<JournalFile, NoMemory>
        ensures { IfOk result (λ file. file ≡ text.journal histories) }
    {
        let room = journal_room(&histories).ok_or(NoMemory)?;
        Ok(JournalFile {
            histories,
            longest: room.longest,
            part: Part::new(alloc, room.longest)?,
        })
    }

    /// Writes the file, which the host makes anew. Takes no memory.
    pub fn write<H: Host>(self, host: &mut H, name: &str) -> Result<(), WriteFault>
        ensures bytes { OnOk result (IsTrue (H.tells host.old) →
            H.content host.new name.now ≡ Some self) }
        ensures write_fault { OnErr result
            (Rises (H.write_faults host.old name.now) (H.write_faults host.new name.now)) }
        ensures files { ChangesOnly name.now (H.content host.old) (H.content host.new) }
        ensures later { IsLater H.tells H.read_faults H.write_faults host.old host.new }
    {
        let JournalFile {
            histories,
            longest,
            mut part,
        } = self;
        write_journal(host, name, &histories, longest, &mut part)
    }
}
