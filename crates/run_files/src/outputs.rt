//! What a run writes.

ghost use Rattle.std.specs.Prelude.{◌≡◌, ◌≤◌, length, IfOk, All};
ghost use Rattle.packet_entry.specs.Numbers.{longest_packet};
ghost use Rattle.pcap_io.specs.Text.{IsHeld, capture_text};
ghost use Rattle.histories.specs.History.{AreLegal};
ghost use Rattle.packet_entry.specs.Numbers.{most_frames};
ghost use Rattle.fate_ledger.specs.Released.{released};
ghost use Rattle.run_files.specs.Outputs as text;

use crate::capture_file::CaptureFile;
use crate::journal_file::JournalFile;
use crate::ledger_file::LedgerFile;
use fate_ledger::{FateLines, fates, released_capture};
use histories::Histories;
use packet_entry::NoMemory;
use pcap_io::Capture;
use std::alloc::Global;

/// The three files that a run writes, each part by part.
#[derive(Debug, Drop)]
pub struct Outputs {
    /// The frames that were released.
    pub capture: CaptureFile,
    /// What became of each frame.
    pub ledger: LedgerFile,
    /// The histories.
    pub journal: JournalFile,
}

/// The files of these histories, with all memory that their writing wants.
pub fn outputs_of(
    alloc: Global,
    capture: &Capture,
    histories: Histories,
) -> Result<Outputs, NoMemory>
    requires frames { length capture.now.frames ≤ most_frames }
    requires legal { AreLegal histories.entries }
    requires payloads { All (λ l. length l.payload ≤ longest_packet)
        (text.fates_of capture.now histories) }
    requires held { IsHeld (released capture.now (text.fates_of capture.now histories)) }
    ensures output { IfOk result (λ o. o.capture ≡ text.output_text capture.now histories) }
    ensures ledger { IfOk result (λ o. o.ledger ≡ text.ledger_text capture.now histories) }
    ensures journal { IfOk result (λ o. o.journal ≡ text.journal_text histories) }
{
    let lines = fates(alloc, capture, &histories)?;
    Ok(Outputs {
        capture: released_file(alloc, capture, &lines)?,
        ledger: LedgerFile::new(alloc, lines)?,
        journal: JournalFile::new(alloc, histories)?,
    })
}

/// The released frames as a capture file.
fn released_file(
    alloc: Global,
    capture: &Capture,
    lines: &FateLines,
) -> Result<CaptureFile, NoMemory>
    requires lines { length capture.now.frames ≡ length lines.now }
    requires payloads { All (λ l. length l.payload ≤ longest_packet) lines.now }
    requires held { IsHeld (released capture.now lines.now) }
    ensures { IfOk result (λ file. file ≡ capture_text (released capture.now lines.now)) }
{
    let released = released_capture(alloc, capture, lines)?;
    CaptureFile::new(alloc, released)
}
