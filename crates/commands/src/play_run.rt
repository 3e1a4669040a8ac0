//! The command `play`: three files are read, the run is made, and three files are written.

ghost use Rattle.std.specs.Prelude.{◌≡◌, ◌⊎◌, ◌≤◌, Some, true, length, All};
ghost use Rattle.std.specs.Prelude.{IsTrue, OnOk, OnErr, IsErrOf};
ghost use Rattle.host_io.specs.Host.{IsLater, SameFiles};
ghost use Rattle.packet_entry.specs.Numbers.{longest_packet, most_frames};
ghost use Rattle.pcap_io.specs.Text.{IsHeld};
ghost use Rattle.histories.specs.History.{AreLegal};
ghost use Rattle.fate_ledger.specs.Released.{released};
ghost use Rattle.command_line.specs.Arguments.{are_outputs_apart, files_of, play_outputs, Plays};
ghost use Rattle.run_files.specs.Files.{IsStopped, IsStoppedAfter, OthersStay};
ghost use Rattle.run_files.specs.Files.{AreWritten, WriteFaultRose};
ghost use Rattle.run_files.specs.Outputs.{fates_of};
ghost use Rattle.commands.specs.Ending.{IsEnded, span};
ghost use Rattle.commands.specs.Headline.{run_texts, texts_as};

use crate::account::histories_of;
use command_line::Play;
use histories::Histories;
use host_io::Host;
use pcap_io::Capture;
use run_files::{Made, Outputs, Stop, outputs_of, read_inputs};
use std::alloc::Global;

/// Reads the inputs, makes the run and writes the outputs.
pub fn play_files<H: Host>(alloc: Global, files: &Play<'_>, host: &mut H) -> Result<(), Stop>
    requires apart { are_outputs_apart (files_of files.now) ≡ true }
    ensures ended { IsEnded (Plays (files_of files.now))
        (span H.tells H.content H.read_faults H.write_faults host.old host.new) result }
    ensures untouched { OnErr result (¬ IsErrOf result Stop.WriteFault →
        SameFiles (H.content host.old) (H.content host.new)) }
    ensures others { OthersStay (play_outputs (files_of files.now))
        (H.content host.old) (H.content host.new) }
    ensures later { IsLater H.tells H.read_faults H.write_faults host.old host.new }
{
    let made = read_inputs(alloc, &files.inputs, host)?;
    let Made {
        tables,
        script,
        capture,
    } = made;
    let histories = histories_of(alloc, &script, tables, &capture)?;
    write_run(alloc, files, &capture, histories, host)
}

/// Writes what came of a run, whichever way it was made.
pub(crate) fn write_run<H: Host>(
    alloc: Global,
    files: &Play<'_>,
    capture: &Capture,
    histories: Histories,
    host: &mut H,
) -> Result<(), Stop>
    requires apart { are_outputs_apart (files_of files.now) ≡ true }
    requires frames { length capture.now.frames ≤ most_frames }
    requires legal { AreLegal histories.entries }
    requires payloads { All (λ l. length l.payload ≤ longest_packet)
        (fates_of capture.now histories) }
    requires held { IsHeld (released capture.now (fates_of capture.now histories)) }
    ensures written { OnOk result (IsTrue (H.tells host.old) → AreWritten
        (run_texts (files_of files.now) capture.now histories) (H.content host.new)) }
    ensures other { OnErr result (IsErrOf result Stop.WriteFault ⊎ IsErrOf result Stop.NoMemory) }
    ensures write_fault { IsErrOf result Stop.WriteFault →
        WriteFaultRose (play_outputs (files_of files.now))
        (H.write_faults host.old) (H.write_faults host.new) }
    ensures stopped { IsErrOf result Stop.WriteFault →
        IsStopped (play_outputs (files_of files.now))
        (H.write_faults host.old) (H.write_faults host.new) (H.content host.old)
        (H.content host.new) }
    ensures cut_short { IsErrOf result Stop.WriteFault → IsTrue (H.tells host.old) →
        IsStoppedAfter (run_texts (files_of files.now) capture.now histories)
        (H.write_faults host.old) (H.write_faults host.new) (H.content host.old)
        (H.content host.new) }
    ensures untouched { IsErrOf result Stop.NoMemory →
        SameFiles (H.content host.old) (H.content host.new) }
    ensures others { OthersStay (play_outputs (files_of files.now))
        (H.content host.old) (H.content host.new) }
    ensures later { IsLater H.tells H.read_faults H.write_faults host.old host.new }
{
    let outputs = outputs_of(alloc, capture, histories)?;
    write_outputs(files, outputs, host)
}

/// Writes the outputs, one after the other, each whole.
fn write_outputs<H: Host>(files: &Play<'_>, outputs: Outputs, host: &mut H) -> Result<(), Stop>
    requires apart { are_outputs_apart (files_of files.now) ≡ true }
    ensures output { OnOk result (IsTrue (H.tells host.old) →
        H.content host.new files.now.output.now ≡ Some outputs.capture) }
    ensures ledger { OnOk result (IsTrue (H.tells host.old) →
        H.content host.new files.now.ledger.now ≡ Some outputs.ledger) }
    ensures journal { OnOk result (IsTrue (H.tells host.old) →
        H.content host.new files.now.journal.now ≡ Some outputs.journal) }
    ensures only { OnErr result (IsErrOf result Stop.WriteFault) }
    ensures write_fault { OnErr result (WriteFaultRose (play_outputs (files_of files.now))
        (H.write_faults host.old) (H.write_faults host.new)) }
    ensures stopped { OnErr result (IsStopped (play_outputs (files_of files.now))
        (H.write_faults host.old) (H.write_faults host.new) (H.content host.old)
        (H.content host.new)) }
    ensures cut_short { OnErr result (IsTrue (H.tells host.old) →
        IsStoppedAfter (texts_as (files_of files.now) outputs.capture outputs.ledger
        outputs.journal)
        (H.write_faults host.old) (H.write_faults host.new) (H.content host.old)
        (H.content host.new)) }
    ensures others { OthersStay (play_outputs (files_of files.now))
        (H.content host.old) (H.content host.new) }
    ensures later { IsLater H.tells H.read_faults H.write_faults host.old host.new }
{
    let Outputs {
        capture,
        ledger,
        journal,
    } = outputs;
    capture.write(host, files.output)?;
    ledger.write(host, files.ledger)?;
    journal.write(host, files.journal)?;
    Ok(())
}
