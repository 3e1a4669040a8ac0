//! The lines of a journal, each put into the part of the file that is built.

ghost use Rattle.std.specs.Prelude.{◌≡◌, ◌+◌, ◌<◌, ◌≤◌, ◌^◌, length, IsTrue, OnOk, OnErr, Some};
ghost use Rattle.std.specs.Prelude.{vec_capacity};
ghost use Rattle.host_io.specs.Host.{ChangesOnly, IsLater, MayGoOn, Rises};
ghost use Rattle.journals.specs.Journal as text;
ghost use Rattle.run_files.specs.Parts.{AreLogsWithin, Grows, IsJournalReady};

use crate::line::PortLine;
use crate::line_writing::{write_line, write_list};
use crate::part_writing::Part;
use histories::{Histories, Logs};
use host_io::{Host, WriteFault};
use journals::{append_ending, append_heading};

/// Writes the file of a journal. `part` is its first part; no line has more than `longest` bytes.
pub(crate) fn write_journal<H: Host>(
    host: &mut H,
    name: &str,
    histories: &Histories,
    longest: usize,
    part: &mut Part,
) -> Result<(), WriteFault>
    requires { IsJournalReady histories.now longest part.old.at part.old.bytes }
    ensures bytes { OnOk result (IsTrue (H.tells host.old) →
        H.content host.new name.now ≡ Some (text.journal histories.now)) }
    ensures write_fault { OnErr result
        (Rises (H.write_faults host.old name.now) (H.write_faults host.new name.now)) }
    ensures files { ChangesOnly name.now (H.content host.old) (H.content host.new) }
    ensures later { IsLater H.tells H.read_faults H.write_faults host.old host.new }
{
    let Ok(()) = append_heading(&mut part.bytes) else {
        unreachable!()
    };
    write_list(host, name, &histories.entries, longest, part)?;
    write_logs(host, name, &histories.logs, longest, part)?;
    part.make_room(host, name, longest)?;
    let Ok(()) = append_ending(&mut part.bytes) else {
        unreachable!()
    };
    part.write(host, name)
}

/// The lines of these logs.
fn write_logs<H: Host>(
    host: &mut H,
    name: &str,
    logs: &Logs,
    longest: usize,
    part: &mut Part,
) -> Result<(), WriteFault>
    requires behind { IsTrue (H.tells host.old) →
        MayGoOn (H.content host.old name.now) part.old.at }
    requires places { part.old.at + length part.old.bytes.items
        + length (text.logs logs.now) < 2 ^ 64 }
    requires room { longest ≤ vec_capacity part.old.bytes }
    requires lines { AreLogsWithin longest logs.now }
    ensures grows { OnOk result (Grows (IsTrue (H.tells host.old))
        (H.content host.old name.now) part.old.at part.old.bytes.items
        (H.content host.new name.now) part.new.at part.new.bytes.items
        (text.logs logs.now)) }
    ensures capacity { OnOk result (vec_capacity part.old.bytes ≤ vec_capacity part.new.bytes) }
    ensures write_fault { OnErr result
        (Rises (H.write_faults host.old name.now) (H.write_faults host.new name.now)) }
    ensures files { ChangesOnly name.now (H.content host.old) (H.content host.new) }
    ensures later { IsLater H.tells H.read_faults H.write_faults host.old host.new }
{
    for log in logs {
        write_line(host, name, &PortLine { port: log.port }, longest, part)?;
        write_list(host, name, &log.dids, longest, part)?;
    }
    Ok(())
}
