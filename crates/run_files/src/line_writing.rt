//! Lines, each put into the part of the file that is built.

ghost use Rattle.std.specs.Prelude.{◌+◌, ◌<◌, ◌≤◌, ◌^◌, length, IsTrue, OnOk, OnErr};
ghost use Rattle.std.specs.Prelude.{vec_capacity};
ghost use Rattle.std.specs.List.{flat_map};
ghost use Rattle.host_io.specs.Host.{ChangesOnly, IsLater, MayGoOn, Rises};
ghost use Rattle.run_files.specs.Parts.{AreLinesWithin, Grows};

use crate::line::Line;
use crate::part_writing::Part;
use host_io::{Host, WriteFault};
use packet_entry::Sequence;

/// These lines, of which none has more than `longest` bytes.
pub(crate) fn write_list<H: Host, L: Line>(
    host: &mut H,
    name: &str,
    lines: &Sequence<L>,
    longest: usize,
    part: &mut Part,
) -> Result<(), WriteFault>
    requires behind { IsTrue (H.tells host.old) →
        MayGoOn (H.content host.old name.now) part.old.at }
    requires places { part.old.at + length part.old.bytes.items
        + length (flat_map L.text lines.now) < 2 ^ 64 }
    requires room { longest ≤ vec_capacity part.old.bytes }
    requires lines { AreLinesWithin L.text longest lines.now }
    ensures grows { OnOk result (Grows (IsTrue (H.tells host.old))
        (H.content host.old name.now) part.old.at part.old.bytes.items
        (H.content host.new name.now) part.new.at part.new.bytes.items
        (flat_map L.text lines.now)) }
    ensures capacity { OnOk result (vec_capacity part.old.bytes ≤ vec_capacity part.new.bytes) }
    ensures write_fault { OnErr result
        (Rises (H.write_faults host.old name.now) (H.write_faults host.new name.now)) }
    ensures files { ChangesOnly name.now (H.content host.old) (H.content host.new) }
    ensures later { IsLater H.tells H.read_faults H.write_faults host.old host.new }
{
    for line in lines {
        write_line(host, name, line, longest, part)?;
    }
    Ok(())
}

/// This line, which has no more than `longest` bytes.
pub(crate) fn write_line<H: Host, L: Line>(
    host: &mut H,
    name: &str,
    line: &L,
    longest: usize,
    part: &mut Part,
) -> Result<(), WriteFault>
    requires behind { IsTrue (H.tells host.old) →
        MayGoOn (H.content host.old name.now) part.old.at }
    requires places { part.old.at + length part.old.bytes.items
        + length (L.text line.now) < 2 ^ 64 }
    requires room { longest ≤ vec_capacity part.old.bytes }
    requires line { length (L.text line.now) ≤ longest }
    ensures grows { OnOk result (Grows (IsTrue (H.tells host.old))
        (H.content host.old name.now) part.old.at part.old.bytes.items
        (H.content host.new name.now) part.new.at part.new.bytes.items
        (L.text line.now)) }
    ensures capacity { OnOk result (vec_capacity part.old.bytes ≤ vec_capacity part.new.bytes) }
    ensures write_fault { OnErr result
        (Rises (H.write_faults host.old name.now) (H.write_faults host.new name.now)) }
    ensures files { ChangesOnly name.now (H.content host.old) (H.content host.new) }
    ensures later { IsLater H.tells H.read_faults H.write_faults host.old host.new }
{
    part.make_room(host, name, longest)?;
    let Ok(()) = line.append(&mut part.bytes) else {
        unreachable!()
    };
    Ok(())
}
