//! The command `list`: three files are read, the run is made up to where the ports end, and one
//! file is written.

ghost use Rattle.std.specs.Prelude.{OnErr, IsErrOf};
ghost use Rattle.host_io.specs.Host.{IsLater, SameFiles};
ghost use Rattle.command_line.specs.Arguments.{list_files_of, list_outputs, Lists};
ghost use Rattle.run_files.specs.Files.{OthersStay};
ghost use Rattle.commands.specs.Ending.{IsEnded, span};

use command_line::Listing;
use host_io::{Host, write_whole};
use run_files::{Made, Stop, read_inputs};
use solo_run::list_before_ends;
use std::alloc::Global;

/// Reads the inputs, makes the run and writes the listing.
pub fn list_files<H: Host>(alloc: Global, files: &Listing<'_>, host: &mut H) -> Result<(), Stop>
    ensures ended { IsEnded (Lists (list_files_of files.now))
        (span H.tells H.content H.read_faults H.write_faults host.old host.new) result }
    ensures untouched { OnErr result (¬ IsErrOf result Stop.WriteFault →
        SameFiles (H.content host.old) (H.content host.new)) }
    ensures others { OthersStay (list_outputs (list_files_of files.now))
        (H.content host.old) (H.content host.new) }
    ensures later { IsLater H.tells H.read_faults H.write_faults host.old host.new }
{
    let made = read_inputs(alloc, &files.inputs, host)?;
    let Made {
        tables,
        script,
        capture,
    } = made;
    let mut listing = Vec::new(alloc);
    list_before_ends(alloc, &script, tables, &capture, &mut listing)?;
    write_whole(host, files.output, &listing)?;
    Ok(())
}
