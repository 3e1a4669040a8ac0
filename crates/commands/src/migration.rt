//! The command `migrate`: a journal of either version is read, and what it tells is written in the
//! version of today.

ghost use Rattle.std.specs.Prelude.{OnErr, IsErrOf};
ghost use Rattle.host_io.specs.Host.{IsLater, SameFiles};
ghost use Rattle.command_line.specs.Arguments.{migrate_files_of, migrate_outputs, Migrates};
ghost use Rattle.run_files.specs.Files.{OthersStay};
ghost use Rattle.commands.specs.Ending.{IsEnded, span};

use command_line::Migration;
use host_io::Host;
use journal_reading::each_journal_has_one_of_today;
use run_files::{JournalFile, Stop, read_journal_file};
use std::alloc::Global;

/// Reads the old journal and writes the new one. All memory is taken before the new file is opened,
/// so the two may be one.
pub fn migrate<H: Host>(alloc: Global, files: &Migration<'_>, host: &mut H) -> Result<(), Stop>
    ensures ended { IsEnded (Migrates (migrate_files_of files.now))
        (span H.tells H.content H.read_faults H.write_faults host.old host.new) result }
    ensures untouched { OnErr result (¬ IsErrOf result Stop.WriteFault →
        SameFiles (H.content host.old) (H.content host.new)) }
    ensures others { OthersStay (migrate_outputs (migrate_files_of files.now))
        (H.content host.old) (H.content host.new) }
    ensures later { IsLater H.tells H.read_faults H.write_faults host.old host.new }
{
    each_journal_has_one_of_today();
    let histories = read_journal_file(alloc, files.source, host)?;
    let journal = JournalFile::new(alloc, histories)?;
    journal.write(host, files.target)?;
    Ok(())
}
