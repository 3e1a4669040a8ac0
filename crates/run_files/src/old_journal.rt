//! A journal that is read: of either version of the format.

ghost use Rattle.std.specs.Prelude.{◌≡◌, Result, Ok, Err, IsTrue, IfOk, IsErrOf};
ghost use Rattle.host_io.specs.Host.{Rises, IsLater, SameFiles};
ghost use Rattle.histories.specs.declared.histories.Histories as value;
ghost use Rattle.run_files.specs.declared.refusal.Refusal.{Refusal as ARefusal};
ghost use Rattle.run_files.specs.Inputs.{JournalSays, Said};
ghost use Rattle.run_files.specs.Statuses.{Agrees, IfRefused};

use crate::inputs::read_file;
use crate::refusal::Limit;
use crate::stop::Stop;
use histories::Histories;
use host_io::Host;
use journal_reading::read_either_journal;
use std::alloc::Global;

/// The most bytes that a journal may have.
pub(crate) const MAX_JOURNAL: u64 = 536_870_912;

/// Reads a journal of the version that its first line names, of version 1 where it names neither.
pub fn read_journal_file<H: Host>(
    alloc: Global,
    name: &str,
    host: &mut H,
) -> Result<Histories, Stop>
    ensures found { IfOk result (λ h. IsTrue (H.tells host.old) →
        Said JournalSays (H.content host.old name.now) (Ok h)) }
    ensures refused { IfRefused result (λ why. IsTrue (H.tells host.old) →
        Said JournalSays (H.content host.old name.now) (Err why)) }
    ensures only { (said : Result value.Histories ARefusal) → IsTrue (H.tells host.old) →
        Said JournalSays (H.content host.old name.now) said → Agrees result said }
    ensures read_fault { IsErrOf result Stop.ReadFault →
        Rises (H.read_faults host.old name.now) (H.read_faults host.new name.now) }
    ensures no_write { IsErrOf result Stop.WriteFault → ⊥ }
    ensures files { SameFiles (H.content host.old) (H.content host.new) }
    ensures later { IsLater H.tells H.read_faults H.write_faults host.old host.new }
{
    let bytes = read_file(alloc, name, host, MAX_JOURNAL, Limit::Journal)?;
    match read_either_journal(alloc, &bytes) {
        Ok(histories) => Ok(histories),
        Err(fault) => Err(Stop::of_journal(fault)),
    }
}
