//! A run as it is told: its inputs are read, and behind them a journal.

ghost use Rattle.std.specs.Prelude.{◌≡◌, ◌≤◌, [], Result, Ok, Err, length};
ghost use Rattle.std.specs.Prelude.{IsTrue, IfOk, IsErrOf};
ghost use Rattle.host_io.specs.Host.{Rises, IsLater, SameFiles};
ghost use Rattle.hook_chain.specs.Rules.{RuleTables};
ghost use Rattle.inspector_script.specs.Scripts.{ScriptValue, IsScript};
ghost use Rattle.pcap_io.specs.declared.capture.Capture.{Capture as ACapture};
ghost use Rattle.histories.specs.declared.histories.Histories as value;
ghost use Rattle.packet_entry.specs.Numbers.{most_frames};
ghost use Rattle.run_files.specs.declared.refusal.Refusal.{Refusal as ARefusal};
ghost use Rattle.command_line.specs.Arguments as named;
ghost use Rattle.run_files.specs.Causes.{AreTaken, AreToldBy, IsRefused, IsUnread};
ghost use Rattle.run_files.specs.Files.{ReadFaultRose};
ghost use Rattle.run_files.specs.Inputs.{Said, TodaysJournalSays};
ghost use Rattle.run_files.specs.Statuses.{Agrees, IfRefused};

use crate::inputs::{Made, read_file, read_inputs};
use crate::old_journal::MAX_JOURNAL;
use crate::refusal::Limit;
use crate::stop::Stop;
use command_line::Audit;
use histories::Histories;
use host_io::Host;
use journal_reading::read_journal;
use std::alloc::Global;

/// What a run is made from, and the histories that a journal tells of it.
#[derive(Drop)]
pub struct ToldRun {
    pub made: Made,
    pub histories: Histories,
}

/// Reads the inputs, and behind them the journal, of version 2 alone.
pub fn read_told_run<H: Host>(
    alloc: Global,
    files: &Audit<'_>,
    host: &mut H,
) -> Result<ToldRun, Stop>
    ensures read { IfOk result (λ r. IsTrue (H.tells host.old) →
        AreToldBy (named.audit_files_of files.now) (H.content host.old)
        r.made.tables r.made.script r.made.capture r.histories) }
    ensures alone { IfOk result (λ r. (tables : RuleTables) (script : ScriptValue)
        (capture : ACapture) (h : value.Histories) → IsTrue (H.tells host.old) →
        AreToldBy (named.audit_files_of files.now) (H.content host.old) tables script capture h →
        (tables ≡ r.made.tables) × (script ≡ r.made.script) × (capture ≡ r.made.capture)
        × (h ≡ r.histories)) }
    ensures script { IfOk result (λ r. IsScript r.made.script) }
    ensures frames { IfOk result (λ r. length r.made.capture.frames ≤ most_frames) }
    ensures nothing_lost { IfOk result (λ r. r.histories.lost ≡ []) }
    ensures refused { IfRefused result (λ why. IsTrue (H.tells host.old) →
        IsRefused (named.ToldRun (named.audit_files_of files.now)) (H.content host.old) why) }
    ensures exact { (why : ARefusal) → IsTrue (H.tells host.old) →
        IsRefused (named.ToldRun (named.audit_files_of files.now)) (H.content host.old) why →
        Agrees result (Err why) }
    ensures only { IsTrue (H.tells host.old) →
        AreTaken (named.ToldRun (named.audit_files_of files.now)) (H.content host.old) →
        IfRefused result (λ _. ⊥) }
    ensures read_fault { IsErrOf result Stop.ReadFault →
        ReadFaultRose (named.ToldRun (named.audit_files_of files.now))
        (H.read_faults host.old) (H.read_faults host.new) }
    ensures unread { IsErrOf result Stop.ReadFault → IsTrue (H.tells host.old) →
        IsUnread (named.ToldRun (named.audit_files_of files.now))
        (H.read_faults host.old) (H.read_faults host.new) (H.content host.old) }
    ensures no_write { IsErrOf result Stop.WriteFault → ⊥ }
    ensures files { SameFiles (H.content host.old) (H.content host.new) }
    ensures later { IsLater H.tells H.read_faults H.write_faults host.old host.new }
{
    let made = read_inputs(alloc, &files.inputs, host)?;
    let histories = read_todays_journal(alloc, files.journal, host)?;
    Ok(ToldRun { made, histories })
}

/// Reads a journal of version 2.
fn read_todays_journal<H: Host>(alloc: Global, name: &str, host: &mut H) -> Result<Histories, Stop>
    ensures found { IfOk result (λ h. IsTrue (H.tells host.old) →
        Said TodaysJournalSays (H.content host.old name.now) (Ok h)) }
    ensures nothing_lost { IfOk result (λ h. h.lost ≡ []) }
    ensures refused { IfRefused result (λ why. IsTrue (H.tells host.old) →
        Said TodaysJournalSays (H.content host.old name.now) (Err why)) }
    ensures only { (said : Result value.Histories ARefusal) → IsTrue (H.tells host.old) →
        Said TodaysJournalSays (H.content host.old name.now) said → Agrees result said }
    ensures read_fault { IsErrOf result Stop.ReadFault →
        Rises (H.read_faults host.old name.now) (H.read_faults host.new name.now) }
    ensures no_write { IsErrOf result Stop.WriteFault → ⊥ }
    ensures files { SameFiles (H.content host.old) (H.content host.new) }
    ensures later { IsLater H.tells H.read_faults H.write_faults host.old host.new }
{
    let bytes = read_file(alloc, name, host, MAX_JOURNAL, Limit::Journal)?;
    match read_journal(alloc, &bytes) {
        Ok(histories) => Ok(histories),
        Err(fault) => Err(Stop::of_journal(fault)),
    }
}
