//! The command `audit`: the inputs of a run and a journal are read, and it is judged whether the
//! journal tells a run on these inputs.

ghost use Rattle.std.specs.Prelude.{◌≡◌, ◌⊎◌, ℕ, IsTrue, IfOk};
ghost use Rattle.host_io.specs.Host.{IsLater, SameFiles};
ghost use Rattle.hook_chain.specs.Rules.{RuleTables};
ghost use Rattle.inspector_script.specs.Scripts.{ScriptValue};
ghost use Rattle.pcap_io.specs.declared.capture.Capture.{Capture};
ghost use Rattle.histories.specs.declared.histories.Histories.{Histories};
ghost use Rattle.command_line.specs.Arguments.{audit_files_of, AuditFiles, Audits, LiveFiles};
ghost use Rattle.command_line.specs.Arguments.{PlayFiles, ToldRun};
ghost use Rattle.run_files.specs.Causes.{IsUnread};
ghost use Rattle.run_files.specs.Files.{Contents};
ghost use Rattle.journals.specs.WellFormed.{IsWellFormed};
ghost use Rattle.journal_audit.specs.Findings.{IsRunOf};
ghost use Rattle.commands.specs.Account.{AreAccounted};
ghost use Rattle.commands.specs.Ending.{IsEnded, IsStatusOf, Span, span};
ghost use Rattle.commands.specs.Headline.{AreKept, audit_of_run, IsAudited, IsJudged};
ghost use Rattle.commands.specs.Headline.{IsLived, IsOnlyJudged, IsPlayed, MayFind};

use crate::account::told_histories_are_accounted_for;
use command_line::Audit;
use host_io::Host;
use journal_audit::{Finding, a_finding_is_the_only_one, a_run_has_no_finding, audit};
use run_files::{Stop, read_told_run};
use std::alloc::Global;

/// A run passes its audit, with one feeder and no pool behind its ports. What is known of its
/// histories is what an audit judges: where its files hold what they held at its end, its journal
/// tells a run on its inputs.
pub fn a_run_passes_its_audit()
    ensures run { (tables : RuleTables) (script : ScriptValue) (c : Capture) (h : Histories) →
        AreAccounted 1 1 tables script c h → IsRunOf tables script c h }
    ensures played { (f : PlayFiles) (old new later : Contents) → IsPlayed f old new →
        AreKept f old new later → IsAudited (audit_of_run f) later }
    ensures lived { (l : LiveFiles) (old new later : Contents) →
        l.size.feeders ≡ 1 → l.size.workers ≡ 1 → IsLived l old new →
        AreKept l.files old new later → IsAudited (audit_of_run l.files) later }
    // So an audit of a `play` ends with 0 or 8, unless a read failed.
    ensures status { (f : PlayFiles) (old new : Contents) (s : Span) (ends : ℕ) →
        IsPlayed f old new → AreKept f old new s.old → IsTrue s.tells →
        IsStatusOf (Audits (audit_of_run f)) s ends →
        (ends ≡ 0) ⊎ (ends ≡ 8) ⊎ ((ends ≡ 2) × IsUnread (ToldRun (audit_of_run f))
        s.old_read_faults s.new_read_faults s.old) }
{}

/// What passes its audit is accounted for, whoever wrote it: all that is known of a run with one
/// feeder and no pool is known of the histories that the journal tells. All their events have one
/// order; each packet that met a queue was released or destroyed exactly once or waits, its ledger
/// line names where it left, and the capture of what is released has exactly the released frames.
pub fn what_passes_its_audit_is_accounted_for()
    ensures told { (a : AuditFiles) (old : Contents) (x : IsAudited a old) →
        AreAccounted 1 1 x.tables x.script x.capture x.histories }
    ensures run { (tables : RuleTables) (script : ScriptValue) (c : Capture) (h : Histories) →
        IsWellFormed h → IsRunOf tables script c h → AreAccounted 1 1 tables script c h }
{
    told_histories_are_accounted_for();
}

/// Judges what the journal tells: `None` where it tells a run on the inputs. Nothing is written.
pub fn audit_files<H: Host>(
    alloc: Global,
    files: &Audit<'_>,
    host: &mut H,
) -> Result<Option<Finding>, Stop>
    ensures ended { IsEnded (Audits (audit_files_of files.now))
        (span H.tells H.content H.read_faults H.write_faults host.old host.new) result }
    ensures judged { IfOk result (λ found. IsTrue (H.tells host.old) →
        IsJudged (audit_files_of files.now) (H.content host.old) found) }
    ensures only { IfOk result (λ found. IsTrue (H.tells host.old) →
        IsOnlyJudged (audit_files_of files.now) (H.content host.old) found) }
    ensures finder { IfOk result (λ found. MayFind (Audits (audit_files_of files.now)) found) }
    ensures files { SameFiles (H.content host.old) (H.content host.new) }
    ensures later { IsLater H.tells H.read_faults H.write_faults host.old host.new }
{
    a_run_passes_its_audit();
    a_run_has_no_finding();
    a_finding_is_the_only_one();
    let told = read_told_run(alloc, files, host)?;
    let made = &told.made;
    let found = audit(
        alloc,
        &made.tables,
        &made.script,
        &made.capture,
        &told.histories,
    )?;
    Ok(found)
}
