//! Laws of a capture's packets, of parts and of findings, each the contract of a function that does
//! nothing or calls the laws that it rests on.

ghost use Rattle.std.specs.Prelude.{◌≡◌, ℕ, List, None, Some};
ghost use Rattle.pcap_io.specs.declared.capture.Capture.{Capture};
ghost use Rattle.hook_chain.specs.Rules.{RuleTables};
ghost use Rattle.histories.specs.declared.entry.Entry.{Entry};
ghost use Rattle.histories.specs.declared.histories.Histories.{Histories};
ghost use Rattle.histories.specs.declared.histories.Lost.{Lost};
ghost use Rattle.histories.specs.Journeys.{AreSound};
ghost use Rattle.inspector_script.specs.Scripts.{ScriptValue};
ghost use Rattle.run_parts.specs.Entering.{cards};
ghost use Rattle.run_parts.specs.Log.{Note};
ghost use Rattle.run_parts.specs.Run.{IsMadeBy};
ghost use Rattle.fate_ledger.specs.Laws.{DifferInNumber};
ghost use Rattle.port_audit.specs.Makers.{none_left};
ghost use Rattle.log_audit.specs.Stays.{ArePackets};
ghost use Rattle.journal_audit.specs.declared.finding.Finding.{Finding};
ghost use Rattle.journal_audit.specs.declared.part.Part.{Part};
ghost use Rattle.journal_audit.specs.Findings as findings;
ghost use Rattle.journal_audit.specs.Parts as parts;

use fate_ledger::what_edits_keep_holds_of_each_that_arrives;
use histories::each_front_of_a_legal_history_is_legal;

/// No two packets of a capture have the same number.
pub fn packets_of_a_capture_differ()
    ensures { (c : Capture) → DifferInNumber (cards c) }
{}

/// In sound histories of a capture's packets, each packet that arrives has a protocol and a link
/// header as packets have them: verdicts change neither.
pub fn packets_of_a_capture_arrive()
    ensures { (tables : RuleTables) (key : ℕ) (c : Capture) (es : List Entry)
        (lost : List Lost) → AreSound tables key (cards c) es lost → ArePackets es }
{
    what_edits_keep_holds_of_each_that_arrives();
}

/// Histories are a run of a script exactly where each part holds of what each port did, told in
/// full. So no answer is given both ways.
pub fn a_run_is_all_its_parts()
    ensures each { (script : ScriptValue) (frames : ℕ) (h : Histories) (notes : ℕ → List Note) →
        IsMadeBy 1 1 script frames h notes none_left → (part : Part) →
        parts.Holds script frames h notes part }
    ensures all { (script : ScriptValue) (frames : ℕ) (h : Histories) (notes : ℕ → List Note) →
        ((part : Part) → parts.Holds script frames h notes part) →
        IsMadeBy 1 1 script frames h notes none_left }
    ensures never_both { (script : ScriptValue) (frames : ℕ) (h : Histories) (part : Part) →
        parts.IsMakersAnswer script frames h None →
        parts.IsMakersAnswer script frames h (Some part) → ⊥ }
{}

/// Nothing is found of a run.
pub fn a_run_has_no_finding()
    ensures { (tables : RuleTables) (script : ScriptValue) (c : Capture) (h : Histories)
        (f : Finding) → findings.IsRunOf tables script c h →
        findings.IsFound tables script c h f → ⊥ }
{
    a_run_is_all_its_parts();
}

/// Of histories that aren't those of a run just one thing is found.
pub fn a_finding_is_the_only_one()
    ensures { (tables : RuleTables) (script : ScriptValue) (c : Capture) (h : Histories)
        (f g : Finding) → findings.IsFound tables script c h f →
        findings.IsFound tables script c h g → f ≡ g }
{
    each_front_of_a_legal_history_is_legal();
    a_run_is_all_its_parts();
}
