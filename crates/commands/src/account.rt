//! The histories of a run, and what is known of them.

ghost use Rattle.std.specs.Prelude.{◌≤◌, ℕ, List, length, All, IfOk};
ghost use Rattle.hook_chain.specs.Rules.{RuleTables};
ghost use Rattle.inspector_script.specs.Scripts.{ScriptValue, IsScript};
ghost use Rattle.packet_entry.specs.Numbers.{longest_packet};
ghost use Rattle.pcap_io.specs.declared.capture.Capture.{Capture as ACapture};
ghost use Rattle.pcap_io.specs.Text.{IsHeld};
ghost use Rattle.histories.specs.declared.entry.Entry.{Entry as AnEntry};
ghost use Rattle.histories.specs.declared.histories.Histories.{Histories as AHistories};
ghost use Rattle.histories.specs.Grouping.{IsGrouped};
ghost use Rattle.histories.specs.History.{AreLegal};
ghost use Rattle.histories.specs.Journeys.{AreSound};
ghost use Rattle.histories.specs.Lengths.{AreShort};
ghost use Rattle.run_parts.specs.Entering.{cards};
ghost use Rattle.solo_schedule.specs.Schedule.{IsSolo};
ghost use Rattle.fate_ledger.specs.Released.{released};
ghost use Rattle.solo_run.specs.Numbers.{most_frames};
ghost use Rattle.journals.specs.WellFormed.{IsWellFormed};
ghost use Rattle.commands.specs.Account.{AreAccounted, IsAccounted};
ghost use Rattle.run_files.specs.Outputs.{fates_of};
ghost use Rattle.journal_audit.specs.Findings.{IsRunBy};
ghost use Rattle.journals.specs.WellFormed.{Fit};

use fate_ledger::{
    each_line_names_the_last_event, no_visit_arrives_twice, payloads_were_read_or_given,
    released_frames_are_those_let_go, the_last_event_is_where_it_left_or_waits,
    what_left_last_is_over,
};
use histories::{Histories, each_packet_waits_is_lost_or_is_over};
use hook_chain::Tables;
use inspector_script::Script;
use journal_audit::packets_of_a_capture_differ;
use journals::histories_fit;
use packet_entry::NoMemory;
use pcap_io::Capture;
use queue_core::replies_tell_how_many_left;
use run_parts::{each_log_is_what_is_told, packets_are_read_with_their_frames};
use solo_run::solo;
use solo_schedule::{
    a_schedule_has_one_run, no_notice_is_left, one_order_of_all_events,
    packets_and_payloads_are_within_bounds,
};
use std::alloc::Global;

/// Runs a script over the packets of a capture, each of which is accounted for in the histories.
/// What is released can be written as a capture.
pub fn histories_of(
    alloc: Global,
    script: &Script,
    tables: Tables,
    capture: &Capture,
) -> Result<Histories, NoMemory>
    requires script { IsScript script.now }
    requires held { IsHeld capture.now }
    requires frames { length capture.now.frames ≤ most_frames }
    ensures account { IfOk result (IsAccounted tables script.now capture.now) }
    ensures fit { IfOk result
        (λ h. All (λ l. length l.payload ≤ longest_packet) (fates_of capture.now h)) }
    ensures held { IfOk result (λ h. IsHeld (released capture.now (fates_of capture.now h))) }
{
    each_packet_is_accounted_for();
    released_frames_can_be_written();
    packets_and_payloads_are_within_bounds();
    let histories = solo(alloc, script, tables, capture)?;
    histories_fit(&histories);
    Ok(histories)
}

/// Each packet of a run is accounted for, over every script, rules and capture, however many
/// workers and feeders made it: where its histories stand by queue and fit their fields.
pub(crate) fn a_run_is_accounted_for()
    ensures { (workers feeders : ℕ) (tables : RuleTables) (script : ScriptValue) (c : ACapture)
        (h : AHistories) (es : List AnEntry) → IsScript script → Fit h → IsGrouped es h.entries →
        IsRunBy workers feeders tables script c h →
        AreAccounted workers feeders tables script c h }
{
    each_log_is_what_is_told();
    replies_tell_how_many_left();
    told_histories_are_accounted_for();
}

/// The same of histories that a journal tells, whoever wrote it.
pub(crate) fn told_histories_are_accounted_for()
    ensures { (workers feeders : ℕ) (tables : RuleTables) (script : ScriptValue) (c : ACapture)
        (h : AHistories) → IsWellFormed h → IsRunBy workers feeders tables script c h →
        AreAccounted workers feeders tables script c h }
{
    packets_of_a_capture_differ();
    each_line_names_the_last_event();
    the_last_event_is_where_it_left_or_waits();
    what_left_last_is_over();
    no_visit_arrives_twice();
    each_packet_waits_is_lost_or_is_over();
    released_frames_are_those_let_go();
}

/// What is written of a run of packets of a capture that the format can hold can be written again:
/// the payloads of its fates, and the capture of what is released.
pub(crate) fn released_frames_can_be_written()
    ensures fit { (tables : RuleTables) (script : ScriptValue) (c : ACapture) (h : AHistories) →
        IsHeld c → AreShort h.entries → AreSound tables script.key (cards c) h.entries h.lost →
        All (λ l. length l.payload ≤ longest_packet) (fates_of c h) }
    ensures held { (tables : RuleTables) (script : ScriptValue) (c : ACapture) (h : AHistories) →
        IsHeld c → AreShort h.entries → AreSound tables script.key (cards c) h.entries h.lost →
        IsHeld (released c (fates_of c h)) }
{
    packets_are_read_with_their_frames();
    payloads_were_read_or_given();
}

/// Over every script, rules and capture, each packet of the schedule's histories is accounted for,
/// where they are legal and sound and each value fits its field: and those that
/// `solo_run::solo` answers are and do.
fn each_packet_is_accounted_for()
    ensures { (tables : RuleTables) (script : ScriptValue) (c : ACapture)
        (h : AHistories) → IsScript script → IsSolo script tables c h → AreLegal h.entries →
        Fit h → AreSound tables script.key (cards c) h.entries h.lost →
        IsAccounted tables script c h }
{
    a_schedule_has_one_run();
    one_order_of_all_events();
    no_notice_is_left();
    a_run_is_accounted_for();
}
