//! The parts of being made by a script, one after the other.

ghost use Rattle.std.specs.Prelude.{ℕ, List, length, IfOk};
ghost use Rattle.histories.specs.History.{AreLegal};
ghost use Rattle.run_parts.specs.Log.{Note};
ghost use Rattle.queue_replay.specs.Replays.{IsReplayOf};
ghost use Rattle.journal_audit.specs.Given.{AreGiven, IsSaid};
ghost use Rattle.journal_audit.specs.Parts.{HoldBefore, IsMakersAnswer};

use crate::makers::Walked;
use crate::part::Part;
use feeder_audit::is_fed;
use histories::Histories;
use inspector_script::Script;
use packet_entry::NoMemory;
use pcap_io::Capture;
use port_audit::{
    are_closings, are_notices, are_ports, are_requests, are_roomy, logs_tell_what_ports_did,
};
use queue_replay::Replayed;
use std::alloc::Global;

/// The first part that doesn't hold of legal histories, of whose logs this was found; `None` where
/// the script made them.
pub(crate) fn first_wrong(
    alloc: Global,
    script: &Script,
    capture: &Capture,
    histories: &Histories,
    replayed: &Replayed,
    walked: Walked,
) -> Result<Option<Part>, NoMemory>
    requires legal { AreLegal histories.now.entries }
    requires replayed { IsReplayOf histories.now.entries replayed.now }
    ensures { IfOk result (λ found. (notes : ℕ → List Note) →
        AreGiven script.now histories.now walked notes →
        IsMakersAnswer script.now (length capture.now.frames) histories.now found) }
{
    for &part in &Part::ALL {
        if !holds(alloc, part, script, capture, histories, replayed, walked)? {
            return Ok(Some(part));
        }
    }
    Ok(None)
}

/// Whether a part holds, where those before it do.
fn holds(
    alloc: Global,
    part: Part,
    script: &Script,
    capture: &Capture,
    histories: &Histories,
    replayed: &Replayed,
    walked: Walked,
) -> Result<bool, NoMemory>
    requires legal { AreLegal histories.now.entries }
    requires replayed { IsReplayOf histories.now.entries replayed.now }
    ensures { IfOk result (λ holds. (notes : ℕ → List Note) →
        AreGiven script.now histories.now walked notes →
        HoldBefore script.now (length capture.now.frames) histories.now notes part →
        IsSaid script.now (length capture.now.frames) histories.now notes part holds) }
{
    logs_tell_what_ports_did();
    let _ports = script.ports();
    match part {
        Part::Logs => Ok(walked.logs),
        Part::Requests => are_requests(alloc, script, histories),
        Part::Notices => are_notices(alloc, script, histories, replayed),
        Part::Closings => are_closings(alloc, script, histories, replayed),
        Part::Feeder => is_fed(alloc, script, capture, histories, replayed),
        Part::Ports => Ok(are_ports(script, histories)),
        Part::Order => Ok(walked.order),
        Part::Room => are_roomy(alloc, script, histories, replayed),
    }
}
