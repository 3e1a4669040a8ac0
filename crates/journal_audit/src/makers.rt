//! Whether a script made the histories: part by part, up to the first that doesn't hold.

ghost use Rattle.std.specs.Prelude.{◌≡◌, ℕ, List, [], length, IfOk};
ghost use Rattle.hook_chain.specs.Rules.{RuleTables};
ghost use Rattle.histories.specs.History.{AreLegal};
ghost use Rattle.histories.specs.Journeys.{AreSound};
ghost use Rattle.run_parts.specs.Entering.{cards};
ghost use Rattle.run_parts.specs.Log.{Note};
ghost use Rattle.queue_replay.specs.Replays.{IsReplayOf};
ghost use Rattle.port_audit.specs.Noticing.{ArriveOnce};
ghost use Rattle.log_audit.specs.Stays.{ArePackets};
ghost use Rattle.journal_audit.specs.Given.{AreGiven};
ghost use Rattle.journal_audit.specs.Parts.{IsMakersAnswer};

use crate::laws::{packets_of_a_capture_arrive, packets_of_a_capture_differ};
use crate::part::Part;
use crate::parts::first_wrong;
use fate_ledger::no_visit_arrives_twice;
use histories::Histories;
use inspector_script::Script;
use log_audit::{Judged, judge_logs, one_arrival_makes_one_notice};
use packet_entry::NoMemory;
use pcap_io::Capture;
use port_audit::are_ordered;
use queue_replay::{Replayed, replay_all};
use std::alloc::Global;

/// What a walk over the ports' logs finds.
#[derive(Clone, Copy, Debug, PartialEq, Eq)]
pub(crate) struct Walked {
    /// Whether each log is what the script says.
    pub(crate) logs: bool,
    /// Whether the requests that they tell are in the script's order.
    pub(crate) order: bool,
}

/// The first part that doesn't hold of legal and sound histories of this capture's packets, in
/// which nothing is lost: `None` exactly where the script made them, with one feeder and one
/// inspector behind each port.
pub fn check_makers(
    alloc: Global,
    script: &Script,
    capture: &Capture,
    histories: &Histories,
) -> Result<Option<Part>, NoMemory>
    requires legal { AreLegal histories.now.entries }
    requires nothing_lost { histories.now.lost ≡ [] }
    requires sound { (tables : RuleTables) × (key : ℕ)
        × AreSound tables key (cards capture.now) histories.now.entries [] }
    ensures { IfOk result (IsMakersAnswer script.now (length capture.now.frames) histories.now) }
{
    let replayed = replay_all(alloc, &histories.entries)?;
    find_amiss(alloc, script, capture, histories, &replayed)
}

/// The same, of histories that were replayed.
pub fn find_amiss(
    alloc: Global,
    script: &Script,
    capture: &Capture,
    histories: &Histories,
    replayed: &Replayed,
) -> Result<Option<Part>, NoMemory>
    requires legal { AreLegal histories.now.entries }
    requires nothing_lost { histories.now.lost ≡ [] }
    requires sound { (tables : RuleTables) × (key : ℕ)
        × AreSound tables key (cards capture.now) histories.now.entries [] }
    requires replayed { IsReplayOf histories.now.entries replayed.now }
    ensures { IfOk result (IsMakersAnswer script.now (length capture.now.frames) histories.now) }
{
    packets_of_a_capture_arrive();
    packets_of_a_capture_differ();
    no_visit_arrives_twice();
    let walked = walk_logs(alloc, script, histories, replayed)?;
    first_wrong(alloc, script, capture, histories, replayed, walked)
}

/// Walks over the ports' logs, and judges the order in which they tell requests.
fn walk_logs(
    alloc: Global,
    script: &Script,
    histories: &Histories,
    replayed: &Replayed,
) -> Result<Walked, NoMemory>
    requires once { ArriveOnce histories.now.entries }
    requires packets { ArePackets histories.now.entries }
    requires replayed { IsReplayOf histories.now.entries replayed.now }
    ensures { IfOk result (λ walked. (notes : ℕ → List Note)
        × AreGiven script.now histories.now walked notes) }
{
    one_arrival_makes_one_notice();
    match judge_logs(alloc, script, histories, replayed)? {
        Judged::Said { kinds } => {
            let order = are_ordered(alloc, script, histories, kinds)?;
            Ok(Walked { logs: true, order })
        }
        Judged::Amiss => Ok(Walked {
            logs: false,
            order: false,
        }),
        Judged::Foreign => unreachable!(),
    }
}
