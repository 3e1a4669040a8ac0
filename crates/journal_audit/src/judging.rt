//! The four checks of a journal, one after the other.

ghost use Rattle.std.specs.Prelude.{◌≡◌, ◌↔◌, ◌+◌, ◌<◌, ◌^◌, [], None, length, IfOk};
ghost use Rattle.journal_audit.specs.Findings as findings;

use crate::finding::Finding;
use crate::first_illegal::find_illegal;
use crate::laws::a_run_has_no_finding;
use crate::makers::find_amiss;
use histories::Histories;
use hook_chain::Tables;
use inspector_script::Script;
use journey_audit::follow_journeys;
use order_audit::has_total_order;
use packet_entry::NoMemory;
use pcap_io::Capture;
use std::alloc::Global;

/// Whether the histories are those of a run of this script over this capture, under these rules,
/// with one inspector behind each port and one feeder: `None` exactly where they are. Otherwise
/// what the first check found that says no: of each queue's history, of the packets' journeys, of
/// the ports and the feeder, or of the order of all events.
///
/// `NoMemory` comes also where 2^32 packets wait at one queue, a packet has 4 gigabytes or more, a
/// history has 2^64 entries, or a log has 2^32 messages.
pub fn audit(
    alloc: Global,
    tables: &Tables,
    script: &Script,
    capture: &Capture,
    histories: &Histories,
) -> Result<Option<Finding>, NoMemory>
    requires frames { length capture.now.frames + 1 < 2 ^ 32 }
    requires nothing_lost { histories.now.lost ≡ [] }
    ensures found { IfOk result
        (findings.IsAnswer tables.now script.now capture.now histories.now) }
    ensures none { IfOk result (λ found. (found ≡ None)
        ↔ findings.IsRunOf tables.now script.now capture.now histories.now) }
{
    a_run_has_no_finding();
    let followed = follow_journeys(alloc, tables, script.key(), capture, histories)?;
    if let Some(place) = find_illegal(alloc, histories, &followed.replayed)? {
        return Ok(Some(Finding::Entry { place }));
    }
    if let Some(number) = followed.unmet {
        return Ok(Some(Finding::Record { number }));
    }
    if let Some(part) = find_amiss(alloc, script, capture, histories, &followed.replayed)? {
        return Ok(Some(Finding::Makers { part }));
    }
    if has_total_order(alloc, histories, &followed.replayed)? {
        Ok(None)
    } else {
        Ok(Some(Finding::Order))
    }
}
