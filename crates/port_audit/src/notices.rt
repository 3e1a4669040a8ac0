//! Part: each port received the notices of the arrivals that its queues took, in their order.

ghost use Rattle.std.specs.Prelude.{◌≡◌, ◌≢◌, ◌↔◌, ℕ, List, AllPairs, option_to_list, IsTrue};
ghost use Rattle.std.specs.Prelude.{[], IfOk, OnOk};
ghost use Rattle.run_parts.specs.Log.{Note};
ghost use Rattle.run_parts.specs.Run.{NoticesHold};
ghost use Rattle.queue_replay.specs.Replays.{AreFound, IsReplayOf};
ghost use Rattle.port_audit.specs.Dealing as dealing;
ghost use Rattle.port_audit.specs.Makers.{none_left};
ghost use Rattle.port_audit.specs.Noticing as noticing;
ghost use Rattle.port_audit.specs.Told.{AreTold};

use crate::dealing::{Rows, Side, are_empty, push, take};
use crate::logs::{is_among, log_of};
use histories::{Did, Dids, Entries, Entry, Event, Histories, Logs, Reply};
use inspector_script::Script;
use packet_entry::{NoMemory, Sequence};
use queue_core::Outcome;
use queue_replay::{Found, Replayed, next_found};
use std::alloc::Global;
use std::collections::BTreeMap;

/// A packet's visit to a queue.
#[derive(Clone, Copy, Debug, PartialEq, Eq)]
pub(crate) struct Visit {
    /// The packet's number.
    pub(crate) number: u32,
    /// Which of its visits this is, counted from 1.
    pub(crate) visit: u32,
}

/// Whether each port of the script received the notices of all arrivals that its queues took while
/// they were bound to it, of each queue in their order, and no others. It is told of a notice just
/// which one it is.
pub fn are_notices(
    alloc: Global,
    script: &Script,
    histories: &Histories,
    replayed: &Replayed,
) -> Result<bool, NoMemory>
    requires { IsReplayOf histories.now.entries replayed.now }
    ensures { IfOk result (λ are. (notes : ℕ → List Note) →
        AreTold script.now histories.now notes →
        noticing.AreOnlyOnes script.now histories.now notes →
        (IsTrue are ↔ NoticesHold script.now histories.now notes none_left)) }
{
    let ports = script.ports();
    let rows = deal_all(alloc, ports, &histories.logs)?;
    Ok(are_taken(ports, &histories.entries, &replayed.found, rows))
}

/// The notices that these ports received, which differ from each other.
fn deal_all(alloc: Global, ports: &[u32], logs: &Logs) -> Result<Rows<Visit>, NoMemory>
    requires differ { AllPairs (λ p q. p ≢ q) ports.now }
    ensures { IfOk result (dealing.AreDealt ports.now (noticing.visits_told logs.now)) }
{
    let mut rows = BTreeMap::new(alloc);
    for port in ports {
        deal_log(alloc, logs, *port, &mut rows)?;
    }
    Ok(rows)
}

/// The notices of a port's log are put into the rows.
fn deal_log(alloc: Global, logs: &Logs, port: u32, rows: &mut Rows<Visit>) -> Result<(), NoMemory>
    ensures grows { OnOk result (dealing.GrowsBy port (noticing.visits_told logs.now port)
        rows.old rows.new) }
    ensures kept { OnOk result (dealing.AreKept rows.old → dealing.AreKept rows.new) }
{
    match log_of(logs, port) {
        Some(dids) => deal(alloc, port, dids, rows),
        None => Ok(()),
    }
}

/// The notices that one port received are put into the rows.
fn deal(alloc: Global, port: u32, dids: &Dids, rows: &mut Rows<Visit>) -> Result<(), NoMemory>
    ensures grows { OnOk result (dealing.GrowsBy port (λ queue. noticing.visits_in queue dids.now)
        rows.old rows.new) }
    ensures kept { OnOk result (dealing.AreKept rows.old → dealing.AreKept rows.new) }
{
    for did in dids {
        deal_one(alloc, port, did, rows)?;
    }
    Ok(())
}

/// What a port received is put into its row.
fn deal_one(alloc: Global, port: u32, did: &Did, rows: &mut Rows<Visit>) -> Result<(), NoMemory>
    ensures grows { OnOk result (dealing.GrowsBy port (λ queue. noticing.visits_by queue did.now)
        rows.old rows.new) }
    ensures kept { OnOk result (dealing.AreKept rows.old → dealing.AreKept rows.new) }
{
    match did {
        Did::Received {
            queue,
            number,
            visit,
        } => {
            let side = Side {
                port,
                queue: *queue,
            };
            let visit = Visit {
                number: *number,
                visit: *visit,
            };
            push(alloc, side, visit, rows)?;
            Ok(())
        }
        Did::Sent { .. } => Ok(()),
        Did::Closed => Ok(()),
    }
}

/// Whether the queues' arrivals bring just what is in the rows.
fn are_taken(
    ports: &[u32],
    entries: &Entries,
    found: &Sequence<Found>,
    mut rows: Rows<Visit>,
) -> bool
    requires { AreFound [] entries.now found.now }
    ensures { (told : ℕ → ℕ → List Visit) → dealing.AreDealt ports.now told rows →
        (IsTrue result
        ↔ dealing.AreMet ports.now told (noticing.visits_under ports.now) entries.now) }
{
    let mut found = found.iter();
    for entry in entries {
        let here = next_found(&mut found);
        if !meets_next(ports, here.port, entry, &mut rows) {
            return false;
        }
    }
    are_empty(&rows)
}

/// Whether an entry at a queue of this port brings nothing, or brings the first of its row. Then
/// that is taken.
#[tactic(auto, using(crate::proofs::Visits::next_none, crate::proofs::Visits::next_some))]
fn meets_next(ports: &[u32], port: Option<u32>, entry: &Entry, rows: &mut Rows<Visit>) -> bool
    ensures { noticing.MeetsNext ports.now port entry.now rows.old rows.new result }
{
    match brought(ports, port, entry) {
        None => true,
        Some((port, visit)) => {
            let side = Side {
                port,
                queue: entry.queue,
            };
            meets(side, visit, rows)
        }
    }
}

/// The visit that an entry brings, if it brings one, and the port: it is that to which the queue is
/// bound, where it is one of these.
fn brought(ports: &[u32], port: Option<u32>, entry: &Entry) -> Option<(u32, Visit)>
    ensures { noticing.BringsAt ports.now port entry.now result }
{
    let port = port?;
    if !is_among(ports, port) {
        return None;
    }
    match visit_taken(&entry.event, entry.reply) {
        Some(visit) => Some((port, visit)),
        None => None,
    }
}

/// The visit of an arrival that was taken.
fn visit_taken(event: &Event, reply: Reply) -> Option<Visit>
    ensures { option_to_list result ≡ noticing.visits_of_event event.now reply }
{
    match (event, reply) {
        (
            Event::Arrive { card, .. },
            Reply::Arrived {
                outcome: Outcome::Taken { .. },
            },
        ) => Some(Visit {
            number: card.number,
            visit: card.visit,
        }),
        _ => None,
    }
}

/// Whether the first of a row is this visit. Then it is taken.
fn meets(side: Side, visit: Visit, rows: &mut Rows<Visit>) -> bool
    ensures { dealing.IsMet side visit rows.old rows.new result }
{
    let told = take(side, rows);
    is_visit(told, visit)
}

/// Whether a visit is this one.
fn is_visit(told: Option<Visit>, visit: Visit) -> bool
    ensures { result ≡ noticing.is_visit told visit }
{
    match told {
        Some(told) => told.number == visit.number && told.visit == visit.visit,
        None => false,
    }
}
