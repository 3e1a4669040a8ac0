//! Part: what ports ask as they open comes before all else, and what they ask as they end behind
//! all that was fed, each in the order of the ports.

ghost use Rattle.std.specs.Prelude.{◌≡◌, ◌↔◌, ◌<◌, ◌^◌, ℕ, List, IsTrue, IfOk, OnOk};
ghost use Rattle.std.specs.BTreeMap.{get};
ghost use Rattle.std.specs.Ordering.{nat_cmp};
ghost use Rattle.run_parts.specs.Log.{Note};
ghost use Rattle.run_parts.specs.Order.{Opens, early_by, late_by, late_asked};
ghost use Rattle.run_parts.specs.Ports.{place_in};
ghost use Rattle.run_parts.specs.Run.{OrderHolds};
ghost use Rattle.port_audit.specs.Dealing as dealing;
ghost use Rattle.port_audit.specs.Kinds as kinds;
ghost use Rattle.port_audit.specs.Ranking as ranking;

use crate::dealing::{MessageKind, Rows, Side, take};
use crate::queues::is_queue_number;
use histories::{Entries, Entry, Event, Histories};
use inspector_script::Script;
use packet_entry::NoMemory;
use std::alloc::Global;
use std::collections::BTreeMap;

/// The least ranks that a queue's next entry may have.
#[derive(Clone, Copy, Debug, PartialEq, Eq)]
pub(crate) struct Ranks {
    /// The place of the port that opens; behind all ports, for all else.
    pub(crate) early: usize,
    /// 0 for what is fed; one more than the place of the port that ends.
    pub(crate) late: usize,
}

/// Ranks by the queue's number.
type QueueRanks = BTreeMap<u16, Ranks>;

/// Whether in each queue's history what the ports asked as they opened comes before all else, and
/// what they asked as they ended, and their closings, behind all that was fed, each in the order of
/// the ports. The rows have the kinds of the messages.
pub fn are_ordered(
    alloc: Global,
    script: &Script,
    histories: &Histories,
    rows: Rows<MessageKind>,
) -> Result<bool, NoMemory>
    ensures { IfOk result (λ are. (notes : ℕ → List Note) → kinds.AreKinds script.now notes rows →
        (IsTrue are ↔ OrderHolds 1 script.now histories.now notes)) }
{
    are_in_order(alloc, script.ports(), &histories.entries, rows)
}

/// Whether each queue's history is in order, where the messages of the ports have these kinds.
fn are_in_order(
    alloc: Global,
    ports: &[u32],
    entries: &Entries,
    mut rows: Rows<MessageKind>,
) -> Result<bool, NoMemory>
    ensures { IfOk result (λ are. dealing.AreKept rows →
        (IsTrue are ↔ ranking.AreInOrder ports.now rows entries.now)) }
{
    let mut ranks = BTreeMap::new(alloc);
    for entry in entries {
        is_queue_number(entry.queue);
        let Some(kind) = kind_of_next(entry, &mut rows) else {
            return Ok(false);
        };
        let low = ranks_at(&ranks, entry.queue);
        let Some(next) = ranks_then(ports, low, kind, &entry.event) else {
            return Ok(false);
        };
        put_ranks(entry.queue, next, &mut ranks)?;
    }
    Ok(is_none_left(&rows))
}

/// Whether no kind is left in the rows, none of which is empty.
fn is_none_left(rows: &Rows<MessageKind>) -> bool
    ensures { dealing.AreKept rows.now → (IsTrue result ↔ ranking.NoneLeft rows.now) }
{
    match rows.first_key_value() {
        Some((side, _)) => {
            is_queue_number(side.queue);
            false
        }
        None => true,
    }
}

/// The kind of an entry's message, which is taken from its row; `None` where there is none. An
/// entry that is no request is taken for an answer, which may stand anywhere.
fn kind_of_next(entry: &Entry, rows: &mut Rows<MessageKind>) -> Option<MessageKind>
    ensures { ranking.NextKind entry.now.queue entry.now.event rows.old rows.new result }
{
    match &entry.event {
        Event::Arrive { .. } => Some(MessageKind::Answers),
        Event::Ask { port, .. } => {
            let side = Side {
                port: *port,
                queue: entry.queue,
            };
            take(side, rows)
        }
        Event::PortClosed { .. } => Some(MessageKind::Answers),
        Event::DeviceDown { .. } => Some(MessageKind::Answers),
    }
}

/// The least ranks that a queue's next entry may have.
fn ranks_at(ranks: &QueueRanks, queue: u16) -> Ranks
    ensures early { result.early ≡ ranking.early_at ranks.now queue }
    ensures late { result.late ≡ ranking.late_at ranks.now queue }
{
    match ranks.get(&queue) {
        Some(kept) => *kept,
        None => Ranks { early: 0, late: 0 },
    }
}

/// The ranks after an entry, where it may stand behind these.
fn ranks_then(ports: &[u32], low: Ranks, kind: MessageKind, event: &Event) -> Option<Ranks>
    ensures { result ≡ ranking.ranks_then ports.now low.early low.late (kinds.kind_of kind)
        event.now }
{
    let early = early_rank(ports, kind, event);
    if early < low.early {
        return None;
    }
    let late = late_then(low.late, late_rank(ports, kind, event))?;
    Some(Ranks { early, late })
}

/// The late rank after one of an entry, which may have none; `None` where it is too low.
fn late_then(low: usize, late: Option<usize>) -> Option<usize>
    ensures { result ≡ ranking.late_then low (ranking.late_list late) }
{
    match late {
        None => Some(low),
        Some(late) => { if late < low { None } else { Some(late) } }
    }
}

/// A request of an opening has its port's place; behind all of these comes all else.
fn early_rank(ports: &[u32], kind: MessageKind, event: &Event) -> usize
    ensures { result ≡ early_by ports.now (kinds.kind_of kind) event.now }
{
    match kind {
        MessageKind::Opens => opening_rank(ports, event),
        MessageKind::Answers => ports.len(),
        MessageKind::Ends => ports.len(),
    }
}

/// The rank of an entry whose message, if it has one, is of an opening.
fn opening_rank(ports: &[u32], event: &Event) -> usize
    ensures { result ≡ early_by ports.now Opens event.now }
{
    match event {
        Event::Arrive { .. } => ports.len(),
        Event::Ask { port, .. } => place_in(ports, *port),
        Event::PortClosed { .. } => ports.len(),
        Event::DeviceDown { .. } => ports.len(),
    }
}

/// What is fed comes first, and then the ends and closings by their port's place.
fn late_rank(ports: &[u32], kind: MessageKind, event: &Event) -> Option<usize>
    ensures { ranking.late_list result ≡ late_by ports.now (kinds.kind_of kind) event.now }
{
    match event {
        Event::Arrive { card, .. } => { if card.visit == 1 { Some(0) } else { None } }
        Event::Ask { port, .. } => late_asked(ports, *port, kind),
        Event::PortClosed { port } => Some(place_in(ports, *port) + 1),
        Event::DeviceDown { .. } => Some(0),
    }
}

/// The rank of a port's request among what was fed and the ends.
fn late_asked(ports: &[u32], port: u32, kind: MessageKind) -> Option<usize>
    ensures { ranking.late_list result ≡ late_asked ports.now port (kinds.kind_of kind) }
{
    match kind {
        MessageKind::Opens => None,
        MessageKind::Answers => None,
        MessageKind::Ends => Some(place_in(ports, port) + 1),
    }
}

/// Where a port stands among these; their number, where it isn't one of them.
fn place_in(ports: &[u32], port: u32) -> usize
    ensures place { result ≡ place_in port ports.now }
    ensures below { result < 2 ^ 63 }
{
    let mut place = 0;
    for other in ports {
        if port == *other {
            return place;
        }
        place += 1;
    }
    place
}

/// The next entry of a queue may have these ranks.
fn put_ranks(queue: u16, next: Ranks, ranks: &mut QueueRanks) -> Result<(), NoMemory>
    ensures own { OnOk result (get nat_cmp ranks.new queue ≡ Some next) }
    ensures others { OnOk result (ranking.KeepsRanks queue ranks.old ranks.new) }
{
    ranks.insert(queue, next)?;
    Ok(())
}
