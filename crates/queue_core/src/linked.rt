//! Packets in a map by id, each with the ids of its neighbours.

ghost use Rattle.std.specs.Prelude.{◌≡◌, ◌+◌, ℕ, length, None, is_none, if◌then◌else◌};
ghost use Rattle.std.specs.Prelude.{IfErr, OnOk, OnErr};
ghost use Rattle.queue_core.specs.Linked.{entry_at, put_at, younger_given, older_given};

use packet_entry::Packet;
use std::collections::BTreeMap;

/// Packets by id.
pub(crate) type ById = BTreeMap<u32, Linked>;

/// A packet, and the ids of its neighbours.
pub(crate) struct Linked {
    pub(crate) packet: Packet,
    /// The id of the packet before it, which the oldest hasn't got.
    pub(crate) older: Option<u32>,
    /// The id of the packet after it, which the youngest hasn't got.
    pub(crate) younger: Option<u32>,
}

/// Puts a packet under an id that is free, behind `older` and with none behind it. Where there is
/// no memory, it comes back.
pub(crate) fn put_youngest(
    by_id: &mut ById,
    id: u32,
    packet: Packet,
    older: Option<u32>,
) -> Result<(), Packet>
    requires free { entry_at by_id.old.entries id ≡ None }
    ensures each { OnOk result ((other : ℕ) →
        entry_at by_id.new.entries other
        ≡ put_at id packet older other (entry_at by_id.old.entries other)) }
    ensures one_more { OnOk result (length by_id.new.entries ≡ length by_id.old.entries + 1) }
    ensures err { OnErr result (by_id.new.entries ≡ by_id.old.entries) }
    ensures returned { IfErr result (λ back. back ≡ packet) }
{
    let linked = Linked {
        packet,
        older,
        younger: None,
    };
    match by_id.insert(id, linked) {
        Ok(before) => match before {
            None => Ok(()),
            Some(_) => unreachable!(),
        },
        Err(failed) => {
            let (_, linked) = failed.value;
            let Linked {
                packet,
                older: _,
                younger: _,
            } = linked;
            Err(packet)
        }
    }
}

/// Lets `younger` stand after `older`, in whose entry it is named; where there is no `older`, it is
/// the oldest of all. Takes no memory.
pub(crate) fn name_younger(
    by_id: &mut ById,
    oldest: &mut Option<u32>,
    older: Option<u32>,
    younger: Option<u32>,
)
    ensures each { (id : ℕ) →
        entry_at by_id.new.entries id
        ≡ younger_given older younger id (entry_at by_id.old.entries id) }
    ensures as_many { length by_id.new.entries ≡ length by_id.old.entries }
    ensures oldest { oldest.new ≡ (if is_none older then younger else oldest.old) }
{
    match older {
        None => *oldest = younger,
        Some(older) => {
            if let Some(linked) = by_id.get_mut(&older) {
                linked.younger = younger;
            }
        }
    }
}

/// Lets `older` stand before `younger`, in whose entry it is named; where there is no `younger`, it
/// is the youngest of all. Takes no memory.
pub(crate) fn name_older(
    by_id: &mut ById,
    youngest: &mut Option<u32>,
    younger: Option<u32>,
    older: Option<u32>,
)
    ensures each { (id : ℕ) →
        entry_at by_id.new.entries id
        ≡ older_given younger older id (entry_at by_id.old.entries id) }
    ensures as_many { length by_id.new.entries ≡ length by_id.old.entries }
    ensures youngest { youngest.new ≡ (if is_none younger then older else youngest.old) }
{
    match younger {
        None => *youngest = older,
        Some(younger) => {
            if let Some(linked) = by_id.get_mut(&younger) {
                linked.older = older;
            }
        }
    }
}
