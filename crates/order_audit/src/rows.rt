//! The entries that are left of each queue's history, by their places among all entries.

ghost use Rattle.std.specs.Prelude.{◌≡◌, ℕ, [], OnOk, IfOk};
ghost use Rattle.histories.specs.History.{history};
ghost use Rattle.order_audit.specs.Rows as row;

use histories::Entries;
use packet_entry::{NoMemory, Sequence};
use std::alloc::Global;
use std::collections::BTreeMap;

/// Places by the queue's number.
pub(crate) type Rows = BTreeMap<u16, Sequence<usize>>;

/// All entries.
pub(crate) fn rows_of(alloc: Global, entries: &Entries) -> Result<Rows, NoMemory>
    ensures { IfOk result (λ all. (queue : ℕ) →
        row.AreAt entries.now queue [] (row.places_of all queue) (history queue entries.now)) }
{
    let mut rows = BTreeMap::new(alloc);
    for place in 0..entries.len() {
        let Some(entry) = entries.get(place) else {
            unreachable!()
        };
        lengthen(alloc, entry.queue, place, &mut rows)?;
    }
    Ok(rows)
}

/// Appends a place of a queue.
fn lengthen(alloc: Global, queue: u16, place: usize, rows: &mut Rows) -> Result<(), NoMemory>
    ensures { OnOk result (row.Lengthens rows.old rows.new queue place) }
{
    if !rows.contains_key(&queue) {
        rows.insert(queue, Sequence::new(alloc))?;
    }
    let Some(row) = rows.get_mut(&queue) else {
        unreachable!()
    };
    let Ok(()) = row.push(place) else {
        return Err(NoMemory);
    };
    Ok(())
}

/// The place of the first entry that is left of a queue's history.
pub(crate) fn first(rows: &Rows, queue: u16) -> Option<usize>
    ensures { result ≡ row.first_in (row.places_of rows.now queue) }
{
    match rows.get(&queue) {
        Some(row) => match row.get(0) {
            Some(place) => Some(*place),
            None => None,
        },
        None => None,
    }
}

/// The first of a queue is gone.
pub(crate) fn shorten(queue: u16, rows: &mut Rows)
    ensures { row.Shortens rows.old rows.new queue }
{
    if let Some(row) = rows.get_mut(&queue) {
        row.take_first();
    }
}
