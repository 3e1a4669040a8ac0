//! What is told of each port and each queue, in rows of which the first is taken again and again.

ghost use Rattle.std.specs.BTreeMap.{get};
ghost use Rattle.std.specs.Prelude.{◌≡◌, ◌↔◌, [], IsSome, IsTrue, OnOk};
ghost use Rattle.port_audit.specs.Dealing as dealing;

use packet_entry::{NoMemory, Sequence};
use std::alloc::Global;
use std::collections::BTreeMap;

/// A port and a queue.
#[derive(Clone, Copy, Debug, PartialEq, Eq, PartialOrd, Ord)]
pub struct Side {
    /// The port.
    pub port: u32,
    /// The queue's number.
    pub queue: u16,
}

/// Rows by port and queue. None that is kept is empty.
pub type Rows<T> = BTreeMap<Side, Sequence<T>>;

/// When a port sent a message.
#[derive(Clone, Copy, Debug, PartialEq, Eq)]
pub enum MessageKind {
    /// As it opened.
    Opens,
    /// In answer to a notice.
    Answers,
    /// At its end.
    Ends,
}

/// Puts an item at the end of a row. When memory runs out, the rows may be any.
#[tactic(auto, using(crate::proofs::Rows::pushed))]
pub fn push<T: Drop>(alloc: Global, side: Side, item: T, rows: &mut Rows<T>) -> Result<(), NoMemory>
    ensures { OnOk result (dealing.Pushes side item rows.old rows.new) }
{
    open_row(alloc, side, rows)?;
    push_into(side, item, rows)
}

/// A row is there, which may be empty.
fn open_row<T: Drop>(alloc: Global, side: Side, rows: &mut Rows<T>) -> Result<(), NoMemory>
    ensures { OnOk result (dealing.Opens side rows.old rows.new) }
{
    if !rows.contains_key(&side) {
        rows.insert(side, Sequence::new(alloc))?;
    }
    Ok(())
}

/// Puts an item at the end of a row that is there.
fn push_into<T: Drop>(side: Side, item: T, rows: &mut Rows<T>) -> Result<(), NoMemory>
    requires there { IsSome (get dealing.side_cmp rows.old side) }
    ensures { OnOk result (dealing.Pushes side item rows.old rows.new) }
{
    let Some(row) = rows.get_mut(&side) else {
        unreachable!()
    };
    let Ok(()) = row.push(item) else {
        return Err(NoMemory);
    };
    Ok(())
}

/// Takes the first item of a row; `None` where there is none.
pub(crate) fn take<T: Drop>(side: Side, rows: &mut Rows<T>) -> Option<T>
    ensures { dealing.IsTaken side rows.old rows.new result }
{
    let first = take_first(side, rows);
    if is_left(side, rows) {
        rows.remove(&side);
    }
    first
}

/// Takes the first item of a row, which may be left empty.
fn take_first<T: Drop>(side: Side, rows: &mut Rows<T>) -> Option<T>
    ensures { dealing.TakesFirst side rows.old rows.new result }
{
    match rows.get_mut(&side) {
        Some(row) => row.take_first(),
        None => None,
    }
}

/// Whether a row is kept that is empty.
fn is_left<T>(side: Side, rows: &Rows<T>) -> bool
    ensures { result ≡ dealing.is_left side rows.now }
{
    match rows.get(&side) {
        Some(row) => row.is_empty(),
        None => false,
    }
}

/// Whether nothing is in the rows, none of which is empty.
pub(crate) fn are_empty<T>(rows: &Rows<T>) -> bool
    ensures { dealing.AreKept rows.now →
        (IsTrue result ↔ ((s : Side) → dealing.row_at rows.now s ≡ [])) }
{
    rows.is_empty()
}
