//! The names of the machine in memory.

ghost use Rattle.std.specs.Prelude.{◌≡◌, ◌-◌, ◌≤◌, length, take, option_copied, unwrap_or};
ghost use Rattle.std.specs.Prelude.{OnOk, OnErr, None};
ghost use Rattle.std.specs.List.{find, position};
ghost use Rattle.host_io.specs.Host.{MayGoOn};
ghost use Rattle.host_io.specs.Machine.{is_named, bare_entry, content_among, room_among, changed};
ghost use Rattle.host_io.specs.Machine.{changed_or_new, holding, with_fault, shared_raised, stored};

use crate::entry::{Call, Entry, Faults, Held};
use std::alloc::{AllocError, Global};

/// The place of a name's entry.
fn place_of(entries: &[Entry], name: &str) -> Option<usize>
    ensures { result ≡ position (is_named name.now) entries.now }
{
    entries.iter().position(|entry| entry.is_named(name))
}

/// The bytes of the named file, if there is one.
pub(crate) fn content_in<'a>(entries: &'a [Entry], name: &str) -> Option<&'a [u8]>
    ensures { option_copied result ≡ content_among entries.now name.now }
{
    match place_of(entries, name) {
        Some(i) => entries[i].content(),
        None => None,
    }
}

/// The room of a name, if it was ever given one.
pub(crate) fn room_in(entries: &[Entry], name: &str) -> Option<u64>
    ensures { result ≡ room_among entries.now name.now }
{
    match place_of(entries, name) {
        Some(i) => entries[i].room(),
        None => None,
    }
}

/// Makes a name hold this too. It gets a new entry with these counts if it has none.
pub(crate) fn hold_in(
    alloc: Global,
    entries: &mut Vec<Entry>,
    name: &str,
    faults: Faults,
    held: Held<'_>,
) -> Result<(), AllocError>
    ensures ok { OnOk result (entries.new.items ≡ changed_or_new entries.old.items
        (bare_entry name.now faults.read faults.write) (holding held.entry)) }
    ensures err { OnErr result (entries.new.items ≡ entries.old.items) }
{
    match place_of(entries, name) {
        Some(i) => {
            let entry = &mut entries[i];
            entry.hold(held)
        }
        None => {
            let mut entry = Entry::new(alloc, name, faults)?;
            entry.hold(held)?;
            Ok(entries.push(entry)?)
        }
    }
}

/// Raises the count of failed calls of this kind that a name has, or the one that it shares.
pub(crate) fn count_fault(entries: &mut [Entry], name: &str, others: &mut u64, call: Call)
    ensures entries { entries.new ≡ changed entries.old name.now (with_fault call) }
    ensures others { others.new ≡ shared_raised (find (is_named name.now) entries.old) others.old }
{
    match place_of(entries, name) {
        Some(i) => {
            let entry = &mut entries[i];
            entry.count_fault(call);
        }
        None => *others = others.saturating_add(1),
    }
}

/// Stores the first `count` bytes of the piece at place `at` of the named file, if the name has an
/// entry. What stood from `at` on is cut off, even where `count` is 0.
pub(crate) fn store_in(entries: &mut [Entry], name: &str, at: u64, piece: &[u8], count: usize)
    requires at { MayGoOn (content_among entries.old name.now) at }
    requires count { count ≤ length piece.now }
    requires room { count ≤ unwrap_or (room_among entries.old name.now) 0 - at }
    ensures { entries.new ≡ changed entries.old name.now
        (stored at piece.now (take count piece.now)) }
{
    if let Some(i) = place_of(entries, name) {
        let entry = &mut entries[i];
        entry.store(at, piece, count);
    }
}
