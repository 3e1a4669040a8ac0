//! Entries of several queues, put together by queue.

ghost use Rattle.std.specs.Prelude.{◌≡◌, IfOk};
ghost use Rattle.std.specs.List.{range_with_len};
ghost use Rattle.histories.specs.Grouping.{IsGrouped};
ghost use Rattle.histories.specs.Rearrangement.{AreByQueue, queue_at};

use crate::rearranging::rearrange;
use crate::{Entries, Entry};
use packet_entry::{NoMemory, Sequence};
use std::alloc::{AllocError, Global};

/// Entries by ascending queue number, each queue's in their order. They are moved where they
/// stand: an entry takes 8 bytes more, and out of memory is also the answer for 2^32 of them.
pub fn grouped(entries: Entries) -> Result<Entries, NoMemory>
    ensures { IfOk result (IsGrouped entries) }
{
    let mut list = entries.into_vec();
    // They often ascend as they stand, as those of one queue do.
    if list.is_sorted_by_key(|entry| entry.queue) {
        return Ok(Sequence::from_vec(list));
    }
    let alloc = *list.allocator();
    let mut places = places_by_queue(alloc, &list)?;
    rearrange(alloc, &mut list, &mut places)?;
    Ok(Sequence::from_vec(list))
}

/// The places of entries by ascending queue number, each queue's in their order. Takes 4 bytes an
/// entry, and as much again while it sorts.
fn places_by_queue(alloc: Global, entries: &[Entry]) -> Result<Vec<u32>, NoMemory>
    ensures { IfOk result (λ places. AreByQueue entries.now places.items) }
{
    let Ok(count) = u32::try_from(entries.len()) else {
        return Err(NoMemory);
    };
    let mut places = first_places(alloc, count)?;
    places.sort_by_key(|place| queue_at(entries, *place))?;
    Ok(places)
}

/// The places from 0 on, this many.
fn first_places(alloc: Global, count: u32) -> Result<Vec<u32>, AllocError>
    ensures { IfOk result (λ places. places.items ≡ range_with_len 0 count) }
{
    (0..count).collect(alloc)
}

/// The queue's number of the entry at a place; 0 past the end.
fn queue_at(entries: &[Entry], place: u32) -> u16
    ensures { result ≡ queue_at entries.now place }
{
    entries.get(place as usize).map_or(0, |entry| entry.queue)
}
