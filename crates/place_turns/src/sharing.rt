//! Passes that are split off others, and passes that are joined into others. Neither waits, and
//! joining takes no memory.

ghost use Rattle.std.specs.Prelude.{◌≡◌, ◌≢◌, ◌<◌, ◌+◌, ◌^◌, ℕ, [], length, map, IfOk, OnOk, OnErr};
ghost use Rattle.std.specs.Prelude.{Some, None, IsSome, IfSome, IfNone};
ghost use Rattle.std.specs.BTreeMap.{get, btree_map_len};
ghost use Rattle.std.specs.Ordering.{nat_cmp};
ghost use Rattle.turn_lock.specs.Views.{kept_view, split_view};
ghost use Rattle.place_rows.specs.Joining.{RowJoined};
ghost use Rattle.place_rows.specs.Rows.{TurnsOne};
ghost use Rattle.place_turns.specs.Counts.{count_of, AreZeroed, HaveZeros, CanAdd, AreSums};
ghost use Rattle.place_turns.specs.Counts.{CanAddAt, CanAddAll, AreAllSums};
ghost use Rattle.place_turns.specs.Timely.{Holder, AreTimelyOpen, feeder};

use crate::passes::{Counts, Passes};
use crate::places::Places;
use histories::Lost;
use packet_entry::{NoMemory, Stock};
use place_rows::{
    join_row, joined_rows_have_what_both_had, rows_know_the_same_without_times, split_row,
};
use std::alloc::Global;
use std::collections::BTreeMap;
use std::mem::replace;
use turn_lock::merged_places_are_those_of_both;

/// Counts no notice yet for a port.
fn put_zero(counts: &mut Counts, port: u32) -> Result<(), NoMemory>
    ensures own { OnOk result (get nat_cmp counts.new port ≡ Some 0) }
    ensures others { OnOk result ((p : ℕ) → p ≢ port →
        get nat_cmp counts.new p ≡ get nat_cmp counts.old p) }
{
    counts.insert(port, 0)?;
    Ok(())
}

/// Counts for the same ports, with no notice yet.
fn zeros(alloc: Global, counts: &Counts) -> Result<Counts, NoMemory>
    ensures { IfOk result (AreZeroed counts.now) }
{
    let mut zeros = BTreeMap::new(alloc);
    for (port, _) in counts {
        put_zero(&mut zeros, *port)?;
    }
    Ok(zeros)
}

/// The same for each place.
fn all_zeros(alloc: Global, counts: &[Counts]) -> Result<Vec<Counts>, NoMemory>
    ensures { IfOk result (λ z. HaveZeros (length counts.now) counts.now z.items) }
{
    let mut all = Vec::new(alloc);
    for place in 0..counts.len() {
        all.push(zeros(alloc, &counts[place])?)?;
    }
    Ok(all)
}

/// So many notices more were put into a port's mailbox.
fn add(into: &mut Counts, port: u32, more: u64)
    requires there { IsSome (get nat_cmp into.old port) }
    requires fits { count_of (get nat_cmp into.old port) + more < 2 ^ 64 }
    ensures own { get nat_cmp into.new port ≡ Some (count_of (get nat_cmp into.old port) + more) }
    ensures others { (p : ℕ) → p ≢ port → get nat_cmp into.new p ≡ get nat_cmp into.old p }
{
    let Some(count) = into.get_mut(&port) else {
        unreachable!()
    };
    *count += more;
}

/// Takes a count out of others.
fn take_count(counts: &mut Counts) -> Option<(u32, u64)>
    ensures own { IfSome result (λ c. (get nat_cmp counts.old c.0 ≡ Some c.1)
        × (get nat_cmp counts.new c.0 ≡ None)) }
    ensures others { IfSome result (λ c. (p : ℕ) → p ≢ c.0 →
        get nat_cmp counts.new p ≡ get nat_cmp counts.old p) }
    ensures fewer { IfSome result (λ c. btree_map_len counts.new < btree_map_len counts.old) }
    ensures none { IfNone result ((p : ℕ) → get nat_cmp counts.old p ≡ None) }
{
    counts.pop_first()
}

/// Adds counts to others.
fn add_counts(into: &mut Counts, mut from: Counts)
    requires { CanAdd into.old from }
    ensures { AreSums into.old from into.new }
{
    while let Some((port, more)) = take_count(&mut from) {
        add(into, port, more);
    }
}

/// The same at one place.
fn add_counts_at(into: &mut Vec<Counts>, place: usize, from: Counts)
    requires there { place < length into.old.items }
    requires can { CanAddAt into.old.items place from }
    ensures { TurnsOne place into.old.items into.new.items (λ old new. AreSums old from new) }
{
    add_counts(&mut into[place], from);
}

/// The same place by place.
fn add_all_counts(into: &mut Vec<Counts>, mut from: Vec<Counts>)
    requires { CanAddAll into.old.items from.items }
    ensures { AreAllSums 0 into.old.items from.items into.new.items }
{
    while let Some(counts) = from.pop() {
        let place = from.len();
        add_counts_at(into, place, counts);
    }
}

impl Passes {
    ghost use Rattle.place_turns.specs.Passes.{AreOf};

    /// Splits passes off these. They have seen the same, appended nothing and lost nothing, and
    /// have a piece of each of these passes' parts. `NoMemory` leaves all as it was.
    pub fn split(&mut self, places: &Places, alloc: Global) -> Result<Passes, NoMemory>
        requires of { AreOf places.now self.old.locks self.old.trail.known }
        ensures of { AreOf places.now self.new.locks self.new.trail.known }
        ensures made_of { IfOk result (λ made. AreOf places.now made.locks made.trail.known) }
        ensures kept { OnOk result
            (self.new.trail.known ≡ map kept_view self.old.trail.known) }
        ensures made { IfOk result
            (λ made. made.trail.known ≡ map split_view self.old.trail.known) }
        ensures none_lost { IfOk result (λ made. made.trail.lost ≡ []) }
        ensures same { (self.new.locks ≡ self.old.locks)
            × (self.new.trail.lost ≡ self.old.trail.lost) × (self.new.room ≡ self.old.room) }
        ensures timely { (h : Holder) → AreTimelyOpen self.old.clock self.old.timed h →
            AreTimelyOpen self.new.clock self.new.timed h }
        ensures made_timely { AreTimelyOpen self.old.clock self.old.timed feeder →
            IfOk result (λ made. AreTimelyOpen made.clock made.timed feeder) }
        ensures err { OnErr result (self.new ≡ self.old) }
    {
        rows_know_the_same_without_times();
        let sent = all_zeros(alloc, &self.sent)?;
        let mut row = Vec::with_capacity(alloc, self.row.len())?;
        split_row(&places.locks, &mut self.row, &mut row);
        Ok(Passes {
            row,
            sent,
            lost: Stock::new(alloc),
            clock: self.clock,
        })
    }

    /// Joins other passes into these, place by place. These have then the others' list of lost
    /// packets, and give back the one that they had.
    pub fn join(&mut self, places: &Places, from: Passes) -> Stock<Lost>
        requires of { AreOf places.now self.old.locks self.old.trail.known }
        requires from_of { AreOf places.now from.locks from.trail.known }
        ensures of { AreOf places.now self.new.locks self.new.trail.known }
        ensures joined { RowJoined 0 self.old.trail.known from.trail.known self.new.trail.known }
        ensures locks { self.new.locks ≡ self.old.locks }
        ensures lost { (self.new.trail.lost ≡ from.trail.lost)
            × (result.items ≡ self.old.trail.lost) }
        ensures timely { AreTimelyOpen self.old.clock self.old.timed feeder →
            AreTimelyOpen from.clock from.timed feeder →
            AreTimelyOpen self.new.clock self.new.timed feeder }
    {
        joined_rows_have_what_both_had();
        merged_places_are_those_of_both();
        rows_know_the_same_without_times();
        let Passes {
            row,
            sent,
            lost,
            clock,
        } = from;
        join_row(&places.locks, &mut self.row, row);
        self.clock = self.clock.max(clock);
        add_all_counts(&mut self.sent, sent);
        replace(&mut self.lost, lost)
    }
}
