//! Rows that are joined, and rows that let each other see what they have seen. None of it takes
//! memory or waits.

ghost use Rattle.std.specs.Prelude.{◌<◌, ◌≤◌, ℕ, [], ◌≡◌, length, map};
ghost use Rattle.std.specs.Vec.{vec_capacity};
ghost use Rattle.turn_lock.specs.Passes.{view_of};
ghost use Rattle.turn_lock.specs.Views.{kept_view, split_view};
ghost use Rattle.locked_place.specs.Views.{PlaceLabel, label_of};
ghost use Rattle.locked_place.specs.Passes.{IsPassOf};
ghost use Rattle.place_rows.specs.Rows.{ArePasses, IsPassAt, TurnsOne};
ghost use Rattle.place_rows.specs.Joining.{Joins, RowJoined, Splits};
ghost use Rattle.place_rows.specs.Meeting.{Told, TellsOne, ToldUpTo};

use locked_place::LockedPlace;
use turn_lock::{
    Pass, TurnLock, merged_places_are_those_of_both, parts_are_put_together_in_any_order,
};

/// A row: a pass of each place's lock, in the places' order.
pub type Row = Vec<Pass<LockedPlace>>;

/// The locks of all places, in the places' order.
pub type Locks = Vec<TurnLock<LockedPlace>>;

/// Joins a pass into the one of its place.
fn join_at(locks: &Locks, into: &mut Row, place: usize, pass: Pass<LockedPlace>)
    requires there { place < length locks.now.items }
    requires passes { (named : ℕ → PlaceLabel)
        × ArePasses label_of named locks.now.items into.old.items
        × IsPassAt label_of named locks.now.items place pass }
    ensures passes { (named : ℕ → PlaceLabel) →
        ArePasses label_of named locks.now.items into.old.items →
        ArePasses label_of named locks.now.items into.new.items }
    ensures joins { TurnsOne place (map view_of into.old.items) (map view_of into.new.items)
        (Joins (view_of pass)) }
{
    locks[place].join(&mut into[place], pass);
}

/// Joins a row into another, place by place.
pub fn join_row(locks: &Locks, into: &mut Row, mut from: Row)
    requires passes { (named : ℕ → PlaceLabel)
        × ArePasses label_of named locks.now.items into.old.items
        × ArePasses label_of named locks.now.items from.items }
    ensures passes { (named : ℕ → PlaceLabel) →
        ArePasses label_of named locks.now.items into.old.items →
        ArePasses label_of named locks.now.items into.new.items }
    ensures joined { RowJoined 0 (map view_of into.old.items) (map view_of from.items)
        (map view_of into.new.items) }
{
    while let Some(pass) = from.pop() {
        let place = from.len();
        join_at(locks, into, place, pass);
    }
}

/// Lets a pass see all that another has seen.
fn tell(lock: &TurnLock<LockedPlace>, from: &mut Pass<LockedPlace>, into: &mut Pass<LockedPlace>)
    requires passes { (named : PlaceLabel) × IsPassOf label_of named lock.now from.old
        × IsPassOf label_of named lock.now into.old }
    ensures from { (named : PlaceLabel) → IsPassOf label_of named lock.now from.old →
        IsPassOf label_of named lock.now from.new }
    ensures into { (named : PlaceLabel) → IsPassOf label_of named lock.now into.old →
        IsPassOf label_of named lock.now into.new }
    ensures told { Told (view_of from.old) (view_of into.old)
        (view_of from.new) (view_of into.new) }
{
    merged_places_are_those_of_both();
    parts_are_put_together_in_any_order();
    let Ok(piece) = lock.split(from) else {
        unreachable!()
    };
    lock.join(into, piece);
}

/// The same at one place of two rows.
fn tell_at(locks: &Locks, from: &mut Row, into: &mut Row, place: usize)
    requires there { place < length locks.now.items }
    requires passes { (named : ℕ → PlaceLabel)
        × ArePasses label_of named locks.now.items from.old.items
        × ArePasses label_of named locks.now.items into.old.items }
    ensures from { (named : ℕ → PlaceLabel) →
        ArePasses label_of named locks.now.items from.old.items →
        ArePasses label_of named locks.now.items from.new.items }
    ensures into { (named : ℕ → PlaceLabel) →
        ArePasses label_of named locks.now.items into.old.items →
        ArePasses label_of named locks.now.items into.new.items }
    ensures told { TellsOne place (map view_of from.old.items) (map view_of into.old.items)
        (map view_of from.new.items) (map view_of into.new.items) }
{
    tell(&locks[place], &mut from[place], &mut into[place]);
}

/// Lets a row see all that another has seen, place by place.
pub fn tell_row(locks: &Locks, from: &mut Row, into: &mut Row)
    requires passes { (named : ℕ → PlaceLabel)
        × ArePasses label_of named locks.now.items from.old.items
        × ArePasses label_of named locks.now.items into.old.items }
    ensures from { (named : ℕ → PlaceLabel) →
        ArePasses label_of named locks.now.items from.old.items →
        ArePasses label_of named locks.now.items from.new.items }
    ensures into { (named : ℕ → PlaceLabel) →
        ArePasses label_of named locks.now.items into.old.items →
        ArePasses label_of named locks.now.items into.new.items }
    ensures told { ToldUpTo (length locks.now.items) (map view_of from.old.items)
        (map view_of into.old.items) (map view_of from.new.items) (map view_of into.new.items) }
{
    for place in 0..locks.len() {
        tell_at(locks, from, into, place);
    }
}

/// Splits a pass off the one of this place of a row.
fn split_at(locks: &Locks, row: &mut Row, place: usize) -> Pass<LockedPlace>
    requires there { place < length locks.now.items }
    requires passes { (named : ℕ → PlaceLabel)
        × ArePasses label_of named locks.now.items row.old.items }
    ensures passes { (named : ℕ → PlaceLabel) →
        ArePasses label_of named locks.now.items row.old.items →
        ArePasses label_of named locks.now.items row.new.items
        × IsPassAt label_of named locks.now.items place result }
    ensures splits { TurnsOne place (map view_of row.old.items) (map view_of row.new.items)
        (Splits (view_of result)) }
{
    let Ok(piece) = locks[place].split(&mut row[place]) else {
        unreachable!()
    };
    piece
}

/// Splits a row off another: it has seen the same and has appended nothing, and has a piece of each
/// of the other's parts. There is room for it in `made`.
pub fn split_row(locks: &Locks, row: &mut Row, made: &mut Row)
    requires room { (made.old.items ≡ []) × (length locks.now.items ≤ vec_capacity made.old) }
    requires passes { (named : ℕ → PlaceLabel)
        × ArePasses label_of named locks.now.items row.old.items }
    ensures passes { (named : ℕ → PlaceLabel) →
        ArePasses label_of named locks.now.items row.old.items →
        ArePasses label_of named locks.now.items row.new.items
        × ArePasses label_of named locks.now.items made.new.items }
    ensures kept { map view_of row.new.items ≡ map kept_view (map view_of row.old.items) }
    ensures made { map view_of made.new.items ≡ map split_view (map view_of row.old.items) }
{
    for place in 0..locks.len() {
        let piece = split_at(locks, row, place);
        made.push_reserved(piece);
    }
}
