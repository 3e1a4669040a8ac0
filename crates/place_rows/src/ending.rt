//! The end of all places. None of it waits.

ghost use Rattle.std.specs.Prelude.{◌≡◌, ◌≢◌, ◌≤◌, ℕ, List, [], ◌∷◌, ◌++◌, length, map, true, Some};
ghost use Rattle.std.specs.Prelude.{IfSome, IfOk, slice_get};
ghost use Rattle.std.specs.List.{range_with_len, AllZip};
ghost use Rattle.std.specs.BTreeMap.{get};
ghost use Rattle.std.specs.Ordering.{nat_cmp};
ghost use mathlib.Core.List.{IsPrefix};
ghost use Rattle.turn_lock.specs.Passes.{view_of};
ghost use Rattle.turn_lock.specs.Parts.{Whole};
ghost use Rattle.mailbox.specs.Views.{SenderView, receiver_joined};
ghost use Rattle.histories.specs.declared.entry.Entry.{Entry};
ghost use Rattle.packet_moves.specs.declared.setting.Setting.{Setting};
ghost use Rattle.histories.specs.History.{AreLegal, history};
ghost use Rattle.total_order.specs.Orders.{untimed};
ghost use Rattle.place_history.specs.PlaceState.{AreHere};
ghost use Rattle.locked_place.specs.Views.{PlaceLabel, label_of, senders_of, made_senders};
ghost use Rattle.locked_place.specs.Views.{AreNotified};
ghost use Rattle.locked_place.specs.Times.{timed, AreTimed, AreMailed};
ghost use Rattle.locked_place.specs.Passes.{IsPassOf};
ghost use Rattle.place_rows.specs.Lists.{Every, AllFrom, flat};
ghost use Rattle.place_rows.specs.Rows.{TimedKnown, known_of, ArePasses, label_at};
ghost use Rattle.place_rows.specs.Timed.{IsTimedListAt, HearsInTime, AreTimedEntries};
ghost use Rattle.place_rows.specs.Joining.{AllJoined};
ghost use Rattle.place_rows.specs.Ending.{Holder, rows_of, AreBalanced};
ghost use Rattle.place_rows.specs.Ended.{AreAllEntries};
ghost use Rattle.place_rows.specs.Hearing.{times_in, with_its_sender, HasSender, HasMailbox};
ghost use Rattle.place_rows.specs.Hearing.{IsHeard};

use crate::rows::{Locks, Row};
use histories::{
    Entries, Entry, grouped, soundness_is_kept_move_by_move, soundness_is_of_each_queue,
};
use locked_place::{Left, LockedPlace, Outlets};
use mailbox::{Mailbox, Receiver, Sender};
use packet_entry::{NoMemory, Sequence};
use std::alloc::Global;
use std::collections::BTreeMap;
use turn_lock::{Pass, TurnLock};

/// A port, and the receiver of its mailbox.
#[derive(Drop)]
pub struct PortReceiver {
    /// The port's number.
    pub port: u32,
    /// Who receives from its mailbox.
    pub receiver: Receiver,
}

/// Takes a place's lock apart, by the pass that has the whole of it.
fn end_place(lock: TurnLock<LockedPlace>, pass: Pass<LockedPlace>) -> Left
    requires pass { (named : PlaceLabel) × IsPassOf label_of named lock pass }
    requires whole { (view_of pass).part ≡ Whole }
    ensures begins { IsPrefix (view_of pass).seen (timed result.entries result.stamps) }
    ensures own { (view_of pass).own ≡ range_with_len 0 (length result.entries) }
    ensures senders { (named : PlaceLabel) → IsPassOf label_of named lock pass →
        made_senders (senders_of result.senders) ≡ named.senders }
    ensures notified { AreNotified result.entries (senders_of result.senders) }
    ensures here { (named : PlaceLabel) → IsPassOf label_of named lock pass →
        AreHere named.places named.number result.entries }
    ensures legal { AreLegal result.entries }
    ensures in_time { (latest : ℕ) × AreTimed result.entries result.stamps latest }
    ensures mailed { AreMailed (timed result.entries result.stamps)
        (senders_of result.senders) }
{
    lock.close(pass).end()
}

/// Joins a place's sender into a port's receiver.
fn join_sender(
    mailboxes: &BTreeMap<u32, Mailbox>,
    senders: &mut BTreeMap<u32, Sender>,
    receiver: &mut PortReceiver,
)
    requires sender { HasSender mailboxes.now senders.old receiver.old }
    ensures joined { receiver.new ≡ with_its_sender senders.old receiver.old }
    ensures heard { IsHeard receiver.new }
    ensures others { (p : ℕ) → p ≢ receiver.old.port →
        get nat_cmp senders.new p ≡ get nat_cmp senders.old p }
{
    let port = receiver.port;
    let (Some(mailbox), Some(sender)) = (mailboxes.get(&port), senders.remove(&port)) else {
        unreachable!()
    };
    mailbox.join(&mut receiver.receiver, sender);
}

/// Joins a place's senders into the receivers, one of each port.
fn join_senders(
    mailboxes: &BTreeMap<u32, Mailbox>,
    mut senders: BTreeMap<u32, Sender>,
    receivers: &mut Vec<PortReceiver>,
)
    requires senders { Every (HasSender mailboxes.now senders) receivers.old.items }
    requires apart { (port : ℕ) → times_in port receivers.old.items ≤ 1 }
    ensures joined { receivers.new.items ≡ map (with_its_sender senders) receivers.old.items }
    ensures heard { Every IsHeard receivers.new.items }
{
    for i in 0..receivers.len() {
        join_sender(mailboxes, &mut senders, &mut receivers[i]);
    }
}

/// Appends entries to others: whether there was memory for all.
fn gather(all: &mut Vec<Entry>, entries: Entries) -> bool
    ensures { result ≡ true → all.new.items ≡ all.old.items ++ entries }
{
    for entry in entries {
        if all.push(entry).is_err() {
            return false;
        }
    }
    true
}

/// Takes all locks apart, each by the pass that has the whole of it, and joins all senders into the
/// ports' receivers. Appends the entries of all places: whether there was memory for all of them.
/// Where there wasn't, the locks are taken apart just the same.
pub fn end_places(
    outlets: &Outlets,
    mut locks: Locks,
    mut row: Row,
    receivers: &mut Vec<PortReceiver>,
    entries: &mut Vec<Entry>,
) -> bool
    requires places { (1 ≤ length locks.items) × (length locks.items ≡ outlets.now.board.places) }
    requires row { ArePasses label_of (label_at outlets.now) locks.items row.items }
    requires whole { (k : ℕ) (v : TimedKnown) → slice_get (map view_of row.items) k ≡ Some v →
        v.part ≡ Whole }
    requires none { entries.old.items ≡ [] }
    requires mailboxes { Every (HasMailbox outlets.now.mailboxes) receivers.old.items }
    requires apart { (port : ℕ) → times_in port receivers.old.items ≤ 1 }
    ensures { (lists : List (List (Entry × ℕ))) × (length lists ≡ length locks.items)
        × AllFrom (IsTimedListAt outlets.now.board.places (map view_of row.items)) 0 lists
        × (result ≡ true → (queue : ℕ) →
        history queue entries.new.items ≡ history queue (flat (map untimed lists)))
        × AllZip (HearsInTime outlets.now.board.places 0 lists)
        receivers.old.items receivers.new.items
        × Every IsHeard receivers.new.items }
{
    let mut kept = true;
    while let Some(lock) = locks.pop() {
        let Some(pass) = row.pop() else {
            unreachable!()
        };
        let Left {
            entries: list,
            stamps: _stamps,
            senders,
        } = end_place(lock, pass);
        join_senders(&outlets.mailboxes, senders, receivers);
        let room = gather(entries, list);
        kept = kept & room;
    }
    locks.destroy_empty();
    kept
}

/// Ends all places, each by the pass that has the whole of its lock: all entries, by ascending
/// queue number. Where holders had joined their rows into that one, the entries are all theirs:
/// legal, and sound for all that they fed and lost; and the ports heard of them. Along each place's
/// list times never descend, and each letter that a port received is that of an arrival that was no
/// later. When memory runs out the locks are taken apart just the same.
pub fn end_rows(
    alloc: Global,
    outlets: &Outlets,
    locks: Locks,
    row: Row,
    mut receivers: Vec<PortReceiver>,
) -> Result<Entries, NoMemory>
    requires places { (1 ≤ length locks.items) × (length locks.items ≡ outlets.now.board.places) }
    requires row { ArePasses label_of (label_at outlets.now) locks.items row.items }
    requires whole { (k : ℕ) (v : TimedKnown) → slice_get (map view_of row.items) k ≡ Some v →
        v.part ≡ Whole }
    requires mailboxes { Every (HasMailbox outlets.now.mailboxes) receivers.items }
    requires apart { (port : ℕ) → times_in port receivers.items ≤ 1 }
    ensures entries { (s : Setting) (first : Holder) (others : List Holder) →
        AreBalanced s (first ∷ others) →
        AllJoined (rows_of others) first.known (known_of (map view_of row.items)) →
        IfOk result
        (AreAllEntries s outlets.now.board.places (first ∷ others) receivers.items) }
    ensures timed { (first : List TimedKnown) (others : List (List TimedKnown)) →
        AllJoined others first (map view_of row.items) → IfOk result
        (AreTimedEntries outlets.now.board.places (first ∷ others) receivers.items) }
{
    soundness_is_kept_move_by_move();
    soundness_is_of_each_queue();
    let mut entries = Vec::new(alloc);
    if !end_places(outlets, locks, row, &mut receivers, &mut entries) {
        return Err(NoMemory);
    }
    grouped(Sequence::from_vec(entries))
}

/// Takes locks apart whose places have no entries to be kept, each by the pass that has the whole
/// of it.
pub fn close_all(mut locks: Locks, mut row: Row)
    requires row { (named : ℕ → PlaceLabel) × ArePasses label_of named locks.items row.items }
    requires whole { (k : ℕ) (v : TimedKnown) → slice_get (map view_of row.items) k ≡ Some v →
        v.part ≡ Whole }
{
    while let Some(lock) = locks.pop() {
        let Some(pass) = row.pop() else {
            unreachable!()
        };
        let _left = lock.close(pass).end();
    }
    locks.destroy_empty();
}
