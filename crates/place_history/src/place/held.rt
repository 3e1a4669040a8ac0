//! The queues that a place holds, beside the entries of which each is the replay.

ghost use Rattle.std.specs.Prelude.{◌≡◌, ◌<◌, ◌≤◌, ◌+◌, ◌^◌, ◌++◌, ◌∷◌, [], None, OnOk};
ghost use Rattle.std.specs.Prelude.{option_map};
ghost use Rattle.queue_core.specs.State.{Bound};
ghost use Rattle.histories.specs.States.{state_of, step_of, taken_by, waiting_at};
ghost use Rattle.histories.specs.History.{IsStep};
ghost use Rattle.histories.specs.Numbers.{queue_count};
ghost use Rattle.place_history.specs.PlaceInvariant as replayed;
ghost use Rattle.place_history.specs.PlaceInvariant.{IsReplayed, IsAhead, HasRoom};

use super::bound::Queues;
use histories::{Entry, a_legal_history_goes_on};
use packet_entry::{Card, NoMemory, Stock};
use queue_core::{Outcome, Reply, each_packet_stays_or_leaves, replies_tell_how_many_left};
use std::alloc::Global;
use std::collections::BTreeMap;

/// The queues that are bound, and the entries so far.
pub(super) struct Held {
    pub(super) queues: Queues,
    pub(super) entries: Stock<Entry>,
    /// How many packets wait.
    pub(super) waiting: usize,
    /// The arrival that was begun and isn't settled.
    pub(super) offer: Option<Offer>,
}

/// An arrival that is begun.
#[derive(Drop)]
pub(super) struct Offer {
    /// The queue's number.
    pub(super) queue: u16,
    /// The packet.
    pub(super) card: Card,
    /// Whether the rule or the verdict that sent it there has the bypass.
    pub(super) bypass: bool,
}

impl Held {
    /// No queues, and no entries. Takes no memory.
    pub(super) fn new(alloc: Global) -> Held
        ensures replayed { IsReplayed result }
        ensures entries { result.entries.items ≡ [] }
        ensures no_offer { result.offer ≡ None }
        ensures room { HasRoom result 0 }
    {
        Held {
            queues: BTreeMap::new(alloc),
            entries: Stock::new(alloc),
            waiting: 0,
            offer: None,
        }
    }
}

/// Makes room for so many entries more beside one for each bound queue.
pub(super) fn make_room(held: &mut Held, more: usize) -> Result<(), NoMemory>
    requires few { more < 2 ^ 63 }
    requires replayed { IsReplayed held.old }
    requires no_offer { held.old.offer ≡ None }
    requires room { HasRoom held.old 0 }
    ensures replayed { IsReplayed held.new }
    ensures entries { held.new.entries.items ≡ held.old.entries.items }
    ensures no_offer { held.new.offer ≡ None }
    ensures queues { held.new.queues ≡ held.old.queues }
    ensures kept { HasRoom held.new 0 }
    ensures ok { OnOk result (HasRoom held.new more) }
{
    let room = held.queues.len() + more;
    held.entries.make_room(room)
}

/// The port that a queue is bound to, if it is bound.
pub(super) fn port_of(held: &Held, number: u16) -> Option<u32>
    requires replayed { IsReplayed held.now }
    ensures { result ≡ option_map (λ (b : Bound). b.port)
        (state_of held.now.entries.items number) }
{
    held.queues.get(&number).map(|queue| queue.port())
}

/// How many packets wait in a queue.
pub(super) fn waiting_in(held: &Held, number: u16) -> u32
    requires replayed { IsReplayed held.now }
    ensures { result ≡ waiting_at (state_of held.now.entries.items number) }
{
    match held.queues.get(&number) {
        Some(queue) => queue.waiting(),
        None => 0,
    }
}

/// How many packets wait once a queue has answered so.
fn waiting_after(waiting: usize, reply: Reply) -> usize
    requires few { waiting + 1 < 2 ^ 64 }
    requires enough { taken_by reply ≤ waiting }
    ensures { result ≡ replayed.waiting_after waiting reply }
{
    match reply {
        Reply::Arrived {
            outcome: Outcome::Taken { .. },
        } => waiting + 1,
        Reply::Arrived { .. } => waiting,
        Reply::Answer { taken, .. } | Reply::Flushed { taken } => waiting - taken as usize,
    }
}

/// Appends an entry whose step has been made. Takes no memory.
pub(super) fn append(held: &mut Held, entry: Entry)
    requires ahead { IsAhead entry held.old }
    requires room { 0 < held.old.entries.room }
    ensures replayed { IsReplayed held.new }
    ensures entries { held.new.entries.items ≡ held.old.entries.items ++ entry ∷ [] }
    ensures no_offer { held.new.offer ≡ None }
    ensures queues { held.new.queues ≡ held.old.queues }
    ensures room { held.new.entries.room + 1 ≡ held.old.entries.room }
{
    each_packet_stays_or_leaves();
    replies_tell_how_many_left();
    a_legal_history_goes_on();
    let reply = entry.reply;
    held.entries.push(entry);
    let count = held.entries.len();
    prove!(held.waiting < count);
    held.waiting = waiting_after(held.waiting, reply);
}

/// Appends the entry of an event that leaves its queue as it is. Takes no memory.
pub(super) fn note(held: &mut Held, entry: Entry)
    requires replayed { IsReplayed held.old }
    requires no_offer { held.old.offer ≡ None }
    requires room { 0 < held.old.entries.room }
    requires number { entry.queue < queue_count }
    requires one { IsStep (state_of held.old.entries.items entry.queue) entry }
    requires still { (step_of held.old.entries.items entry.queue entry.event).state
        ≡ state_of held.old.entries.items entry.queue }
    ensures replayed { IsReplayed held.new }
    ensures entries { held.new.entries.items ≡ held.old.entries.items ++ entry ∷ [] }
    ensures no_offer { held.new.offer ≡ None }
    ensures queues { held.new.queues ≡ held.old.queues }
    ensures room { held.new.entries.room + 1 ≡ held.old.entries.room }
{
    append(held, entry);
}
