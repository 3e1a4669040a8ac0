//! Arrivals: the lines of the table that a bound queue doesn't decide, and the entries of all.

ghost use Rattle.std.specs.Prelude.{◌≡◌, ◌≢◌, ◌≤◌, ◌++◌, ◌∷◌, [], true, None};
ghost use Rattle.std.specs.Prelude.{IfSome, IfOk, IfErr, OnErr};
ghost use Rattle.packet_entry.specs.Numbers.{last_visit};
ghost use Rattle.packet_entry.specs.declared.packet.Card.{Card};
ghost use Rattle.queue_core.specs.declared.event.Event.TheVariants.{Arrive};
ghost use Rattle.queue_core.specs.declared.event.Reply.TheVariants.{Arrived};
ghost use Rattle.queue_core.specs.Step.{Way, arrive_in_time, is_decided_early};
ghost use Rattle.histories.specs.States.{state_of, step_of, entry_of};
ghost use Rattle.place_history.specs.Calls.{BeginsAs, SettlesAs};
ghost use Rattle.place_history.specs.PlaceInvariant.{IsReplayed, HasRoom, as_arrival, IsBegun};

use super::bound;
use super::held::{Held, Offer, append, note};
use histories::Entry;
use packet_entry::{BufferPool, MAX_VISITS, Packet};
use queue_core::{Begun, Event, NoRoom, Outcome, Reply, Settled};
use std::alloc::Global;

/// The entry of an arrival.
fn arrived(arrival: Offer, room: bool, outcome: Outcome) -> Entry
    ensures { result ≡ record {
      queue = arrival.queue;
      event = Arrive arrival.card arrival.bypass room;
      reply = Arrived outcome;
    } }
{
    Entry {
        queue: arrival.queue,
        event: Event::Arrive {
            card: arrival.card,
            bypass: arrival.bypass,
            room,
        },
        reply: Reply::Arrived { outcome },
    }
}

/// What becomes of a packet at an absent queue: with the bypass it goes on, without it is destroyed.
fn at_no_queue(bypass: bool) -> Outcome
    ensures { (card : Card) → (way : Way) × (arrive_in_time None card bypass true ≡ record {
      state = None;
      reply = Arrived result;
      left = (card, way) ∷ [];
    }) }
{
    if bypass {
        Outcome::Bypassed
    } else {
        Outcome::NoQueue
    }
}

/// An arrival whose queue isn't asked: it has happened, and its packet comes back.
fn turn_away(held: &mut Held, arrival: Offer, outcome: Outcome, packet: Packet) -> Begun
    requires replayed { IsReplayed held.old }
    requires no_offer { held.old.offer ≡ None }
    requires same { arrival.card ≡ packet }
    requires visited { 1 ≤ packet.visit }
    requires in_time { packet.visit ≤ last_visit }
    requires room { HasRoom held.old 1 }
    requires outside { (way : Way)
        × (step_of held.old.entries.items arrival.queue (Arrive arrival.card arrival.bypass true)
        ≡ record {
          state = state_of held.old.entries.items arrival.queue;
          reply = Arrived outcome;
          left = (arrival.card, way) ∷ [];
        }) }
    requires early { is_decided_early (state_of held.old.entries.items arrival.queue)
        arrival.card ≡ true }
    ensures replayed { IsReplayed held.new }
    ensures room { HasRoom held.new 0 }
    ensures begun { BeginsAs result (as_arrival arrival) held.old.entries.items }
    ensures after { IsBegun result arrival held.old held.new }
{
    note(held, arrived(arrival, true, outcome));
    Begun::Back { outcome, packet }
}

/// Begins an arrival, for whose entry there is room: either it has happened then, or its notice is
/// offered, in a buffer of the pool. When memory runs out the packet comes back, and nothing has
/// happened.
pub(super) fn begin(
    held: &mut Held,
    alloc: Global,
    arrival: Offer,
    packet: Packet,
    pool: &mut BufferPool,
) -> Result<Begun, NoRoom>
    requires replayed { IsReplayed held.old }
    requires no_offer { held.old.offer ≡ None }
    requires same { arrival.card ≡ packet }
    requires visited { 1 ≤ packet.visit }
    requires in_time { packet.visit ≤ last_visit }
    requires room { HasRoom held.old 1 }
    ensures replayed { IsReplayed held.new }
    ensures room { HasRoom held.new 0 }
    ensures begun { IfOk result (λ begun. BeginsAs begun (as_arrival arrival)
        held.old.entries.items) }
    ensures after { IfOk result (λ begun. IsBegun begun arrival held.old held.new) }
    ensures returned { IfErr result (λ back. back.packet ≡ packet) }
    ensures entries { OnErr result (held.new.entries.items ≡ held.old.entries.items) }
    ensures no_offer { OnErr result (held.new.offer ≡ None) }
{
    // It is the packet's 33rd visit: destroyed.
    if arrival.card.visit == MAX_VISITS {
        return Ok(turn_away(held, arrival, Outcome::Loop, packet));
    }
    let asked = match bound::begin(&mut held.queues, alloc, arrival.queue, packet, pool) {
        Ok(asked) => asked,
        Err(packet) => {
            let outcome = at_no_queue(arrival.bypass);
            return Ok(turn_away(held, arrival, outcome, packet));
        }
    };
    match asked {
        Ok(Begun::Offered { port, letter }) => {
            held.offer = Some(arrival);
            Ok(Begun::Offered { port, letter })
        }
        Ok(Begun::Back { outcome, packet }) => {
            append(held, arrived(arrival, true, outcome));
            Ok(Begun::Back { outcome, packet })
        }
        Err(back) => Err(back),
    }
}

/// Settles the arrival that was begun. `room` says whether the port's mailbox took the notice.
/// Takes no memory.
pub(super) fn settle(held: &mut Held, room: bool) -> Settled
    requires replayed { IsReplayed held.old }
    requires offered { held.old.offer ≢ None }
    requires room { HasRoom held.old 0 }
    ensures replayed { IsReplayed held.new }
    ensures no_offer { held.new.offer ≡ None }
    ensures room { HasRoom held.new 0 }
    ensures settled { IfSome held.old.offer (λ o.
        SettlesAs result (as_arrival o) room held.old.entries.items) }
    ensures entries { IfSome held.old.offer (λ o. held.new.entries.items
        ≡ held.old.entries.items
        ++ entry_of held.old.entries.items o.queue (Arrive o.card o.bypass room) ∷ []) }
{
    let Some(arrival) = held.offer.take() else {
        unreachable!()
    };
    match bound::settle(&mut held.queues, arrival.queue, room) {
        Settled::Waiting { id } => {
            append(held, arrived(arrival, room, Outcome::Taken { id }));
            Settled::Waiting { id }
        }
        Settled::Back { outcome, packet } => {
            append(held, arrived(arrival, room, outcome));
            Settled::Back { outcome, packet }
        }
    }
}
