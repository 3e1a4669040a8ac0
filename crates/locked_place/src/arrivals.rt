//! Arrivals: a packet waits where its notice is in the mailbox of its queue's port.

ghost use Rattle.std.specs.Prelude.{◌≡◌, ◌≢◌, ℕ, List, Option, Some, IfSome, IsSome};
ghost use Rattle.std.specs.Prelude.{Bool, true, false};
ghost use Rattle.std.specs.BTreeMap.{get};
ghost use Rattle.std.specs.Ordering.{nat_cmp};
ghost use Rattle.mailbox.specs.Views.{SenderView, sender_with, sender_back};
ghost use Rattle.histories.specs.declared.entry.Entry.{Entry};
ghost use Rattle.histories.specs.Journeys.{Arrival};
ghost use Rattle.place_history.specs.Calls.{SettlesAs};
ghost use Rattle.place_history.specs.PlaceState.{PlaceState};
ghost use Rattle.locked_place.specs.Arrivals.{HasBegun, HasArrived};
ghost use Rattle.locked_place.specs.Views.{AreMailboxesOf, made_senders, senders_of, port_at};
ghost use Rattle.locked_place.specs.Turns.{PlacesAs, HasSender};

use crate::laws::{mails_keep_up, senders_keep_up};
use mailbox::{Mail, Mailbox, Sender};
use packet_entry::Packet;
use place_history::Place;
use queue_core::{Begun, Outcome, Settled};
use std::collections::BTreeMap;
use std::sync::Wait;

/// Where a packet is after its arrival.
pub enum Placed {
    /// It waits, and its notice went into this port's mailbox.
    Waiting { port: u32 },
    /// It comes back, to be sent on or destroyed as the outcome says.
    Back { outcome: Outcome, packet: Packet },
}

/// Finishes an arrival that was begun at a place. A notice that is offered is sent to its port's
/// mailbox, and the packet waits if there was room. Takes no memory.
pub(crate) fn finish<R: Wait>(
    rt: &R,
    mailboxes: &BTreeMap<u32, Mailbox>,
    place: &mut Place,
    senders: &mut BTreeMap<u32, Sender>,
    begun: Begun,
    time: u64,
) -> Placed
    requires mailboxes { AreMailboxesOf mailboxes.now (made_senders (senders_of senders.old)) }
    requires begun { (a : Arrival) × (before : PlaceState)
        × HasBegun a begun before (senders_of senders.old) place.old }
    ensures arrived { (a : Arrival) (before : PlaceState) →
        HasBegun a begun before (senders_of senders.old) place.old →
        HasArrived a time before (senders_of senders.old) place.new (senders_of senders.new)
        result }
    ensures made { made_senders (senders_of senders.new)
        ≡ made_senders (senders_of senders.old) }
{
    senders_keep_up();
    mails_keep_up();
    match begun {
        Begun::Back { outcome, packet } => Placed::Back { outcome, packet },
        Begun::Offered { port, letter } => {
            let room = send(rt, mailboxes, senders, port, Mail { letter, time });
            as_settled(port, place.settle(room))
        }
    }
}

/// Where a packet is once its arrival, whose notice was for this port, is settled.
fn as_settled(port: u32, settled: Settled) -> Placed
    ensures places { (a : Arrival) (room : Bool) (es : List Entry) →
        port_at es a.queue ≡ Some port → SettlesAs settled a room es → PlacesAs result a room es }
    ensures sender { (senders : ℕ → Option SenderView) → IsSome (senders port) →
        HasSender senders result }
{
    match settled {
        Settled::Waiting { id: _ } => Placed::Waiting { port },
        Settled::Back { outcome, packet } => Placed::Back { outcome, packet },
    }
}

/// Sends a notice to a port's mailbox: whether the mailbox took it.
fn send<R: Wait>(
    rt: &R,
    mailboxes: &BTreeMap<u32, Mailbox>,
    senders: &mut BTreeMap<u32, Sender>,
    port: u32,
    mail: Mail,
) -> bool
    requires mailboxes { AreMailboxesOf mailboxes.now (made_senders (senders_of senders.old)) }
    requires there { IsSome (get nat_cmp senders.old port) }
    ensures put { result ≡ true → IfSome (get nat_cmp senders.old port)
        (λ (s : SenderView). get nat_cmp senders.new port ≡ Some (sender_with s mail)) }
    ensures back { result ≡ false → IfSome (get nat_cmp senders.old port)
        (λ (s : SenderView). get nat_cmp senders.new port ≡ Some (sender_back s)) }
    ensures others { (p : ℕ) → p ≢ port → get nat_cmp senders.new p ≡ get nat_cmp senders.old p }
    ensures made { made_senders (senders_of senders.new)
        ≡ made_senders (senders_of senders.old) }
{
    let (Some(mailbox), Some(sender)) = (mailboxes.get(&port), senders.get_mut(&port)) else {
        unreachable!()
    };
    mailbox.send_mail(rt, sender, mail).is_ok()
}
