//! Messages of a port.

ghost use Rattle.std.specs.Prelude.{◌≡◌, ◌^◌, ◌<◌, ◌++◌, [], ◌∷◌, ℕ, List, length, Option};
ghost use Rattle.std.specs.Prelude.{IsSome, IfOk, OnOk, OnErr};
ghost use Rattle.std.specs.BTreeMap.{get};
ghost use Rattle.std.specs.Ordering.{nat_cmp};
ghost use Rattle.netlink_codec.specs.Acknowledgements.{answer};
ghost use Rattle.netlink_codec.specs.Messages.{message_of, first_message};
ghost use Rattle.nfqa_msgs.specs.RequestReading.{AskedFits};
ghost use Rattle.mailbox.specs.declared.view.Post.{Post};
ghost use Rattle.histories.specs.declared.log.AskWords.{AskWords};
ghost use Rattle.histories.specs.declared.log.Did.{Did};
ghost use Rattle.histories.specs.declared.log.Did.TheVariants.{Sent};
ghost use Rattle.place_turns.specs.Passes.{AreOf};
ghost use Rattle.place_turns.specs.Places.{places_of, setting_of, outlets_of};
ghost use Rattle.place_turns.specs.Trails.{MayLook};
ghost use Rattle.place_turns.specs.Messages.{CarriesOut, IsSent, Sends, SendsUnread};
ghost use Rattle.place_turns.specs.Timely.{Holder, AreTimelyOpen, port_with};

use crate::asking::ask;
use crate::log::Log;
use crate::passes::Passes;
use crate::places::{Places, Turns};
use histories::queue_of;
use locked_place::Gate;
use netlink_codec::{Message, next_message};
use nfqa_msgs::{Decoded, decode_request};
use packet_entry::NoMemory;
use packet_moves::{acknowledge, due, make_answer_room, words_of};
use std::alloc::Global;
use std::sync::Wait;

/// Carries out what a message is decoded to: its errno. `NoMemory` leaves all as it was, though the
/// pass may have seen more; a packet whose next arrival finds no memory is lost.
fn carry_out<R: Wait, G: Gate>(
    turns: &Turns<'_, R, G>,
    alloc: Global,
    passes: &mut Passes,
    port: u32,
    call: u32,
    decoded: Decoded,
) -> Result<u16, NoMemory>
    requires payload { AskedFits decoded }
    requires port { IsSome (get nat_cmp (outlets_of turns.now.places.now).mailboxes port) }
    requires of { AreOf turns.now.places.now passes.old.locks passes.old.trail.known }
    ensures of { AreOf turns.now.places.now passes.new.locks passes.new.trail.known }
    ensures carried_out { IfOk result (CarriesOut (places_of turns.now.places.now)
        (setting_of turns.now.places.now)
        port call decoded passes.old.trail passes.new.trail) }
    ensures looked { OnErr result (MayLook passes.old.trail passes.new.trail) }
    ensures timely { OnOk result ((dids : List Did) (heard : List Post) (words : AskWords)
        (answer : Option ℕ) →
        AreTimelyOpen passes.old.clock passes.old.timed (port_with port dids heard) →
        AreTimelyOpen passes.new.clock passes.new.timed
        (port_with port (dids ++ Sent call words answer ∷ []) heard)) }
    ensures still { OnErr result ((h : Holder) →
        AreTimelyOpen passes.old.clock passes.old.timed h →
        AreTimelyOpen passes.new.clock passes.new.timed h) }
{
    match decoded {
        Decoded::Nothing => Ok(0),
        Decoded::Refused { errno } => Ok(errno),
        Decoded::Asked { request } => ask(turns, alloc, passes, port, call, request),
    }
}

/// A port sends the first message of some bytes, where one stands there: how many bytes it uses.
/// `NoMemory` leaves all as it was, though the pass may have seen more.
pub fn message<R: Wait, G: Gate>(
    turns: &Turns<'_, R, G>,
    alloc: Global,
    passes: &mut Passes,
    log: &mut Log,
    port: u32,
    datagram: &[u8],
    replies: &mut Vec<u8>,
) -> Result<u32, NoMemory>
    requires short { length datagram.now < 2 ^ 31 }
    requires port { IsSome (get nat_cmp (outlets_of turns.now.places.now).mailboxes port) }
    requires room { 0 < log.old.dids.room }
    requires of { AreOf turns.now.places.now passes.old.locks passes.old.trail.known }
    ensures of { AreOf turns.now.places.now passes.new.locks passes.new.trail.known }
    ensures room { 0 < log.new.dids.room }
    ensures sent { IfOk result (Sends (places_of turns.now.places.now)
        (setting_of turns.now.places.now) port
        (first_message datagram.now) log.old.dids.items log.new.dids.items
        passes.old.trail passes.new.trail replies.old.items replies.new.items) }
    ensures looked { OnErr result (MayLook passes.old.trail passes.new.trail) }
    ensures same { OnErr result (log.new.dids.items ≡ log.old.dids.items) }
    ensures timely { (heard : List Post) →
        AreTimelyOpen passes.old.clock passes.old.timed (port_with port log.old.dids.items heard) →
        AreTimelyOpen passes.new.clock passes.new.timed (port_with port log.new.dids.items heard) }
    ensures none_answered { OnErr result (replies.new.items ≡ replies.old.items) }
{
    match next_message(datagram) {
        Some((message, used)) => {
            send(turns, alloc, passes, log, port, &message, replies)?;
            Ok(used as u32)
        }
        None => Ok(0),
    }
}

/// As [`message`] does, where nobody reads the replies: none is made.
pub fn message_unread<R: Wait, G: Gate>(
    turns: &Turns<'_, R, G>,
    alloc: Global,
    passes: &mut Passes,
    log: &mut Log,
    port: u32,
    datagram: &[u8],
) -> Result<u32, NoMemory>
    requires short { length datagram.now < 2 ^ 31 }
    requires port { IsSome (get nat_cmp (outlets_of turns.now.places.now).mailboxes port) }
    requires room { 0 < log.old.dids.room }
    requires of { AreOf turns.now.places.now passes.old.locks passes.old.trail.known }
    ensures of { AreOf turns.now.places.now passes.new.locks passes.new.trail.known }
    ensures room { 0 < log.new.dids.room }
    ensures sent { IfOk result (SendsUnread (places_of turns.now.places.now)
        (setting_of turns.now.places.now) port
        (first_message datagram.now) log.old.dids.items log.new.dids.items
        passes.old.trail passes.new.trail) }
    ensures looked { OnErr result (MayLook passes.old.trail passes.new.trail) }
    ensures same { OnErr result (log.new.dids.items ≡ log.old.dids.items) }
    ensures timely { (heard : List Post) →
        AreTimelyOpen passes.old.clock passes.old.timed (port_with port log.old.dids.items heard) →
        AreTimelyOpen passes.new.clock passes.new.timed (port_with port log.new.dids.items heard) }
{
    match next_message(datagram) {
        Some((message, used)) => {
            let _errno = send_unread(turns, alloc, passes, log, port, &message)?;
            Ok(used as u32)
        }
        None => Ok(0),
    }
}

/// The place of the queue that a message asks something of.
fn asked_place(places: &Places, decoded: &Decoded) -> Option<u8> {
    match decoded {
        Decoded::Asked { request } => Some(places.place_of(queue_of(request)) as u8),
        _ => None,
    }
}

/// A port sends a message: it is carried out, logged, and acknowledged where that is due.
/// `NoMemory` leaves all as it was, though the pass may have seen more.
fn send<R: Wait, G: Gate>(
    turns: &Turns<'_, R, G>,
    alloc: Global,
    passes: &mut Passes,
    log: &mut Log,
    port: u32,
    message: &Message<'_>,
    replies: &mut Vec<u8>,
) -> Result<(), NoMemory>
    requires short { length message.now.whole.now < 2 ^ 31 }
    requires port { IsSome (get nat_cmp (outlets_of turns.now.places.now).mailboxes port) }
    requires room { 0 < log.old.dids.room }
    requires of { AreOf turns.now.places.now passes.old.locks passes.old.trail.known }
    ensures of { AreOf turns.now.places.now passes.new.locks passes.new.trail.known }
    ensures room { 0 < log.new.dids.room }
    ensures sent { OnOk result (IsSent (places_of turns.now.places.now)
        (setting_of turns.now.places.now) port
        (message_of message.now) log.old.dids.items log.new.dids.items
        passes.old.trail passes.new.trail replies.old.items replies.new.items) }
    ensures looked { OnErr result (MayLook passes.old.trail passes.new.trail) }
    ensures same { OnErr result (log.new.dids.items ≡ log.old.dids.items) }
    ensures none_answered { OnErr result (replies.new.items ≡ replies.old.items) }
    ensures timely { (heard : List Post) →
        AreTimelyOpen passes.old.clock passes.old.timed (port_with port log.old.dids.items heard) →
        AreTimelyOpen passes.new.clock passes.new.timed (port_with port log.new.dids.items heard) }
{
    make_answer_room(message, replies)?;
    let errno = send_unread(turns, alloc, passes, log, port, message)?;
    acknowledge(message, errno, replies);
    Ok(())
}

/// A port sends a message: it is carried out and logged. This is its errno.
fn send_unread<R: Wait, G: Gate>(
    turns: &Turns<'_, R, G>,
    alloc: Global,
    passes: &mut Passes,
    log: &mut Log,
    port: u32,
    message: &Message<'_>,
) -> Result<u16, NoMemory>
    requires port { IsSome (get nat_cmp (outlets_of turns.now.places.now).mailboxes port) }
    requires room { 0 < log.old.dids.room }
    requires of { AreOf turns.now.places.now passes.old.locks passes.old.trail.known }
    ensures of { AreOf turns.now.places.now passes.new.locks passes.new.trail.known }
    ensures room { 0 < log.new.dids.room }
    ensures sent { IfOk result (λ errno. (before : List ℕ) →
        IsSent (places_of turns.now.places.now)
        (setting_of turns.now.places.now) port (message_of message.now)
        log.old.dids.items log.new.dids.items passes.old.trail passes.new.trail
        before (before ++ answer (message_of message.now) errno)) }
    ensures looked { OnErr result (MayLook passes.old.trail passes.new.trail) }
    ensures same { OnErr result (log.new.dids.items ≡ log.old.dids.items) }
    ensures timely { (heard : List Post) →
        AreTimelyOpen passes.old.clock passes.old.timed (port_with port log.old.dids.items heard) →
        AreTimelyOpen passes.new.clock passes.new.timed (port_with port log.new.dids.items heard) }
{
    let decoded = decode_request(alloc, message)?;
    let place = asked_place(turns.places, &decoded);
    let call = log.next_call();
    let words = words_of(alloc, port, call, message.whole, &decoded)?;
    log.make_room()?;
    let errno = carry_out(turns, alloc, passes, port, call, decoded)?;
    log.send(words, due(message, errno));
    if let Some(place) = place {
        turns.gate.answered(place);
    }
    Ok(errno)
}
