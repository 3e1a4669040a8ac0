//! The notices of arrivals that queues took.

ghost use Rattle.std.specs.Prelude.{◌≡◌, ◌≤◌, ◌↔◌, ◌∷◌, [], Some, IfOk, OnOk, Option, IsTrue, true};
ghost use Rattle.nfqa_msgs.specs.Numbers.{longest_range};
ghost use Rattle.queue_core.specs.WithOffer.{letter_of};
ghost use Rattle.queue_core.specs.State.{Bound};
ghost use Rattle.queue_replay.specs.Replays.{AreFound, IsToldBy, port_in};
ghost use Rattle.log_audit.specs.Stays as stays;

use histories::{Entries, Entry, Event, Reply};
use nfqa_msgs::{Notice, notice_of_card};
use packet_entry::{Card, IPV4, IPV6, NoMemory, Sequence};
use queue_core::Outcome;
use queue_replay::{Found, next_found};
use std::alloc::Global;
use std::collections::BTreeMap;

/// The bytes of an Ethernet header, without a tag and with one.
const ETHERNET_LENGTH: usize = 14;

const TAGGED_LENGTH: usize = 18;

/// A packet's stay in a queue.
#[derive(Clone, Copy, Debug, PartialEq, Eq, PartialOrd, Ord)]
pub(crate) struct Stay {
    /// The queue's number.
    pub(crate) queue: u16,
    /// The packet's number.
    pub(crate) number: u32,
    /// Which of its visits this is, counted from 1.
    pub(crate) visit: u32,
}

/// Notices by what they tell of.
pub(crate) type Notices = BTreeMap<Stay, Notice>;

/// Whether each packet that arrives has a protocol and a link header as packets have them.
pub(crate) fn are_packets(entries: &Entries) -> bool
    ensures { IsTrue result ↔ stays.ArePackets entries.now }
{
    for entry in entries {
        if !may_arrive(entry) {
            return false;
        }
    }
    true
}

/// Whether an entry is no arrival, or one of such a packet.
fn may_arrive(entry: &Entry) -> bool
    ensures { IsTrue result ↔ stays.IsPackets entry.now.event }
{
    match &entry.event {
        Event::Arrive { card, .. } => is_packets(card),
        Event::Ask { .. } => true,
        Event::PortClosed { .. } => true,
        Event::DeviceDown { .. } => true,
    }
}

/// The notices of the arrivals that these entries' queues took, of each stay the first. It is given
/// what was found at each entry.
pub(crate) fn notices_in(
    alloc: Global,
    entries: &Entries,
    found: &Sequence<Found>,
) -> Result<Notices, NoMemory>
    requires packets { stays.ArePackets entries.now }
    requires found { AreFound [] entries.now found.now }
    ensures { IfOk result (stays.AreTold (stays.known_in entries.now)) }
{
    let mut found = found.iter();
    let mut notices = BTreeMap::new(alloc);
    for entry in entries {
        let here = next_found(&mut found);
        keep(here, entry, &mut notices)?;
    }
    Ok(notices)
}

/// Keeps the notice of an entry, if it makes one, unless there is one of this stay.
fn keep(here: Found, entry: &Entry, notices: &mut Notices) -> Result<(), NoMemory>
    requires packets { stays.IsPackets entry.now.event }
    requires fits { here.range ≤ longest_range }
    ensures { OnOk result ((queue : Option Bound) → here.port ≡ port_in queue →
        IsToldBy queue here → stays.Keeps (stays.letters_at queue entry.now) entry.now.queue
        notices.old notices.new) }
{
    match here.port {
        Some(_) => keep_of(here, entry, notices),
        None => Ok(()),
    }
}

/// The same, at a bound queue.
fn keep_of(here: Found, entry: &Entry, notices: &mut Notices) -> Result<(), NoMemory>
    requires packets { stays.IsPackets entry.now.event }
    requires fits { here.range ≤ longest_range }
    ensures { OnOk result ((queue : Bound) → IsToldBy (Some queue) here →
        stays.Keeps (stays.letters_at (Some queue) entry.now) entry.now.queue
        notices.old notices.new) }
{
    match (&entry.event, entry.reply) {
        (
            Event::Arrive { card, .. },
            Reply::Arrived {
                outcome: Outcome::Taken { id },
            },
        ) => keep_taken(here, entry.queue, id, card, notices),
        _ => Ok(()),
    }
}

/// The same, of an arrival at the bound queue with this number, which took it under this id.
fn keep_taken(
    here: Found,
    number: u16,
    id: u32,
    card: &Card,
    notices: &mut Notices,
) -> Result<(), NoMemory>
    requires packet { stays.is_packets card.now ≡ true }
    requires fits { here.range ≤ longest_range }
    ensures { OnOk result ((queue : Bound) → IsToldBy (Some queue) here →
        stays.Keeps (letter_of number queue id card.now ∷ []) number notices.old notices.new) }
{
    let stay = Stay {
        queue: number,
        number: card.number,
        visit: card.visit,
    };
    let notice = notice_of_card(number, id, here.mode, here.range as u32, card)?;
    keep_first(stay, notice, notices)
}

/// Keeps a notice, unless there is one of this stay.
fn keep_first(stay: Stay, notice: Notice, notices: &mut Notices) -> Result<(), NoMemory>
    ensures { OnOk result (stays.KeepsFirst stay notice notices.old notices.new) }
{
    if !notices.contains_key(&stay) {
        notices.insert(stay, notice)?;
    }
    Ok(())
}

/// Whether this is IP's packet, with no link header, or an Ethernet header without a tag or with
/// one.
fn is_packets(card: &Card) -> bool
    ensures { result ≡ stays.is_packets card.now }
{
    (card.protocol == IPV4 || card.protocol == IPV6) && is_link_length(card.link.len())
}

fn is_link_length(length: usize) -> bool
    ensures { result ≡ stays.is_link_length length }
{
    length == 0 || length == ETHERNET_LENGTH || length == TAGGED_LENGTH
}
