//! Arrivals: those that came, and those that are asked for.

ghost use Rattle.std.specs.Prelude.{◌≡◌, option_to_list};
ghost use Rattle.histories.specs.Journeys as journeys;
ghost use Rattle.journey_audit.specs.Comparing as comparing;

use hook_chain::Next;
use packet_entry::Card;
use std::marker::Model;

/// An arrival of a packet at a queue.
#[derive(Drop)]
pub(crate) struct Arrival {
    /// The queue's number.
    pub(crate) queue: u16,
    /// The packet as it arrives.
    pub(crate) card: Card,
    /// Whether the rule or the verdict that sent it there lets it go on where nobody is bound.
    pub(crate) bypass: bool,
}

impl Model for Arrival {
    ghost use Rattle.histories.specs.Journeys.{Arrival};

    ghost Value = { Arrival };

    ghost view = { λ a. record { queue = a.queue; card = a.card; bypass = a.bypass } };
}

impl Arrival {
    /// Whether two arrivals are the same.
    pub(crate) fn is_same(&self, other: &Arrival) -> bool
        ensures { result ≡ comparing.is_same self.now other.now }
    {
        self.queue == other.queue
            && self.bypass == other.bypass
            && is_same_card(&self.card, &other.card)
    }
}

fn is_same_card(one: &Card, other: &Card) -> bool
    ensures { result ≡ comparing.is_same_card one.now other.now }
{
    has_same_place(one, other) && has_same_marks(one, other) && has_same_bytes(one, other)
}

fn has_same_place(one: &Card, other: &Card) -> bool
    ensures { result ≡ comparing.has_same_place one.now other.now }
{
    one.number == other.number && one.visit == other.visit && one.table == other.table
}

fn has_same_marks(one: &Card, other: &Card) -> bool
    ensures { result ≡ comparing.has_same_marks one.now other.now }
{
    one.mark == other.mark
        && one.priority == other.priority
        && one.seconds == other.seconds
        && one.micros == other.micros
}

fn has_same_bytes(one: &Card, other: &Card) -> bool
    ensures { result ≡ comparing.has_same_bytes one.now other.now }
{
    one.protocol == other.protocol
        && one.link.as_slice() == other.link.as_slice()
        && one.bytes.as_slice() == other.bytes.as_slice()
}

/// What a route asks for of a packet at this visit; nothing where the route ends.
pub(crate) fn asked_by(next: Next, mut card: Card, visit: u32) -> Option<Arrival>
    ensures { option_to_list result ≡ journeys.asked_by next card visit }
{
    match next {
        Next::Released => None,
        Next::To {
            queue,
            bypass,
            table,
        } => {
            card.visit = visit;
            card.table = table;
            Some(Arrival {
                queue,
                card,
                bypass,
            })
        }
    }
}

/// The same where there may be no route.
pub(crate) fn asked_by_some(next: Option<Next>, card: Card, visit: u32) -> Option<Arrival>
    ensures { option_to_list result ≡ journeys.asked_by_some next card visit }
{
    match next {
        Some(next) => asked_by(next, card, visit),
        None => None,
    }
}
