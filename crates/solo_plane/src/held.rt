//! What a plane holds.

use crate::numbers::Numbers;
use crate::port::PortState;
use histories::Lost;
use packet_entry::{Card, Stock};
use place_history::Place;

/// What a plane holds.
pub(crate) struct Held {
    /// The queues, and what happened at them.
    pub(crate) place: Place,
    /// The ports.
    pub(crate) ports: Ports,
    /// The packets that were fed.
    pub(crate) fed: Stock<Card>,
    /// The packets that were lost.
    pub(crate) lost: Stock<Lost>,
}

/// The ports, in the order in which they opened.
#[derive(Drop)]
pub(crate) struct Ports {
    pub(crate) numbers: Numbers,
    /// How each of them stands.
    pub(crate) states: Vec<PortState>,
}
