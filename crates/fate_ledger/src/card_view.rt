//! Cards, and bytes, that are seen where they lie.

ghost use Rattle.std.specs.Prelude.{◌≡◌, None, IfOk};
ghost use Rattle.packet_entry.specs.Card.{edited};

use packet_entry::{Bytes, Card, NoMemory};
use std::marker::Model;

/// A packet's card, of which nothing is copied: with what it arrived, and what was changed since.
#[derive(Debug, Drop)]
pub struct CardView<'a> {
    /// With what it arrived.
    arrived: &'a Card,
    mark: u32,
    priority: u32,
    bytes: &'a Bytes,
}

/// Bytes, of which nothing is copied.
#[derive(Debug, Drop)]
pub(crate) struct BytesView<'a> {
    bytes: &'a Bytes,
}

impl<'a> Model for BytesView<'a> {
    ghost use Rattle.std.specs.Prelude.{List, ℕ};

    ghost Value = { List ℕ };

    ghost view = { λ v. v.bytes.now };
}

impl<'a> BytesView<'a> {
    /// These bytes.
    pub(crate) fn new(bytes: &'a Bytes) -> BytesView<'a>
        ensures { result ≡ bytes.now }
    {
        BytesView { bytes }
    }

    /// The bytes once more, which are shared. `NoMemory` comes only where 2^63 - 1 lists share them
    /// already.
    pub(crate) fn share(&self) -> Result<Bytes, NoMemory>
        ensures { IfOk result (λ bytes. bytes ≡ self.now) }
    {
        self.bytes.share()
    }
}

impl<'a> Model for CardView<'a> {
    ghost use Rattle.packet_entry.specs.declared.packet.Card.{Card};

    ghost Value = { Card };

    ghost view = { λ v. record v.arrived.now {
      mark = v.mark;
      priority = v.priority;
      bytes = v.bytes.now;
    } };
}

impl<'a> CardView<'a> {
    /// The card as it is.
    pub(crate) fn new(card: &'a Card) -> CardView<'a>
        ensures { result ≡ card.now }
    {
        CardView {
            arrived: card,
            mark: card.mark,
            priority: card.priority,
            bytes: &card.bytes,
        }
    }

    /// The packet's number.
    pub(crate) fn number(&self) -> u32
        ensures { result ≡ self.now.number }
    {
        self.arrived.number
    }

    /// How often the packet had arrived at a queue.
    pub(crate) fn visit(&self) -> u32
        ensures { result ≡ self.now.visit }
    {
        self.arrived.visit
    }

    /// The packet's mark.
    pub(crate) fn mark(&self) -> u32
        ensures { result ≡ self.now.mark }
    {
        self.mark
    }

    /// The packet's priority.
    pub(crate) fn priority(&self) -> u32
        ensures { result ≡ self.now.priority }
    {
        self.priority
    }

    /// The packet's bytes, where they lie.
    pub(crate) fn bytes(&self) -> BytesView<'a>
        ensures { result ≡ self.now.bytes }
    {
        BytesView { bytes: self.bytes }
    }

    /// The card with the mark and the priority that are given.
    pub(crate) fn changed(self, mark: Option<u32>, priority: Option<u32>) -> CardView<'a>
        ensures { result ≡ edited self.entry mark None priority }
    {
        CardView {
            arrived: self.arrived,
            mark: mark.unwrap_or(self.mark),
            priority: priority.unwrap_or(self.priority),
            bytes: self.bytes,
        }
    }

    /// The card with the bytes that are given.
    pub(crate) fn replaced(self, payload: &'a Option<Bytes>) -> CardView<'a>
        ensures { result ≡ edited self.entry None payload.now None }
    {
        match payload {
            Some(given) => CardView {
                arrived: self.arrived,
                mark: self.mark,
                priority: self.priority,
                bytes: given,
            },
            None => self,
        }
    }
}
