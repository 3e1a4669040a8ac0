//! The passes of a plane: of who feeds, and of ports, open and closed.

ghost use Rattle.std.specs.Prelude.{◌≡◌, Bool, true, false, min};
ghost use Rattle.packet_moves.specs.Calls.{sent_in};
ghost use Rattle.place_rows.specs.Shares as share;
ghost use Rattle.plane.specs.Numbers.{most_fed};

use crate::past::{Link, Past};
use mailbox::Receiver;
use packet_entry::{Card, Stock};
use place_turns::{Log, Passes};
use std::marker::{Model, PhantomData};

/// How many packets are fed at most by one pass.
const MAX_FED: u32 = 16_777_215;

/// The right to feed packets to one plane. It may go from thread to thread.
#[derive(Drop)]
pub struct FeederPass {
    pub(crate) passes: Passes,
    pub(crate) fed: Stock<Card>,
    /// What it has of passes that were joined into it, before its own lists.
    pub(crate) past: Past,
    /// How many packets they fed; the number stops at 16,777,215.
    pub(crate) fed_before: u32,
    /// The memory with which it is joined into another.
    pub(crate) link: Box<Link>,
}

impl Model for FeederPass {
    ghost use Rattle.std.specs.Coded.{codes};
    ghost use Rattle.turn_lock.specs.Parts.{tree_code};
    ghost use Rattle.std.specs.Prelude.{◌++◌};
    ghost use Rattle.plane.specs.Feeders.{IsFeeder};
    ghost use Rattle.plane.specs.Passes.{FeederView};
    ghost use Rattle.plane.specs.Past.{fed_by, lost_by, after_lost};

    ghost Value = { FeederView };

    ghost coded = { Prim.hlevel (codes, tree_code) };

    ghost view = { λ p. record {
      locks = p.passes.locks;
      trail = after_lost (lost_by p.past) p.passes.trail;
      fed = fed_by p.past ++ p.fed.items;
    } };

    ghost use Rattle.place_turns.specs.Timely.{AreTimelyOpen, feeder};

    ghost invariant = { λ p. IsFeeder (fed_by p.past) p.fed_before p.fed
        × AreTimelyOpen p.passes.clock p.passes.timed feeder };
}

/// So many packets, at most as many as one pass says that it fed.
pub(crate) fn up_to_most(count: u32) -> u32
    ensures { result ≡ min count most_fed }
{
    count.min(MAX_FED)
}

impl FeederPass {
    ghost use Rattle.plane.specs.Feeders.{count_of};

    /// How many packets it fed, those of passes that were joined into it among them. The number
    /// stops at 16,777,215.
    pub fn fed(&self) -> u32
        ensures { result ≡ count_of self.now.fed }
    {
        up_to_most(self.fed_before + self.fed.len() as u32)
    }

    /// How many notices its calls put into a port's mailbox.
    pub fn sent(&self, port: u32) -> u128
        ensures { result ≡ share.sent_in port self.now.trail.known }
    {
        self.passes.sent_to(port)
    }
}

/// Whether a port is open: the state of its pass is [`Open`] or [`Closed`].
pub trait PortState {
    ghost is_open: { Bool };
}

/// The port may send, receive and close.
#[derive(Drop)]
pub struct Open;

/// The port closed.
#[derive(Drop)]
pub struct Closed;

impl PortState for Open {
    ghost is_open = { true };
}

impl PortState for Closed {
    ghost is_open = { false };
}

/// The pass of a port in one of the two states: its log, and its parts of the locks.
#[derive(Drop)]
pub struct Port<S: PortState> {
    pub(crate) passes: Passes,
    pub(crate) port: u32,
    pub(crate) receiver: Receiver,
    pub(crate) log: Log,
    pub(crate) state: PhantomData<S>,
}

/// The right to act as one port of one plane. It may go from thread to thread.
pub type PortPass = Port<Open>;

/// A port that closed: its log, and its parts of the locks.
pub type ClosedPort = Port<Closed>;

impl<S: PortState> Model for Port<S> {
    ghost use Rattle.std.specs.Prelude.{MatchBool};
    ghost use Rattle.std.specs.Coded.{codes};
    ghost use Rattle.turn_lock.specs.Parts.{tree_code};
    ghost use Rattle.plane.specs.Passes.{PortView, HasLogged, IsPort};

    ghost Value = { PortView };

    ghost coded = { Prim.hlevel (codes, tree_code) };

    ghost view = { λ p. record {
      locks = p.passes.locks;
      trail = p.passes.trail;
      port = p.port;
      receiver = p.receiver;
      dids = p.log.dids.items;
    } };

    ghost use Rattle.place_turns.specs.Timely.{AreTimely, AreTimelyOpen, port_with};

    ghost invariant = { λ p. MatchBool S.is_open
        (IsPort p.log.dids p.receiver × AreTimelyOpen p.passes.clock p.passes.timed
        (port_with p.port p.log.dids.items p.receiver.received))
        (HasLogged p.log.dids.items p.receiver × AreTimely p.passes.clock p.passes.timed
        (port_with p.port p.log.dids.items p.receiver.received)) };
}

impl<S: PortState> Port<S> {
    /// How many notices its calls put into a port's mailbox.
    pub fn sent(&self, port: u32) -> u128
        ensures { result ≡ share.sent_in port self.now.trail.known }
    {
        self.passes.sent_to(port)
    }
}

impl PortPass {
    /// The number of the port.
    pub fn port(&self) -> u32
        ensures { result ≡ self.now.port }
    {
        self.port
    }

    /// How many messages the port sent, modulo 2^32.
    pub fn calls(&self) -> u32
        ensures { result ≡ sent_in self.now.dids }
    {
        self.log.calls()
    }
}
