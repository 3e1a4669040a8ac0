//! One port.

ghost use Rattle.std.specs.Prelude.{◌≡◌, ◌<◌, ◌≤◌, IfOk, OnOk, OnErr, false};
ghost use Rattle.histories.specs.declared.log.Did.TheVariants.{Sent};
ghost use Rattle.packet_moves.specs.Calls.{sent_in};

use crate::mailbox::Mailbox;
use histories::{AskWords, Did};
use packet_entry::{Letter, NoMemory, Stock};
use std::alloc::Global;
use std::mem;

/// A port: its mailbox, and what it did.
#[derive(Drop)]
pub(crate) struct PortState {
    /// The notices that it hasn't received.
    pub(crate) mailbox: Mailbox,
    /// What it did.
    pub(crate) dids: Stock<Did>,
    /// How many messages it sent, modulo 2^32.
    pub(crate) calls: u32,
    /// Whether it was closed.
    pub(crate) is_closed: bool,
    ghost counted: { calls ≡ sent_in dids.items },
    ghost closable: { is_closed ≡ false → 0 < dids.room },
}

impl PortState {
    ghost use Rattle.packet_moves.specs.Calls.{next_call};
    ghost use Rattle.packet_moves.specs.World.{opened, delivered, first_of, received};
    ghost use Rattle.packet_moves.specs.World.{having_done, closed};
    ghost use Rattle.solo_plane.specs.PortView.{port_of, log_in};

    /// A port that did nothing yet.
    pub(crate) fn new(alloc: Global) -> Result<PortState, NoMemory>
        ensures { IfOk result (λ port. port_of port ≡ opened) }
    {
        let mut dids = Stock::new(alloc);
        dids.make_room(1)?;
        Ok(PortState {
            mailbox: Mailbox::new(alloc),
            dids,
            calls: 0,
            is_closed: false,
        })
    }

    /// The number of the port's next message: they count from 1, modulo 2^32.
    pub(crate) fn next_call(&self) -> u32
        ensures { result ≡ next_call self.now.dids.items }
    {
        self.calls.wrapping_add(1)
    }

    /// Makes room for one notice more.
    pub(crate) fn make_mail_room(&mut self) -> Result<(), NoMemory>
        ensures same { port_of self.new ≡ port_of self.old }
        ensures log { log_in self.new ≡ log_in self.old }
        ensures ok { OnOk result (0 < self.new.mailbox.room) }
    {
        self.mailbox.make_room()
    }

    /// Puts a notice into the mailbox, for which there is room. Takes no memory.
    pub(crate) fn deliver(&mut self, letter: Letter)
        requires { 0 < self.old.mailbox.room }
        ensures port { port_of self.new ≡ delivered letter (port_of self.old) }
        ensures log { log_in self.new ≡ log_in self.old }
    {
        self.mailbox.put(letter);
    }

    /// Makes room for one more of what it did, and for closing. Who closed does nothing more.
    pub(crate) fn make_room(&mut self) -> Result<(), NoMemory>
        ensures same { port_of self.new ≡ port_of self.old }
        ensures ok { OnOk result (2 ≤ self.new.dids.room) }
    {
        self.dids.make_room(2)
    }

    /// Takes the first notice out, which is noted; `None` exactly where there is none, and then no
    /// memory is taken.
    pub(crate) fn receive(&mut self) -> Result<Option<Letter>, NoMemory>
        ensures port { OnOk result (port_of self.new ≡ received (port_of self.old)) }
        ensures letter { IfOk result (λ letter. letter ≡ first_of self.old.mailbox.items) }
        ensures err { OnErr result (port_of self.new ≡ port_of self.old) }
    {
        if self.mailbox.len() == 0 {
            return Ok(None);
        }
        self.make_room()?;
        Ok(self.take_first())
    }

    /// The same with the room for what is noted.
    fn take_first(&mut self) -> Option<Letter>
        requires { 2 ≤ self.old.dids.room }
        ensures port { port_of self.new ≡ received (port_of self.old) }
        ensures letter { result ≡ first_of self.old.mailbox.items }
    {
        let letter = self.mailbox.take()?;
        self.dids.push(Did::Received {
            queue: letter.queue,
            number: letter.number,
            visit: letter.visit,
        });
        Some(letter)
    }

    /// Notes a message with the next number. Takes no memory.
    pub(crate) fn send(&mut self, ask: AskWords, answer: Option<u16>)
        requires { 2 ≤ self.old.dids.room }
        ensures { port_of self.new
            ≡ having_done (Sent (next_call self.old.dids.items) ask answer) (port_of self.old) }
    {
        let call = self.next_call();
        self.calls = call;
        self.dids.push(Did::Sent { call, ask, answer });
    }

    /// Closes the port. Takes no memory.
    pub(crate) fn close(&mut self)
        requires { self.old.is_closed ≡ false }
        ensures { port_of self.new ≡ closed (port_of self.old) }
    {
        self.is_closed = true;
        self.dids.push(Did::Closed);
    }
    /// Takes out what it did. It does nothing more.
    pub(crate) fn take_dids(&mut self, alloc: Global) -> Stock<Did>
        ensures { result.items ≡ self.old.dids.items }
    {
        self.calls = 0;
        self.is_closed = true;
        mem::replace(&mut self.dids, Stock::new(alloc))
    }
}
