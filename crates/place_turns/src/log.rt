//! What a port did.

ghost use Rattle.std.specs.Prelude.{◌≡◌, ◌<◌, ◌≤◌, ◌++◌, ◌∷◌, [], IfOk, OnOk};
ghost use Rattle.histories.specs.declared.log.Did.TheVariants.{Sent, Received, Closed};
ghost use Rattle.packet_moves.specs.Calls.{sent_in};

use histories::{AskWords, Did, Dids};
use packet_entry::{Letter, NoMemory, Stock};
use std::alloc::Global;

/// What a port did, and the room for more of it.
#[derive(Drop)]
pub struct Log {
    /// All of it, in its order.
    pub dids: Stock<Did>,
    /// How many messages it sent, modulo 2^32.
    calls: u32,
    ghost counted: { calls ≡ sent_in dids.items },
}

impl Log {
    ghost use Rattle.packet_moves.specs.Calls.{next_call};

    /// Nothing yet, with room for closing.
    pub fn new(alloc: Global) -> Result<Log, NoMemory>
        ensures none { IfOk result (λ log. log.dids.items ≡ []) }
        ensures room { IfOk result (λ log. 0 < log.dids.room) }
    {
        let mut dids = Stock::new(alloc);
        dids.make_room(1)?;
        Ok(Log { dids, calls: 0 })
    }

    /// How many messages the port sent, modulo 2^32.
    pub fn calls(&self) -> u32
        ensures { result ≡ sent_in self.now.dids.items }
    {
        self.calls
    }

    /// The number of the port's next message: they count from 1, modulo 2^32.
    pub fn next_call(&self) -> u32
        ensures { result ≡ next_call self.now.dids.items }
    {
        self.calls.wrapping_add(1)
    }

    /// Makes room for one thing more, and for closing.
    pub fn make_room(&mut self) -> Result<(), NoMemory>
        ensures same { self.new.dids.items ≡ self.old.dids.items }
        ensures kept { self.old.dids.room ≤ self.new.dids.room }
        ensures ok { OnOk result (2 ≤ self.new.dids.room) }
    {
        self.dids.make_room(2)
    }

    /// Notes a notice that was received. Takes no memory.
    pub fn receive(&mut self, letter: &Letter)
        requires { 2 ≤ self.old.dids.room }
        ensures noted { self.new.dids.items ≡ self.old.dids.items
            ++ Received letter.now.queue letter.now.number letter.now.visit ∷ [] }
        ensures room { 0 < self.new.dids.room }
    {
        self.dids.push(Did::Received {
            queue: letter.queue,
            number: letter.number,
            visit: letter.visit,
        });
    }

    /// Notes a message with the next number. Takes no memory.
    pub fn send(&mut self, ask: AskWords, answer: Option<u16>)
        requires { 2 ≤ self.old.dids.room }
        ensures noted { self.new.dids.items ≡ self.old.dids.items
            ++ Sent (next_call self.old.dids.items) ask answer ∷ [] }
        ensures room { 0 < self.new.dids.room }
    {
        let call = self.next_call();
        self.calls = call;
        self.dids.push(Did::Sent { call, ask, answer });
    }

    /// Notes that the port closed. Takes no memory.
    pub fn close(&mut self)
        requires { 0 < self.old.dids.room }
        ensures { self.new.dids.items ≡ self.old.dids.items ++ Closed ∷ [] }
    {
        self.dids.push(Did::Closed);
    }

    /// All that it did, in its order. Takes no memory.
    pub fn into_dids(self) -> Dids
        ensures { result ≡ self.dids.items }
    {
        let Log { dids, calls: _ } = self;
        dids.into_sequence()
    }
}
