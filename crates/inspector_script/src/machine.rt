//! The inspector of one port.

ghost use Rattle.std.specs.Prelude.{◌≡◌, ◌<◌, ◌≤◌, length, All, IfOk, IsOk, OnOk, OnErr};
ghost use Rattle.script_lines.specs.Limits.{IsAsk};
ghost use Rattle.inspector_script.specs.Scripts.{IsUnanswered, IsUnansweredAs, answer, closing};
ghost use Rattle.inspector_script.specs.Scripts.{count_after, next_count, opening};

use crate::script::Script;
use nfqa_msgs::Notice;
use packet_entry::NoMemory;
use script_lines::{Ask, Asks};
use std::alloc::Global;
use std::marker::Model;

/// The inspector of one port of a script. It counts the notices that the port received.
#[derive(Debug, Drop)]
pub struct PortMachine {
    /// Which of the script's ports it is, counted from 0.
    place: u32,
    received: u32,
}

impl Model for PortMachine {
    ghost use Rattle.inspector_script.specs.Scripts.{Machine};

    ghost Value = { Machine };

    ghost view = { λ m. record { place = m.place; received = m.received } };
}

impl PortMachine {
    /// The inspector of the port at this place, counted from 0. No notice has been received.
    pub fn new(place: u32) -> PortMachine
        ensures { result ≡ record { place = place; received = 0 } }
    {
        PortMachine { place, received: 0 }
    }

    /// What it asks for when its port opens: the `open` lines in their order.
    #[tactic(auto, using(crate::proofs::AskLengths::opening_fits))]
    pub fn opening(&self, alloc: Global, script: &Script) -> Result<Asks, NoMemory>
        requires has_port { self.now.place < length script.now.ports }
        ensures asks { IfOk result (λ asks. asks ≡ opening script.now self.now.place) }
        ensures fit { IfOk result (All IsAsk) }
    {
        script.block(self.place).opening(alloc)
    }

    /// What it asks for at the end: the `end` lines in their order.
    #[tactic(auto, using(crate::proofs::AskLengths::closing_fits))]
    pub fn closing(&self, alloc: Global, script: &Script) -> Result<Asks, NoMemory>
        requires has_port { self.now.place < length script.now.ports }
        ensures asks { IfOk result (λ asks. asks ≡ closing script.now self.now.place) }
        ensures fit { IfOk result (All IsAsk) }
    {
        script.block(self.place).closing(alloc)
    }

    /// Counts a notice that can't be read: nothing is asked for in answer. The count stops at
    /// 4,294,967,295.
    pub fn pass_over(&mut self)
        ensures { self.new ≡ record self.old { received = next_count self.old.received } }
    {
        if self.received < u32::MAX {
            self.received += 1;
        }
    }

    /// How many notices it counted.
    pub fn counted(&self) -> u32
        ensures { result ≡ self.now.received }
    {
        self.received
    }

    /// Counts so many notices more. The count stops at 4,294,967,295.
    pub fn count(&mut self, n: u32)
        ensures { self.new ≡ record self.old { received = count_after self.old.received n } }
    {
        self.received = self.received.saturating_add(n);
    }

    /// What it asks for in answer to this notice as the `n`-th, however many it counted: the asks
    /// of the first `on` line whose conditions all hold, or none. Each line is looked at once at
    /// most. Nothing is counted.
    #[tactic(auto, using(crate::proofs::AskLengths::answer_fits))]
    pub fn answer_as(
        &self,
        alloc: Global,
        script: &Script,
        n: u32,
        notice: &Notice,
    ) -> Result<Asks, NoMemory>
        requires has_port { self.now.place < length script.now.ports }
        requires some { 1 ≤ n }
        ensures asks { IfOk result (λ asks. asks ≡ answer script.now self.now.place n notice.now) }
        ensures fit { IfOk result (All IsAsk) }
        // Where no line answers, no memory is taken.
        ensures unanswered { IsUnansweredAs script.now self.now.place n notice.now → IsOk result }
    {
        script.block(self.place).answer(Vec::new(alloc), n, notice)
    }

    /// Counts the notice, and says what it asks for in answer: what `answer_as` says of it with the
    /// count one more. The count stops at 4,294,967,295. `NoMemory` leaves it as it was.
    pub fn answer(
        &mut self,
        alloc: Global,
        script: &Script,
        notice: &Notice,
    ) -> Result<Asks, NoMemory>
        requires has_port { self.old.place < length script.now.ports }
        ensures asks { IfOk result (λ asks.
            asks ≡ answer script.now self.old.place (next_count self.old.received) notice.now) }
        ensures fit { IfOk result (All IsAsk) }
        // Where no line answers, no memory is taken.
        ensures unanswered { IsUnanswered script.now self.old notice.now → IsOk result }
        ensures counted { OnOk result
            (self.new ≡ record self.old { received = next_count self.old.received }) }
        ensures err { OnErr result (self.new ≡ self.old) }
    {
        self.answer_in(Vec::new(alloc), script, notice)
    }

    /// As [`answer`](PortMachine::answer) does. The list is made in `room`, whose items go, so that
    /// memory is taken only for what is longer.
    #[tactic(auto, using(crate::proofs::AskLengths::answer_fits))]
    pub fn answer_in(
        &mut self,
        room: Vec<Ask>,
        script: &Script,
        notice: &Notice,
    ) -> Result<Asks, NoMemory>
        requires has_port { self.old.place < length script.now.ports }
        ensures asks { IfOk result (λ asks.
            asks ≡ answer script.now self.old.place (next_count self.old.received) notice.now) }
        ensures fit { IfOk result (All IsAsk) }
        // Where no line answers, no memory is taken.
        ensures unanswered { IsUnanswered script.now self.old notice.now → IsOk result }
        ensures counted { OnOk result
            (self.new ≡ record self.old { received = next_count self.old.received }) }
        ensures err { OnErr result (self.new ≡ self.old) }
    {
        let received = self.received.saturating_add(1);
        let asks = script.block(self.place).answer(room, received, notice)?;
        self.received = received;
        Ok(asks)
    }
}
