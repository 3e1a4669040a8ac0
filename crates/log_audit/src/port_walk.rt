//! The walk along a port's log.

ghost use Rattle.std.specs.Prelude.{◌≡◌, ◌<◌, ◌↔◌, ◌++◌, ℕ, Some, None, Option, IfOk, OnOk, IsTrue};
ghost use Rattle.std.specs.Prelude.{length, option_map, option_copied, true, []};
ghost use Rattle.packet_entry.specs.declared.letter.Letter.{Letter};
ghost use Rattle.nfqa_msgs.specs.declared.request.Decoded.{Decoded};
ghost use Rattle.histories.specs.Happenings.{queue_of};
ghost use Rattle.histories.specs.declared.log.Did.TheVariants.{Received, Sent, Closed};
ghost use Rattle.inspector_script.specs.Scripts.{ScriptValue};
ghost use Rattle.run_parts.specs.Order.{kind_by};
ghost use Rattle.log_audit.specs.Walking as walking;
ghost use Rattle.port_audit.specs.Kinds.{kind_of};
ghost use Rattle.log_audit.specs.Dues as dues;
ghost use Rattle.log_audit.specs.PortWalks as port_walks;
ghost use Rattle.log_audit.specs.Stays as stays;

use crate::duties::Duties;
use crate::notices::{Notices, Stay};
use histories::{AskWords, Did, Dids};
use inspector_script::{Asks, PortMachine, Script};
use nfqa_msgs::{Decoded, Notice, Request};
use packet_entry::NoMemory;
use port_audit::{KindAt, MessageKind};
use std::alloc::Global;

/// Where the walk along a port's log is.
#[derive(Drop)]
pub(crate) struct PortWalk {
    /// What the port owes: its opening, or what it answers to the last notice.
    pub(crate) owed: Duties,
    /// What it has to do at its end.
    pub(crate) ends: Duties,
    /// The number of its next message.
    pub(crate) call: u32,
    /// How many notices it received; it stops at its last value.
    pub(crate) received: u32,
    /// Whether it received one.
    pub(crate) heard: bool,
    /// Whether it is open.
    pub(crate) is_open: bool,
    /// Its requests so far.
    pub(crate) timed: Vec<KindAt>,
}

/// The requests of a port whose log is walked to its end; `None` where it can't be.
pub(crate) fn walk_log(
    alloc: Global,
    script: &Script,
    place: u32,
    port: u32,
    notices: &Notices,
    dids: &Dids,
) -> Result<Option<Vec<KindAt>>, NoMemory>
    requires place { place < length script.now.ports }
    ensures { (known : walking.Known) → stays.AreTold known notices.now → IfOk result (λ kinds.
        port_walks.IsWalkedWith known script.now place port dids.now
        (option_map (λ ks. ks.items) kinds)) }
{
    let mut walk = PortWalk::begin(alloc, script, place)?;
    if !walk.go_on_over(alloc, script, place, port, notices, dids)? {
        return Ok(None);
    }
    if !walk.is_done(alloc, port)? {
        return Ok(None);
    }
    Ok(Some(walk.timed))
}

impl PortWalk {
    /// Before the first entry of the log of the script's port at this place.
    fn begin(alloc: Global, script: &Script, place: u32) -> Result<PortWalk, NoMemory>
        requires { place < length script.now.ports }
        ensures held { IfOk result port_walks.IsHeld }
        ensures begins { IfOk result (λ walk.
            port_walks.walk_of walk ≡ walking.beginning script.now place) }
    {
        let machine = PortMachine::new(place);
        Ok(PortWalk {
            owed: Duties::new(alloc, machine.opening(alloc, script)?),
            ends: Duties::new(alloc, machine.closing(alloc, script)?),
            call: 1,
            received: 0,
            heard: false,
            is_open: true,
            timed: Vec::new(alloc),
        })
    }

    /// Goes on over these entries; answers whether the port could do all of them.
    fn go_on_over(
        &mut self,
        alloc: Global,
        script: &Script,
        place: u32,
        port: u32,
        notices: &Notices,
        dids: &Dids,
    ) -> Result<bool, NoMemory>
        requires held { port_walks.IsHeld self.old }
        requires place { place < length script.now.ports }
        ensures held { OnOk result (port_walks.IsHeld self.new) }
        ensures goes { (known : walking.Known) → stays.AreTold known notices.now →
            IfOk result (port_walks.GoesOver known script.now place port dids.now
            (port_walks.walk_of self.old) (port_walks.walk_of self.new)) }
    {
        for did in dids {
            if !self.go_on(alloc, script, place, port, notices, did)? {
                return Ok(false);
            }
        }
        Ok(true)
    }

    /// Goes on over an entry; answers whether the port could do that next.
    fn go_on(
        &mut self,
        alloc: Global,
        script: &Script,
        place: u32,
        port: u32,
        notices: &Notices,
        did: &Did,
    ) -> Result<bool, NoMemory>
        requires held { port_walks.IsHeld self.old }
        requires place { place < length script.now.ports }
        ensures held { OnOk result (port_walks.IsHeld self.new) }
        ensures steps { (known : walking.Known) → stays.AreTold known notices.now →
            IfOk result (port_walks.Steps known script.now place port did.now
            (port_walks.walk_of self.old) (port_walks.walk_of self.new)) }
    {
        if !self.is_open {
            return Ok(false);
        }
        match did {
            Did::Received {
                queue,
                number,
                visit,
            } => {
                let stay = Stay {
                    queue: *queue,
                    number: *number,
                    visit: *visit,
                };
                self.receive(alloc, script, place, port, notices.get(&stay))
            }
            Did::Sent { call, ask, .. } => self.send(alloc, port, *call, ask),
            Did::Closed => self.close(alloc, port),
        }
    }

    /// The port receives a notice, which is one that is told.
    fn receive(
        &mut self,
        alloc: Global,
        script: &Script,
        place: u32,
        port: u32,
        notice: Option<&Notice>,
    ) -> Result<bool, NoMemory>
        requires held { port_walks.IsHeld self.old }
        requires place { place < length script.now.ports }
        requires open { self.old.is_open ≡ true }
        ensures held { OnOk result (port_walks.IsHeld self.new) }
        ensures steps { (known : walking.Known) (queue number visit : ℕ) →
            port_walks.IsTold (known queue number visit) (option_copied notice.entry) →
            IfOk result (port_walks.Steps known script.now place port
            (Received queue number visit) (port_walks.walk_of self.old)
            (port_walks.walk_of self.new)) }
    {
        self.owed.settle(alloc, port, self.call)?;
        if !self.owed.is_empty() {
            return Ok(false);
        }
        let Some(notice) = notice else {
            return Ok(false);
        };
        let received = self.received.saturating_add(1);
        let asks = PortMachine::new(place).answer_as(alloc, script, received, notice)?;
        self.owed = Duties::new(alloc, asks);
        self.received = received;
        self.heard = true;
        Ok(true)
    }

    /// The port sends a message, with this number, which is logged so.
    fn send(
        &mut self,
        alloc: Global,
        port: u32,
        call: u32,
        ask: &AskWords,
    ) -> Result<bool, NoMemory>
        requires held { port_walks.IsHeld self.old }
        requires open { self.old.is_open ≡ true }
        ensures held { OnOk result (port_walks.IsHeld self.new) }
        ensures steps { (known : walking.Known) (script : ScriptValue) (place : ℕ)
            (answer : Option ℕ) → IfOk result (port_walks.Steps known script place port
            (Sent call ask.now answer) (port_walks.walk_of self.old)
            (port_walks.walk_of self.new)) }
    {
        if call != self.call {
            return Ok(false);
        }
        self.owed.settle(alloc, port, call)?;
        if self.owed.is_empty() {
            return self.send_at_end(alloc, port, call, ask);
        }
        let kind = self.kind_owed();
        match self.owed.speak(alloc, port, call, ask)? {
            Some(decoded) => {
                self.count(kind, &decoded)?;
                Ok(true)
            }
            None => Ok(false),
        }
    }

    /// The port, which owes nothing, sends a message of its end.
    fn send_at_end(
        &mut self,
        alloc: Global,
        port: u32,
        call: u32,
        ask: &AskWords,
    ) -> Result<bool, NoMemory>
        requires held { port_walks.IsHeld self.old }
        requires open { self.old.is_open ≡ true }
        requires number { call ≡ self.old.call }
        requires none { dues.dues_of self.old.owed ≡ [] }
        ensures held { OnOk result (port_walks.IsHeld self.new) }
        ensures steps { (known : walking.Known) (script : ScriptValue) (place : ℕ)
            (answer : Option ℕ) → IfOk result (port_walks.Steps known script place port
            (Sent call ask.now answer) (port_walks.walk_of self.old)
            (port_walks.walk_of self.new)) }
    {
        self.ends.settle(alloc, port, call)?;
        match self.ends.speak(alloc, port, call, ask)? {
            Some(decoded) => {
                self.count(MessageKind::Ends, &decoded)?;
                Ok(true)
            }
            None => Ok(false),
        }
    }

    /// When a message is sent that is owed.
    fn kind_owed(&self) -> MessageKind
        ensures { kind_of result ≡ port_walks.owed_kind self.now.heard }
    {
        if self.heard {
            MessageKind::Answers
        } else {
            MessageKind::Opens
        }
    }

    /// Counts a message that was sent then; it is kept where it is a request.
    fn count(&mut self, kind: MessageKind, decoded: &Decoded) -> Result<(), NoMemory>
        ensures { OnOk result
            (port_walks.Counts (kind_of kind) decoded.now self.old self.new) }
    {
        if let Decoded::Asked { request } = decoded {
            self.timed.push(KindAt {
                queue: queue_of(request),
                kind,
            })?;
        }
        self.call = self.call.wrapping_add(1);
        Ok(())
    }

    /// The port closes.
    fn close(&mut self, alloc: Global, port: u32) -> Result<bool, NoMemory>
        requires held { port_walks.IsHeld self.old }
        requires open { self.old.is_open ≡ true }
        ensures held { OnOk result (port_walks.IsHeld self.new) }
        ensures steps { (known : walking.Known) (script : ScriptValue) (place : ℕ) →
            IfOk result (port_walks.Steps known script place port Closed
            (port_walks.walk_of self.old) (port_walks.walk_of self.new)) }
    {
        self.owed.settle(alloc, port, self.call)?;
        self.ends.settle(alloc, port, self.call)?;
        if !self.owed.is_empty() || !self.ends.is_closing() {
            return Ok(false);
        }
        self.owed = Duties::new(alloc, Asks::new(alloc));
        self.ends = Duties::new(alloc, Asks::new(alloc));
        self.is_open = false;
        Ok(true)
    }

    /// Whether no message is left to send, and no closing.
    fn is_done(&mut self, alloc: Global, port: u32) -> Result<bool, NoMemory>
        requires held { port_walks.IsHeld self.old }
        ensures done { IfOk result (λ done. IsTrue done
            ↔ walking.IsDone port (port_walks.walk_of self.old)) }
        ensures timed { OnOk result (self.new.timed.items ≡ self.old.timed.items) }
    {
        self.owed.settle(alloc, port, self.call)?;
        self.ends.settle(alloc, port, self.call)?;
        Ok(self.owed.is_empty() && self.ends.is_empty())
    }
}

/// The queue that a request names.
fn queue_of(request: &Request) -> u16
    ensures { result ≡ queue_of request.now }
{
    match request {
        Request::Config { queue, .. } => *queue,
        Request::Verdict { queue, .. } => *queue,
        Request::Batch { queue, .. } => *queue,
    }
}
