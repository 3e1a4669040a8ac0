//! All passes of a run, as the caller holds them.

ghost use Rattle.std.specs.Prelude.{◌≡◌, ◌<◌, ◌↔◌, length, true, slice_index_or};
ghost use Rattle.std.specs.Prelude.{IfSome, IsSome, IsTrue, OnOk};
ghost use Rattle.inspector_script.specs.Scripts.{ScriptValue};
ghost use Rattle.plane.specs.declared.plane.Plane.{Plane};
ghost use Rattle.plane.specs.Passes.{PortView};
ghost use Rattle.plane.specs.Planes.{order_of, places_of};
ghost use Rattle.live_runs.specs.Passes.{AreMet};
ghost use Rattle.nfq_live.specs.Crews.{AreReceived, HaveMinds, IsCrewOf, OneShuts, all_sent};
ghost use Rattle.nfq_live.specs.Crews.{is_open_in, passes_of};
ghost use Rattle.live_passes.specs.Numbered.{numbers_of};

use live_passes::{
    counts_say_what_was_sent, passes_that_meet_are_met, ports_speak_by_their_passes,
};
use live_runs::meetings_and_closings_send_nothing;
use live_work::{Feeding, Mind};
use packet_entry::{NoMemory, Sequence};
use plane::{ClosedPort, Plane, PortPass};
use std::alloc::Global;
use std::mem::replace;
use std::sync::Wait;
use turn_lock::{a_part_is_known_by_its_ways, parts_are_put_together_in_any_order};

/// All passes of a run, with what is kept of the open ports. A plane can't be let go while packets
/// wait in it: whatever happens it is closed, with all of these.
pub(crate) struct Crew {
    pub(crate) feeding: Feeding,
    /// The open ports, in the script's order.
    pub(crate) ports: Vec<PortPass>,
    /// What is kept of each of them, in the same order.
    pub(crate) minds: Vec<Mind>,
    pub(crate) closed: Vec<ClosedPort>,
}

impl Crew {
    /// All passes meet: each sees what any of them has seen. What all passes sent stays as it was.
    pub(crate) fn meet(&mut self, alloc: Global, plane: &Plane) -> Result<(), NoMemory>
        requires { IsCrewOf plane.now self.old }
        ensures crew { IsCrewOf plane.now self.new }
        ensures minds { (script : ScriptValue) → HaveMinds script self.old →
            HaveMinds script self.new }
        ensures met { OnOk result
            (AreMet (order_of plane.now) (passes_of self.old) (passes_of self.new)) }
        ensures numbers { numbers_of self.new.ports.items ≡ numbers_of self.old.ports.items }
        ensures closed { numbers_of self.new.closed.items ≡ numbers_of self.old.closed.items }
        ensures fed { self.new.feeding.pass.fed ≡ self.old.feeding.pass.fed }
        ensures received { AreReceived (order_of plane.now) (places_of plane.now) self.old →
            OnOk result (AreReceived (order_of plane.now) (places_of plane.now) self.new) }
    {
        meetings_and_closings_send_nothing();
        passes_that_meet_are_met();
        let mut ports = Sequence::from_vec(replace(&mut self.ports, Vec::new(alloc)));
        let mut closed = Sequence::from_vec(replace(&mut self.closed, Vec::new(alloc)));
        let outcome = plane.meet(&mut self.feeding.pass, &mut ports, &mut closed);
        self.ports = ports.into_vec();
        self.closed = closed.into_vec();
        outcome
    }

    /// Where the pass of a port is among those of the open ports.
    pub(crate) fn find(&self, port: u32) -> Option<usize>
        ensures there { IfSome result (λ at. (at < length self.now.ports.items)
            × ((d : PortView) → (slice_index_or self.now.ports.items at d).port ≡ port)) }
        ensures found { IsSome result ↔ (is_open_in self.now port ≡ true) }
    {
        for at in 0..self.ports.len() {
            if self.ports[at].port() == port {
                return Some(at);
            }
        }
        None
    }

    /// An open port closes. What that takes of memory is taken before, so that where there is none
    /// the port is still open. What all passes sent stays as it was.
    pub(crate) fn close_at<R: Wait>(
        &mut self,
        rt: &R,
        plane: &Plane,
        at: usize,
    ) -> Result<(), NoMemory>
        requires crew { IsCrewOf plane.now self.old }
        requires within { at < length self.old.ports.items }
        requires both { length self.old.minds.items ≡ length self.old.ports.items }
        ensures crew { IsCrewOf plane.now self.new }
        ensures minds { (script : ScriptValue) → HaveMinds script self.old →
            HaveMinds script self.new }
        ensures shuts { OnOk result ((d : PortView) → OneShuts (places_of plane.now)
            (slice_index_or self.old.ports.items at d).port self.old self.new) }
        ensures received { AreReceived (order_of plane.now) (places_of plane.now) self.old →
            OnOk result (AreReceived (order_of plane.now) (places_of plane.now) self.new) }
    {
        ports_speak_by_their_passes();
        meetings_and_closings_send_nothing();
        a_part_is_known_by_its_ways();
        parts_are_put_together_in_any_order();
        self.closed.reserve(1)?;
        let pass = self.ports.remove(at);
        let _mind = self.minds.remove(at);
        self.closed.push_reserved(plane.close_port(rt, pass));
        Ok(())
    }

    /// How many notices all passes sent to a port. The sum stops at its last value.
    fn sent(&self, port: u32) -> u128
        ensures { result ≡ all_sent self.now port }
    {
        let mut sent = self.feeding.pass.sent(port);
        for pass in self.ports.as_slice() {
            sent = sent.saturating_add(pass.sent(port));
        }
        for pass in self.closed.as_slice() {
            sent = sent.saturating_add(pass.sent(port));
        }
        sent
    }

    /// Whether each open port received all notices that were sent to it. It doesn't say so where a
    /// count has reached its last value.
    pub(crate) fn has_received_all(&self) -> bool
        requires both { length self.now.minds.items ≡ length self.now.ports.items }
        ensures { IsTrue result → (plane : Plane) (script : ScriptValue) →
            IsCrewOf plane self.now → HaveMinds script self.now →
            AreReceived (order_of plane) (places_of plane) self.now }
    {
        counts_say_what_was_sent();
        for at in 0..self.ports.len() {
            let received = self.minds[at].received;
            if received == u128::MAX {
                return false;
            }
            if self.sent(self.ports[at].port()) != received {
                return false;
            }
        }
        true
    }
}
