//! Mailboxes that are emptied, round by round, while nobody else is at work.

ghost use Rattle.std.specs.Prelude.{OnOk};
ghost use Rattle.plane.specs.Planes.{order_of, places_of};
ghost use Rattle.nfq_live.specs.Crews.{AllLookOn, AreReceived, HaveMinds, IsCrewOf};

use crate::crew::Crew;
use live_runs::what_a_port_does_adds_up;
use live_work::{Stage, look};
use packet_entry::NoMemory;
use plane::{Gate, parts_stay_whole};
use std::sync::Wait;

impl Crew {
    /// Each open port looks once, in the script's order. Whether there was a notice.
    fn round<R: Wait, G: Gate>(&mut self, stage: &Stage<'_, R, G>) -> Result<bool, NoMemory>
        requires crew { IsCrewOf stage.now.plane.now self.old }
        requires minds { HaveMinds stage.now.script.now self.old }
        ensures crew { IsCrewOf stage.now.plane.now self.new }
        ensures minds { OnOk result (HaveMinds stage.now.script.now self.new) }
        ensures on { OnOk result
            (AllLookOn stage.now.script.now (places_of stage.now.plane.now) self.old self.new) }
    {
        parts_stay_whole();
        what_a_port_does_adds_up();
        let mut found = false;
        for at in 0..self.ports.len() {
            let pass = &mut self.ports[at];
            let mind = &mut self.minds[at];
            found = look(stage, pass, mind)? | found;
        }
        Ok(found)
    }

    /// Rounds are made until one finds nothing and each open port received all that was sent to it.
    /// Nobody else is at work, so that no notice is on its way meanwhile.
    pub(crate) fn empty<R: Wait, G: Gate>(
        &mut self,
        stage: &Stage<'_, R, G>,
    ) -> Result<(), NoMemory>
        requires crew { IsCrewOf stage.now.plane.now self.old }
        requires minds { HaveMinds stage.now.script.now self.old }
        ensures crew { IsCrewOf stage.now.plane.now self.new }
        ensures minds { OnOk result (HaveMinds stage.now.script.now self.new) }
        ensures on { OnOk result
            (AllLookOn stage.now.script.now (places_of stage.now.plane.now) self.old self.new) }
        ensures received { OnOk result
            (AreReceived (order_of stage.now.plane.now) (places_of stage.now.plane.now) self.new) }
    {
        what_a_port_does_adds_up();
        for _ in stage.rt.forever() {
            let found = self.round(stage)?;
            if !found && self.has_received_all() {
                return Ok(());
            }
        }
        unreachable!()
    }
}
