//! Ports that open, in the script's order, before anything is fed.

ghost use Rattle.std.specs.Prelude.{◌≡◌, ◌<◌, [], length, slice_index, OnOk};
ghost use Rattle.inspector_script.specs.Scripts.{opening};
ghost use Rattle.run_parts.specs.Ports.{place_in};
ghost use Rattle.plane.specs.Planes.{order_of, places_of};
ghost use Rattle.port_scripts.specs.Downs.{AreDownsOf};
ghost use Rattle.nfq_live.specs.Crews.{HaveMinds, IsCrewOf, OnePass, passes_of};
ghost use Rattle.nfq_live.specs.Openings.{AreReady, HaveOpened};
ghost use Rattle.live_work.specs.Sending.{SaysTo};

use crate::crew::Crew;
use live_runs::{ports_open_one_after_the_other, the_feeder_keeps_its_time};
use live_work::{Stage, say_all, take_down_after};
use packet_entry::NoMemory;
use plane::{Gate, parts_stay_whole};
use port_scripts::{DownsByFrame, ports_close_at_the_end};
use run_parts::each_port_has_its_place;
use std::sync::Wait;

impl Crew {
    /// The port at a place of the script, which is open as all are, sends its opening messages.
    fn say_opening<R: Wait, G: Gate>(
        &mut self,
        stage: &Stage<'_, R, G>,
        place: usize,
    ) -> Result<(), NoMemory>
        requires crew { IsCrewOf stage.now.plane.now self.old }
        requires order { order_of stage.now.plane.now ≡ stage.now.script.now.ports }
        requires minds { HaveMinds stage.now.script.now self.old }
        requires place { place < length stage.now.script.now.ports }
        requires opened { HaveOpened stage.now.script.now (places_of stage.now.plane.now) place
            self.old }
        ensures crew { IsCrewOf stage.now.plane.now self.new }
        ensures minds { HaveMinds stage.now.script.now self.new }
        ensures said { OnOk result (SaysTo stage.now.script.now (places_of stage.now.plane.now)
            (slice_index stage.now.script.now.ports place)
            (opening stage.now.script.now
            (place_in (slice_index stage.now.script.now.ports place) stage.now.script.now.ports)) []
            (passes_of self.old (slice_index stage.now.script.now.ports place))
            (passes_of self.new (slice_index stage.now.script.now.ports place))) }
        ensures others { OnePass (slice_index stage.now.script.now.ports place) self.old self.new }
    {
        parts_stay_whole();
        ports_close_at_the_end();
        let pass = &mut self.ports[place];
        let mind = &mut self.minds[place];
        let asks = mind.machine.opening(stage.alloc, stage.script)?;
        say_all(stage, pass, mind, asks)
    }

    /// The ports open, in the script's order, and behind each all passes meet.
    pub(crate) fn open_all<R: Wait, G: Gate>(
        &mut self,
        stage: &Stage<'_, R, G>,
    ) -> Result<(), NoMemory>
        requires crew { IsCrewOf stage.now.plane.now self.old }
        requires order { order_of stage.now.plane.now ≡ stage.now.script.now.ports }
        requires minds { HaveMinds stage.now.script.now self.old }
        requires none { HaveOpened stage.now.script.now (places_of stage.now.plane.now) 0 self.old }
        ensures crew { IsCrewOf stage.now.plane.now self.new }
        ensures minds { OnOk result (HaveMinds stage.now.script.now self.new) }
        ensures opened { OnOk result (HaveOpened stage.now.script.now
            (places_of stage.now.plane.now) (length stage.now.script.now.ports) self.new) }
    {
        each_port_has_its_place();
        ports_open_one_after_the_other();
        the_feeder_keeps_its_time();
        for place in 0..stage.script.ports().len() {
            self.say_opening(stage, place)?;
            self.meet(stage.alloc, stage.plane)?;
        }
        Ok(())
    }

    /// The ports open, and then the devices go down that do so before the first frame.
    pub(crate) fn make_ready<R: Wait, G: Gate>(
        &mut self,
        stage: &Stage<'_, R, G>,
        downs: &DownsByFrame,
    ) -> Result<(), NoMemory>
        requires crew { IsCrewOf stage.now.plane.now self.old }
        requires order { order_of stage.now.plane.now ≡ stage.now.script.now.ports }
        requires minds { HaveMinds stage.now.script.now self.old }
        requires downs { AreDownsOf stage.now.script.now downs.now }
        requires none { HaveOpened stage.now.script.now (places_of stage.now.plane.now) 0 self.old }
        ensures crew { IsCrewOf stage.now.plane.now self.new }
        ensures minds { OnOk result (HaveMinds stage.now.script.now self.new) }
        ensures ready { OnOk result
            (AreReady stage.now.script.now (places_of stage.now.plane.now) self.new) }
    {
        parts_stay_whole();
        self.open_all(stage)?;
        take_down_after(stage, &mut self.feeding.pass, downs, 0)?;
        Ok(())
    }
}
