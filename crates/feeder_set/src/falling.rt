//! Devices that go down after a frame.

ghost use Rattle.std.specs.Prelude.{◌≡◌, OnOk};
ghost use Rattle.run_parts.specs.Feeder.{downs_after};
ghost use Rattle.plane.specs.Passes.{IsFeederOf};
ghost use Rattle.place_turns.specs.Trails.{parts_of};
ghost use Rattle.port_scripts.specs.Downs.{AreDownsOf};
ghost use Rattle.feeder_set.specs.Steps.{Falls, AllFall};

use crate::stage::Stage;
use packet_entry::NoMemory;
use plane::{FeederPass, Gate, Plane};
use port_scripts::{DownsByFrame, lines_after};
use std::sync::Wait;

/// A device goes down at each place, from place 0 on.
fn fall<R: Wait>(rt: &R, plane: &Plane, pass: &mut FeederPass, device: u32) -> Result<(), NoMemory>
    requires { IsFeederOf plane.now pass.old }
    ensures pass { IsFeederOf plane.now pass.new }
    ensures parts { parts_of pass.new.trail.known ≡ parts_of pass.old.trail.known }
    ensures none { pass.new.fed ≡ pass.old.fed }
    ensures falls { OnOk result (Falls plane.now device pass.old pass.new) }
{
    for place in 0..plane.places() {
        plane.device_down(rt, pass, device, place)?;
    }
    Ok(())
}

/// The devices go down that do so after the frame with this number, or before the first frame for
/// 0, each at every place, in the order of the script's lines. `NoMemory` leaves a part of them
/// down.
pub fn fall_after<R: Wait, G: Gate>(
    stage: &Stage<'_, R, G>,
    pass: &mut FeederPass,
    downs: &DownsByFrame,
    number: u32,
) -> Result<(), NoMemory>
    requires pass { IsFeederOf stage.now.plane.now pass.old }
    requires downs { AreDownsOf stage.now.script.now downs.now }
    ensures pass { IsFeederOf stage.now.plane.now pass.new }
    ensures parts { parts_of pass.new.trail.known ≡ parts_of pass.old.trail.known }
    ensures none { pass.new.fed ≡ pass.old.fed }
    ensures fall { OnOk result (AllFall stage.now.plane.now
        (downs_after stage.now.script.now number) pass.old pass.new) }
{
    for down in lines_after(downs, number) {
        fall(stage.rt, stage.plane, pass, down.device)?;
    }
    Ok(())
}
