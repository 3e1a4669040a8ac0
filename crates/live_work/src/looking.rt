//! How a port looks into its mailbox and answers its notices.

ghost use Rattle.std.specs.Prelude.{◌≡◌, ◌<◌, ◌↔◌, ℕ, true, IfOk, OnOk};
ghost use Rattle.plane.specs.Passes.{IsPortOf};
ghost use Rattle.plane.specs.Planes.{places_of};
ghost use Rattle.live_work.specs.Minds.{IsMind};
ghost use Rattle.live_passes.specs.Numbered.{StaysPort};
ghost use Rattle.live_work.specs.Looking.{LooksOn, heard_by};

use crate::mind::Mind;
use crate::pause::Pause;
use crate::sending::say_all;
use feeder_set::Stage;
use live_passes::ports_speak_by_their_passes;
use live_runs::what_a_port_does_adds_up;
use packet_entry::NoMemory;
use plane::{Gate, PortPass};
use port_scripts::ports_close_at_the_end;
use std::sync::Wait;

/// How many looks in a row find nothing before an inspector ends.
pub(crate) const LAST_LOOK: u32 = 100_000;

/// A port looks into its mailbox: a notice that it finds is received and answered. Whether there
/// was one. A port with a pool behind it may look so too. `NoMemory` leaves a part of its answer
/// sent.
pub fn look<R: Wait, G: Gate>(
    stage: &Stage<'_, R, G>,
    pass: &mut PortPass,
    mind: &mut Mind,
) -> Result<bool, NoMemory>
    requires pass { IsPortOf stage.now.plane.now pass.old }
    requires mind { IsMind stage.now.script.now pass.old mind.old }
    ensures stays { StaysPort stage.now.plane.now pass.old pass.new }
    ensures mind { OnOk result (IsMind stage.now.script.now pass.new mind.new) }
    ensures on { OnOk result ((workers : ℕ) →
        LooksOn workers stage.now.script.now (places_of stage.now.plane.now) pass.old pass.new) }
    ensures found { IfOk result (λ found.
        (found ≡ true) ↔ (heard_by pass.old < heard_by pass.new)) }
{
    ports_speak_by_their_passes();
    what_a_port_does_adds_up();
    ports_close_at_the_end();
    match stage.plane.receive(stage.rt, pass)? {
        Some(letter) => {
            let asks = mind.answer(stage.alloc, stage.script, &letter)?;
            say_all(stage, pass, mind, asks)?;
            Ok(true)
        }
        None => Ok(false),
    }
}

/// A port looks until its 100,000th look in a row finds nothing. After one that does it pauses, so
/// that others come to work, unless nothing is left to do. `NoMemory` leaves a part of an answer
/// sent.
pub fn inspect<R: Wait, G: Gate>(
    stage: &Stage<'_, R, G>,
    pause: &mut Pause<'_>,
    pass: &mut PortPass,
    mind: &mut Mind,
) -> Result<(), NoMemory>
    requires pass { IsPortOf stage.now.plane.now pass.old }
    requires mind { IsMind stage.now.script.now pass.old mind.old }
    ensures stays { StaysPort stage.now.plane.now pass.old pass.new }
    ensures mind { OnOk result (IsMind stage.now.script.now pass.new mind.new) }
    ensures on { OnOk result ((workers : ℕ) →
        LooksOn workers stage.now.script.now (places_of stage.now.plane.now) pass.old pass.new) }
{
    what_a_port_does_adds_up();
    let mut empty = 0;
    for _ in stage.rt.forever() {
        if empty >= LAST_LOOK {
            return Ok(());
        }
        if look(stage, pass, mind)? {
            pause.found();
            empty = 0;
        } else {
            pause.pause(stage.rt);
            empty += 1;
        }
    }
    unreachable!()
}
