//! What a port sends by its own pass, where nothing happens between its messages.

ghost use Rattle.std.specs.Prelude.{◌≡◌, ◌<◌, ◌^◌, [], length, All, OnOk};
ghost use Rattle.script_lines.specs.Limits.{IsAsk};
ghost use Rattle.plane.specs.Passes.{IsPortOf};
ghost use Rattle.plane.specs.Planes.{places_of};
ghost use Rattle.live_passes.specs.Views.{port_pass};
ghost use Rattle.live_work.specs.Minds.{HearsNothing};
ghost use Rattle.live_passes.specs.Numbered.{StaysPort};
ghost use Rattle.live_work.specs.Sending.{HasCut, SaysTo};
ghost use Rattle.port_scripts.specs.Words.{AreWords};

use crate::mind::Mind;
use feeder_set::Stage;
use inspector_script::Asks;
use live_passes::ports_speak_by_their_passes;
use live_runs::{a_port_does_what_is_next, messages_are_sent_one_by_one, what_a_port_does_adds_up};
use packet_entry::NoMemory;
use plane::{Gate, PortPass};
use port_scripts::{behind, put_words};
use script_lines::Ask;
use std::sync::Wait;

/// A port sends the messages of some bytes, one after the other, as far as they can be cut into
/// messages.
fn send_all<R: Wait, G: Gate>(
    stage: &Stage<'_, R, G>,
    pass: &mut PortPass,
    datagram: &[u8],
) -> Result<(), NoMemory>
    requires short { length datagram.now < 2 ^ 31 }
    requires pass { IsPortOf stage.now.plane.now pass.old }
    ensures stays { StaysPort stage.now.plane.now pass.old pass.new }
    ensures hears { HearsNothing pass.old pass.new }
    ensures sent { OnOk result (HasCut stage.now.script.now (places_of stage.now.plane.now)
        pass.old.port datagram.now (port_pass pass.old) (port_pass pass.new)) }
{
    ports_speak_by_their_passes();
    messages_are_sent_one_by_one();
    let mut rest = datagram;
    // Each message uses a byte at least.
    for _look in 0..datagram.len() {
        // Nobody reads the replies: the pass's log has what they would say.
        let used = stage
            .plane
            .message_unread(stage.rt, stage.alloc, pass, stage.gate, rest)?;
        if used == 0 {
            return Ok(());
        }
        rest = behind(rest, used as usize);
    }
    Ok(())
}

/// A port sends all that an answer or an opening asks for, in its order. `NoMemory` leaves a part
/// of it sent. The gate is told of each turn, and of the answer to each request.
pub fn say_all<R: Wait, G: Gate>(
    stage: &Stage<'_, R, G>,
    pass: &mut PortPass,
    mind: &mut Mind,
    asks: Asks,
) -> Result<(), NoMemory>
    requires fit { All IsAsk asks }
    requires words { AreWords asks }
    requires pass { IsPortOf stage.now.plane.now pass.old }
    ensures stays { StaysPort stage.now.plane.now pass.old pass.new }
    ensures hears { HearsNothing pass.old pass.new }
    ensures counts { (mind.new.machine ≡ mind.old.machine)
        × (mind.new.received ≡ mind.old.received) }
    ensures sent { OnOk result (SaysTo stage.now.script.now (places_of stage.now.plane.now)
        pass.old.port asks [] (port_pass pass.old) (port_pass pass.new)) }
{
    what_a_port_does_adds_up();
    a_port_does_what_is_next();
    messages_are_sent_one_by_one();
    let mut left = asks;
    while let Some(ask) = left.take_first() {
        let Ask::Words { words } = ask else {
            unreachable!()
        };
        // A request is the message with the port's next number.
        let call = pass.calls().wrapping_add(1);
        put_words(&mut mind.text, pass.port(), call, words)?;
        send_all(stage, pass, mind.text.as_slice())?;
    }
    // The next answer takes the memory of this one.
    mind.room = left.into_vec();
    Ok(())
}
