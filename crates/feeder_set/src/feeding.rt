//! A frame that is fed.

ghost use Rattle.std.specs.Prelude.{◌≡◌, ◌≤◌, ◌<◌, length, OnOk};
ghost use Rattle.packet_entry.specs.Numbers.{longest_packet};
ghost use Rattle.run_parts.specs.Entering.{card_of};
ghost use Rattle.plane.specs.Numbers.{most_fed};
ghost use Rattle.plane.specs.Passes.{IsFeederOf};
ghost use Rattle.place_turns.specs.Trails.{parts_of};
ghost use Rattle.feeder_set.specs.Steps.{Feeds};

use crate::stage::Stage;
use packet_entry::NoMemory;
use pcap_io::{Capture, Frame};
use plane::{FeederPass, Gate, Refused};
use port_scripts::packet_of;
use std::sync::Wait;

/// Feeds the packet of a frame, where it is IP. A packet that is lost later shows once the plane is
/// closed.
pub(crate) fn feed_frame<R: Wait, G: Gate>(
    stage: &Stage<'_, R, G>,
    pass: &mut FeederPass,
    capture: &Capture,
    number: u32,
    frame: &Frame,
) -> Result<(), NoMemory>
    requires pass { IsFeederOf stage.now.plane.now pass.old }
    requires number { 1 ≤ number }
    requires bytes { length frame.now.bytes ≤ longest_packet }
    requires few { length pass.old.fed < most_fed }
    ensures pass { IsFeederOf stage.now.plane.now pass.new }
    ensures parts { parts_of pass.new.trail.known ≡ parts_of pass.old.trail.known }
    ensures fed { OnOk result (Feeds stage.now.plane.now
        (card_of capture.now number frame.now) pass.old pass.new) }
{
    let Some(packet) = packet_of(capture, number, frame)? else {
        return Ok(());
    };
    match stage
        .plane
        .feed(stage.rt, stage.alloc, pass, stage.gate, packet)
    {
        Ok(_) => Ok(()),
        Err(Refused { packet }) => {
            packet.destroy();
            Err(NoMemory)
        }
    }
}
