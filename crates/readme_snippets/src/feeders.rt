//! A plane, which two passes feed.

ghost use Rattle.std.specs.Prelude.{◌≡◌, ◌≤◌, []};
ghost use Rattle.place_turns.specs.Trails.{parts_of};
ghost use Rattle.plane.specs.Passes.{IsFeederOf};

use histories::Histories;
use hook_chain::Tables;
use packet_entry::{IPV4, NoMemory, Packet, Sequence};
use plane::{FeederPass, OpenGate, Opened, Plane, Refused, parts_stay_whole};
use std::alloc::Global;
use std::sync::Wait;

/// Feeds a packet with this number by a pass, where there is memory for it.
fn feed<R: Wait>(rt: &R, alloc: Global, plane: &Plane, pass: &mut FeederPass, number: u32)
    requires pass { IsFeederOf plane.now pass.old }
    requires number { 1 ≤ number }
    requires first { pass.old.fed ≡ [] }
    ensures pass { IsFeederOf plane.now pass.new }
    ensures parts { parts_of pass.new.trail.known ≡ parts_of pass.old.trail.known }
{
    let Ok(packet) = Packet::new(alloc, number, 0, 0, IPV4, &[], &[0x45; 20]) else {
        return;
    };
    if let Err(Refused { packet }) = plane.feed(rt, alloc, pass, &OpenGate, packet) {
        packet.destroy();
    }
}

/// Two passes feed a packet each, to a plane with port 7: all that happened.
pub fn feed_by_two<R: Wait>(rt: &R, alloc: Global, tables: Tables) -> Result<Histories, NoMemory> {
    parts_stay_whole();
    let Opened {
        plane,
        mut feeder,
        ports,
        gauge: _,
    } = Plane::new(alloc, 4, &[7], 1024, tables, 0)?;
    if let Ok(mut other) = plane.split_feeder(alloc, &mut feeder) {
        feed(rt, alloc, &plane, &mut feeder, 1);
        feed(rt, alloc, &plane, &mut other, 2);
        plane.join_feeder(&mut feeder, other);
    }
    plane.close(alloc, feeder, ports, Sequence::new(alloc))
}
