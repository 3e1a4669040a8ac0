//! A plane on one thread.

ghost use Rattle.std.specs.Prelude.{◌≡◌, ◌<◌, ◌^◌, length};

use histories::Histories;
use hook_chain::Tables;
use packet_entry::{NoMemory, Packet};
use solo_plane::{Refused, SoloPlane, only_feeding_feeds};
use std::alloc::Global;

/// Port 7 sends a message, which may bind a queue, and a packet goes through the rules: all that
/// happened.
pub fn feed_one(
    alloc: Global,
    tables: Tables,
    bind: &[u8],
    packet: Packet,
) -> Result<Histories, NoMemory>
    requires bind { length bind.now < 2 ^ 31 }
    requires packet { packet.visit ≡ 0 }
{
    only_feeding_feeds();
    let Ok(mut plane) = SoloPlane::new(alloc, &[7], 1024, tables, 0) else {
        packet.destroy();
        return Err(NoMemory);
    };
    let mut replies = Vec::new(alloc);
    let _ = plane.message(alloc, 7, bind, &mut replies);
    if let Err(Refused { packet }) = plane.feed(alloc, packet) {
        packet.destroy();
    }
    plane.close(alloc)
}
