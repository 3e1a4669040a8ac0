//! Packets that are fed.

ghost use Rattle.std.specs.Prelude.{◌≡◌, ◌<◌, IfOk, OnOk, IfErr, OnErr};
ghost use Rattle.hook_chain.specs.Route.{next};
ghost use Rattle.solo_plane.specs.PortView.{world_of, logs_of, IsReady};
ghost use Rattle.packet_moves.specs.OnTheWay.{HandsBack};
ghost use Rattle.packet_moves.specs.Planes.{IsFed};

use crate::arrivals::{attempt, carry};
use crate::held::Held;
use hook_chain::route;
use packet_entry::{NoMemory, Packet};
use packet_moves::{Fed, Refused, Setting};
use queue_core::NoRoom;
use std::alloc::Global;

/// Feeds a packet: it goes through the tables from the first on, to its rest or its end.
pub(crate) fn feed(
    held: &mut Held,
    alloc: Global,
    setting: &Setting,
    packet: Packet,
) -> Result<Fed, Refused>
    requires ready { IsReady held.old.place }
    requires new { packet.visit ≡ 0 }
    ensures ready { IsReady held.new.place }
    ensures fed { IfOk result (IsFed setting.now (world_of held.old) packet (world_of held.new)) }
    ensures refused { IfErr result (λ r.
        HandsBack packet (next setting.now.tables setting.now.key packet 1) r.packet) }
    ensures logs { logs_of held.new.ports ≡ logs_of held.old.ports }
    ensures err { OnErr result (world_of held.new ≡ world_of held.old) }
{
    let Ok(card) = packet.card(alloc) else {
        return Err(Refused { packet });
    };
    if make_room(held).is_err() {
        return Err(Refused { packet });
    }
    let route = route(&setting.tables, setting.key, &packet, 1);
    match attempt(held, alloc, setting, packet, route) {
        Ok(came) => {
            held.fed.push(card);
            Ok(carry(held, alloc, setting, came))
        }
        Err(NoRoom { packet }) => Err(Refused { packet }),
    }
}

/// Makes room for one packet more that was fed, and for one that is lost.
fn make_room(held: &mut Held) -> Result<(), NoMemory>
    ensures same { world_of held.new ≡ world_of held.old }
    ensures place { held.new.place ≡ held.old.place }
    ensures ports { held.new.ports ≡ held.old.ports }
    ensures fed { OnOk result (0 < held.new.fed.room) }
    ensures lost { OnOk result (0 < held.new.lost.room) }
{
    held.fed.make_room(1)?;
    held.lost.make_room(1)
}
