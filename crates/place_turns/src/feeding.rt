//! Packets that are fed.

ghost use Rattle.std.specs.Prelude.{◌≡◌, ◌<◌, ◌++◌, ◌∷◌, [], IfOk, OnOk, IfErr, OnErr};
ghost use Rattle.hook_chain.specs.Route.{next};
ghost use Rattle.packet_moves.specs.OnTheWay.{HandsBack};
ghost use Rattle.place_turns.specs.Passes.{AreOf};
ghost use Rattle.place_turns.specs.Places.{places_of, setting_of};
ghost use Rattle.place_turns.specs.Trails.{MayLook};
ghost use Rattle.place_turns.specs.Moving.{IsFed};
ghost use Rattle.place_turns.specs.Timely.{Holder, AreTimelyOpen};

use crate::arrivals::{attempt, carry};
use crate::passes::Passes;
use crate::places::Turns;
use hook_chain::route;
use locked_place::Gate;
use packet_entry::{Card, NoMemory, Packet, Stock};
use packet_moves::{Fed, Refused};
use queue_core::NoRoom;
use std::alloc::Global;
use std::sync::Wait;

/// Feeds a packet: it goes through the tables from the first on, to its rest or its end.
pub fn feed<R: Wait, G: Gate>(
    turns: &Turns<'_, R, G>,
    alloc: Global,
    passes: &mut Passes,
    fed: &mut Stock<Card>,
    packet: Packet,
) -> Result<Fed, Refused>
    requires new { packet.visit ≡ 0 }
    requires of { AreOf turns.now.places.now passes.old.locks passes.old.trail.known }
    ensures of { AreOf turns.now.places.now passes.new.locks passes.new.trail.known }
    ensures moved { IfOk result (IsFed (places_of turns.now.places.now)
        (setting_of turns.now.places.now)
        passes.old.trail packet passes.new.trail) }
    ensures fed { OnOk result (fed.new.items ≡ fed.old.items ++ packet ∷ []) }
    ensures refused { IfErr result (λ r. HandsBack packet
        (next (setting_of turns.now.places.now).tables (setting_of turns.now.places.now).key
        packet 1) r.packet) }
    ensures looked { OnErr result (MayLook passes.old.trail passes.new.trail) }
    ensures none_fed { OnErr result (fed.new.items ≡ fed.old.items) }
    ensures timely { (h : Holder) → AreTimelyOpen passes.old.clock passes.old.timed h →
        AreTimelyOpen passes.new.clock passes.new.timed h }
{
    let Ok(card) = packet.card(alloc) else {
        return Err(Refused { packet });
    };
    if make_room(passes, fed).is_err() {
        return Err(Refused { packet });
    }
    let route = route(
        &turns.places.setting.tables,
        turns.places.setting.key,
        &packet,
        1,
    );
    match attempt(turns, alloc, passes, packet, route) {
        Ok(came) => {
            fed.push(card);
            Ok(carry(turns, alloc, passes, came))
        }
        Err(NoRoom { packet }) => Err(Refused { packet }),
    }
}

/// Makes room for one packet more that was fed, and for one that is lost.
fn make_room(passes: &mut Passes, fed: &mut Stock<Card>) -> Result<(), NoMemory>
    ensures locks { passes.new.locks ≡ passes.old.locks }
    ensures trail { passes.new.trail ≡ passes.old.trail }
    ensures timed { passes.new.timed ≡ passes.old.timed }
    ensures clock { passes.new.clock ≡ passes.old.clock }
    ensures items { fed.new.items ≡ fed.old.items }
    ensures fed { OnOk result (0 < fed.new.room) }
    ensures lost { OnOk result (0 < passes.new.room) }
{
    fed.make_room(1)?;
    passes.lost.make_room(1)
}
