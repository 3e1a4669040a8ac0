//! Packets that move on, from queue to queue, each to its rest or its end.

ghost use Rattle.std.specs.Prelude.{◌≡◌, ◌<◌, ◌-◌, ℕ, suc, List};
ghost use Rattle.std.specs.Prelude.{IfOk, IfErr, OnErr};
ghost use Rattle.packet_entry.specs.Numbers.{last_visit};
ghost use Rattle.packet_moves.specs.declared.came.Came.TheVariants.{GoesOn};
ghost use Rattle.packet_moves.specs.OnTheWay.{IsInTime, HasVisit, arrivals_left, WasToArrive};
ghost use Rattle.packet_moves.specs.OnTheWay.{KeepsRoom, NeedsRoom, SpendsRoom};
ghost use Rattle.place_rows.specs.Rows.{TimedKnown};
ghost use Rattle.place_turns.specs.Departures.{HasSeenLeave, HasSeenBack, HasSeenOff, SeeOn};
ghost use Rattle.place_turns.specs.Passes.{AreOf};
ghost use Rattle.place_turns.specs.Places.{places_of, setting_of};
ghost use Rattle.place_turns.specs.OnTheWay.{StandsAs, GoesInTime, ComesWith, StepsTo};
ghost use Rattle.place_turns.specs.OnTheWay.{LooksFor, IsCarried, IsMoved};
ghost use Rattle.place_turns.specs.Timely.{Holder, AreTimelyOpen};

use crate::passes::Passes;
use crate::places::Turns;
use hook_chain::Next;
use locked_place::{Gate, Placed};
use packet_entry::Packet;
use packet_moves::{Came, Fed, Setting, lose, turned};
use queue_core::{NoRoom, an_arrival_leaves_as_its_outcome_says};
use std::alloc::Global;
use std::sync::Wait;

/// Where a packet stands after its arrival.
fn stands(setting: &Setting, placed: Placed) -> Came
    requires { GoesInTime placed }
    ensures stands { StandsAs setting.now placed result }
    ensures in_time { IsInTime result }
    ensures visit { (visit : ℕ) → ComesWith visit placed → HasVisit visit result }
    ensures seen { (row : List TimedKnown) → HasSeenBack row placed → HasSeenOff row result }
{
    match placed {
        Placed::Waiting { port: _ } => Came::Ended { fed: Fed::Waiting },
        Placed::Back { outcome, packet } => turned(setting, outcome, packet),
    }
}

/// Tries to move a packet on by a route: to its next arrival, or to its end. When memory runs out
/// the packet comes back as it was to arrive, and nothing has happened.
pub(crate) fn attempt<R: Wait, G: Gate>(
    turns: &Turns<'_, R, G>,
    alloc: Global,
    passes: &mut Passes,
    mut packet: Packet,
    route: Next,
) -> Result<Came, NoRoom>
    requires in_time { packet.visit < last_visit }
    requires of { AreOf turns.now.places.now passes.old.locks passes.old.trail.known }
    ensures of { AreOf turns.now.places.now passes.new.locks passes.new.trail.known }
    ensures in_time { IfOk result IsInTime }
    ensures nearer { IfOk result (λ came. arrivals_left came < suc (last_visit - packet.visit)) }
    ensures moved { IfOk result (IsMoved (places_of turns.now.places.now)
        (setting_of turns.now.places.now)
        passes.old.trail.known passes.new.trail.known packet route) }
    ensures returned { IfErr result (λ back. WasToArrive packet route back.packet) }
    ensures err { OnErr result (LooksFor (places_of turns.now.places.now)
        passes.old.trail.known passes.new.trail.known route) }
    ensures lost { (passes.new.trail.lost ≡ passes.old.trail.lost)
        × (passes.new.room ≡ passes.old.room) }
    ensures timely { (h : Holder) → HasSeenLeave passes.old.timed packet.number packet.visit →
        AreTimelyOpen passes.old.clock passes.old.timed h →
        AreTimelyOpen passes.new.clock passes.new.timed h }
    ensures seen { IfOk result (HasSeenOff passes.new.timed) }
    ensures on { SeeOn passes.old.timed passes.new.timed }
{
    match route {
        Next::Released => {
            packet.release();
            Ok(Came::Ended { fed: Fed::Released })
        }
        Next::To {
            queue,
            bypass,
            table,
        } => {
            packet.queued(table);
            an_arrival_leaves_as_its_outcome_says();
            let placed = passes.arrive(turns, alloc, queue, bypass, packet)?;
            Ok(stands(&turns.places.setting, placed))
        }
    }
}

/// Moves a packet on by a route: to its next arrival, or to its end. A packet that finds no memory
/// is lost.
fn go<R: Wait, G: Gate>(
    turns: &Turns<'_, R, G>,
    alloc: Global,
    passes: &mut Passes,
    packet: Packet,
    route: Option<Next>,
) -> Came
    requires in_time { packet.visit < last_visit }
    requires room { 0 < passes.old.room }
    requires of { AreOf turns.now.places.now passes.old.locks passes.old.trail.known }
    ensures of { AreOf turns.now.places.now passes.new.locks passes.new.trail.known }
    ensures in_time { IsInTime result }
    ensures nearer { arrivals_left result < suc (last_visit - packet.visit) }
    ensures carried { StepsTo (places_of turns.now.places.now) (setting_of turns.now.places.now)
        passes.old.trail (GoesOn packet route) passes.new.trail result }
    ensures room { KeepsRoom passes.old.room passes.new.room result }
    ensures timely { (h : Holder) → HasSeenLeave passes.old.timed packet.number packet.visit →
        AreTimelyOpen passes.old.clock passes.old.timed h →
        AreTimelyOpen passes.new.clock passes.new.timed h }
    ensures seen { HasSeenOff passes.new.timed result }
    ensures on { SeeOn passes.old.timed passes.new.timed }
{
    let Some(route) = route else {
        packet.destroy();
        return Came::Ended {
            fed: Fed::Destroyed,
        };
    };
    match attempt(turns, alloc, passes, packet, route) {
        Ok(came) => came,
        Err(NoRoom { packet }) => lose(&mut passes.lost, packet),
    }
}

/// Moves a packet on to its rest or its end.
pub(crate) fn carry<R: Wait, G: Gate>(
    turns: &Turns<'_, R, G>,
    alloc: Global,
    passes: &mut Passes,
    came: Came,
) -> Fed
    requires in_time { IsInTime came }
    requires room { NeedsRoom came passes.old.room }
    requires of { AreOf turns.now.places.now passes.old.locks passes.old.trail.known }
    ensures of { AreOf turns.now.places.now passes.new.locks passes.new.trail.known }
    ensures carried { IsCarried (places_of turns.now.places.now) (setting_of turns.now.places.now)
        passes.old.trail came passes.new.trail result }
    ensures room { SpendsRoom came passes.old.room passes.new.room }
    ensures timely { (h : Holder) → HasSeenOff passes.old.timed came →
        AreTimelyOpen passes.old.clock passes.old.timed h →
        AreTimelyOpen passes.new.clock passes.new.timed h }
    ensures on { SeeOn passes.old.timed passes.new.timed }
{
    match came {
        Came::Ended { fed } => fed,
        Came::GoesOn { packet, route } => {
            let came = go(turns, alloc, passes, packet, route);
            carry(turns, alloc, passes, came)
        }
    }
}
