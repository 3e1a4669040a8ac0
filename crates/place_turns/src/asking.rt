//! Requests, and the packets that they let go on.

ghost use Rattle.std.specs.Prelude.{◌≤◌, ℕ, List, [], ◌∷◌, ◌++◌, length, Option, IsSome};
ghost use Rattle.std.specs.Prelude.{IfOk, OnOk, OnErr};
ghost use Rattle.std.specs.BTreeMap.{get};
ghost use Rattle.std.specs.Ordering.{nat_cmp};
ghost use Rattle.nfqa_msgs.specs.RequestReading.{PayloadFits};
ghost use Rattle.packet_moves.specs.HandedOn.{AreInTime};
ghost use Rattle.mailbox.specs.declared.view.Post.{Post};
ghost use Rattle.histories.specs.declared.log.AskWords.{AskWords};
ghost use Rattle.histories.specs.declared.log.Did.{Did};
ghost use Rattle.histories.specs.declared.log.Did.TheVariants.{Sent};
ghost use Rattle.place_turns.specs.Departures.{HaveSeenAll};
ghost use Rattle.place_turns.specs.Passes.{AreOf};
ghost use Rattle.place_turns.specs.Places.{places_of, setting_of, outlets_of};
ghost use Rattle.place_turns.specs.Trails.{MayLook};
ghost use Rattle.place_turns.specs.Messages.{CarriesAll, IsAsked};
ghost use Rattle.place_turns.specs.Timely.{Holder, AreTimelyOpen, port_with};

use crate::arrivals::carry;
use crate::passes::Passes;
use crate::places::Turns;
use hook_chain::onward;
use locked_place::Gate;
use nfqa_msgs::Request;
use packet_entry::NoMemory;
use packet_moves::Came;
use queue_core::Handed;
use std::alloc::Global;
use std::sync::Wait;

/// Moves packets on that a request let go on, one after the other, each to its rest or its end.
fn hand_on<R: Wait, G: Gate>(
    turns: &Turns<'_, R, G>,
    alloc: Global,
    passes: &mut Passes,
    mut handed: Handed,
)
    requires in_time { AreInTime handed.items }
    requires room { length handed.items ≤ passes.old.room }
    requires of { AreOf turns.now.places.now passes.old.locks passes.old.trail.known }
    ensures of { AreOf turns.now.places.now passes.new.locks passes.new.trail.known }
    ensures carried { CarriesAll (places_of turns.now.places.now)
        (setting_of turns.now.places.now) handed.items
        passes.old.trail passes.new.trail }
    ensures timely { (h : Holder) → HaveSeenAll passes.old.timed handed.items →
        AreTimelyOpen passes.old.clock passes.old.timed h →
        AreTimelyOpen passes.new.clock passes.new.timed h }
{
    while let Some((packet, decision)) = handed.take() {
        let route = onward(
            &turns.places.setting.tables,
            turns.places.setting.key,
            &packet,
            &decision,
        );
        carry(turns, alloc, passes, Came::GoesOn { packet, route });
    }
    handed.finish();
}

/// Carries out a port's request, and moves on what it let go on: its errno. `NoMemory` leaves all
/// as it was, though the pass may have seen more; a packet whose next arrival finds no memory is
/// lost.
pub(crate) fn ask<R: Wait, G: Gate>(
    turns: &Turns<'_, R, G>,
    alloc: Global,
    passes: &mut Passes,
    port: u32,
    call: u32,
    request: Request,
) -> Result<u16, NoMemory>
    requires payload { PayloadFits request }
    requires port { IsSome (get nat_cmp (outlets_of turns.now.places.now).mailboxes port) }
    requires of { AreOf turns.now.places.now passes.old.locks passes.old.trail.known }
    ensures of { AreOf turns.now.places.now passes.new.locks passes.new.trail.known }
    ensures asked { IfOk result (IsAsked (places_of turns.now.places.now)
        (setting_of turns.now.places.now) port call
        request passes.old.trail passes.new.trail) }
    ensures looked { OnErr result (MayLook passes.old.trail passes.new.trail) }
    ensures timely { OnOk result ((dids : List Did) (heard : List Post) (words : AskWords)
        (answer : Option ℕ) →
        AreTimelyOpen passes.old.clock passes.old.timed (port_with port dids heard) →
        AreTimelyOpen passes.new.clock passes.new.timed
        (port_with port (dids ++ Sent call words answer ∷ []) heard)) }
    ensures still { OnErr result ((h : Holder) →
        AreTimelyOpen passes.old.clock passes.old.timed h →
        AreTimelyOpen passes.new.clock passes.new.timed h) }
{
    let mut handed = Handed::new(alloc);
    match passes.ask(turns, alloc, port, call, request, &mut handed) {
        Ok(errno) => {
            hand_on(turns, alloc, passes, handed);
            Ok(errno)
        }
        Err(NoMemory) => {
            handed.finish();
            Err(NoMemory)
        }
    }
}
