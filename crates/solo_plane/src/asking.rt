//! Requests, and the packets that they let go on.

ghost use Rattle.std.specs.Prelude.{◌≡◌, ◌≤◌, ℕ, [], length, IfOk, OnErr};
ghost use Rattle.nfqa_msgs.specs.RequestReading.{PayloadFits};
ghost use Rattle.queue_core.specs.declared.event.Event.TheVariants.{Ask};
ghost use Rattle.histories.specs.States.{step_of};
ghost use Rattle.histories.specs.Happenings.{queue_of, all_handed};
ghost use Rattle.packet_moves.specs.Moving.{CarriesAll};
ghost use Rattle.solo_plane.specs.PortView.{world_of, logs_of, IsReady};
ghost use Rattle.packet_moves.specs.Messages.{IsAsked, asking};
ghost use Rattle.packet_moves.specs.HandedOn.{AreInTime, WaitInTime};

use crate::arrivals::carry_on;
use crate::held::Held;
use histories::queue_of;
use hook_chain::onward;
use nfqa_msgs::Request;
use packet_entry::NoMemory;
use packet_moves::{Setting, what_goes_on_is_in_time};
use place_history::Place;
use queue_core::Handed;
use std::alloc::Global;

/// Moves packets on that a request let go on, one after the other, each to its rest or its end.
/// None is left in the list.
fn hand_on(held: &mut Held, alloc: Global, setting: &Setting, handed: &mut Handed)
    requires ready { IsReady held.old.place }
    requires in_time { AreInTime handed.old.items }
    requires room { length handed.old.items ≤ held.old.lost.room }
    ensures ready { IsReady held.new.place }
    ensures none_left { handed.new.items ≡ [] }
    ensures carried { CarriesAll setting.now handed.old.items (world_of held.old)
        (world_of held.new) }
    ensures logs { logs_of held.new.ports ≡ logs_of held.old.ports }
{
    while let Some((packet, decision)) = handed.take() {
        let route = onward(&setting.tables, setting.key, &packet, &decision);
        carry_on(held, alloc, setting, packet, route);
    }
}

/// How many packets a request lets go on at most.
fn most_handed(place: &Place, request: &Request) -> u32
    requires { IsReady place.now }
    ensures { (port call : ℕ) →
        length (all_handed (step_of place.now.entries (queue_of request.now)
        (Ask port call request.now)).left) ≤ result }
{
    // No more go on than wait.
    what_goes_on_is_in_time();
    match request {
        Request::Verdict { .. } => 1,
        _ => place.waiting_in(queue_of(request)),
    }
}

/// Carries out a port's request, and moves on what it let go on: its errno. `NoMemory` leaves all
/// as it was; a packet whose next arrival finds no memory is lost. The list of what goes on is
/// empty before and afterwards: its memory is used again.
pub(crate) fn ask(
    held: &mut Held,
    alloc: Global,
    setting: &Setting,
    port: u32,
    call: u32,
    request: Request,
    handed: &mut Handed,
) -> Result<u16, NoMemory>
    requires ready { IsReady held.old.place }
    requires none_handed { handed.old.items ≡ [] }
    requires payload { PayloadFits request }
    requires in_time { WaitInTime held.old.place.entries }
    ensures ready { IsReady held.new.place }
    ensures none_left { handed.new.items ≡ [] }
    ensures asked { IfOk result (IsAsked setting.now port call request (world_of held.old)
        (world_of held.new)) }
    ensures logs { logs_of held.new.ports ≡ logs_of held.old.ports }
    ensures err { OnErr result (world_of held.new ≡ world_of held.old) }
{
    let most = most_handed(&held.place, &request);
    held.lost.make_room(most as usize)?;
    let errno = held.place.ask(alloc, port, call, request, handed)?;
    // Each packet that goes on has the visit with which it waited.
    what_goes_on_is_in_time();
    hand_on(held, alloc, setting, handed);
    Ok(errno)
}
