//! Arrivals, and packets that move on, each to its rest or its end.

ghost use Rattle.std.specs.Prelude.{◌≡◌, ◌<◌, ◌≤◌, ◌+◌, ◌-◌, ℕ, suc, List};
ghost use Rattle.std.specs.Prelude.{Some, IfSome, IsSome, IfOk, OnOk, IfErr, OnErr};
ghost use Rattle.packet_entry.specs.declared.packet.Card.{Card};
ghost use Rattle.packet_entry.specs.Numbers.{last_visit};
ghost use Rattle.histories.specs.States.{state_of};
ghost use Rattle.packet_moves.specs.World.{World};
ghost use Rattle.packet_moves.specs.Moving.{arrived, turned_away, carry};
ghost use Rattle.packet_moves.specs.OnTheWay.{IsInTime, HasVisit, arrivals_left, KeepsRoom};
ghost use Rattle.packet_moves.specs.OnTheWay.{NeedsRoom, SpendsRoom, WasToArrive};
ghost use Rattle.packet_moves.specs.declared.came.Came.TheVariants.{GoesOn};
ghost use Rattle.solo_plane.specs.PortView.{state_in, world_of, ports_of, logs_of, OnPort, IsReady};
ghost use Rattle.solo_plane.specs.OnTheWay.{CameAs, came_to, StepsTo, IsCarried};

use crate::held::Held;
use crate::ports;
use hook_chain::Next;
use packet_entry::{NoMemory, Packet};
use packet_moves::{Came, Fed, Setting, lose, turned};
use queue_core::{Begun, NoRoom, Settled};
use std::alloc::Global;

/// Makes room for the notice of an arrival in the mailbox of the queue's port.
fn make_room(held: &mut Held, queue: u16) -> Result<(), NoMemory>
    requires { IsReady held.old.place }
    ensures place { held.new.place ≡ held.old.place }
    ensures ports { ports_of held.new.ports ≡ ports_of held.old.ports }
    ensures logs { logs_of held.new.ports ≡ logs_of held.old.ports }
    ensures lost { held.new.lost ≡ held.old.lost }
    ensures fed { held.new.fed ≡ held.old.fed }
    ensures ok { OnOk result (IfSome (state_of held.old.place.entries queue) (λ q.
        IsSome (state_in held.old.ports q.port) →
        OnPort held.new.ports q.port (λ p. 0 < p.mailbox.room))) }
{
    match held.place.port_of(queue) {
        Some(port) => ports::make_room(&mut held.ports, port),
        None => Ok(()),
    }
}

/// The arrival of a packet that stands at a queue. When memory runs out the packet comes back, and
/// nothing has happened.
fn arrive(
    held: &mut Held,
    alloc: Global,
    setting: &Setting,
    queue: u16,
    bypass: bool,
    packet: Packet,
) -> Result<Came, NoRoom>
    requires ready { IsReady held.old.place }
    requires visited { 1 ≤ packet.visit }
    ensures ready { IsReady held.new.place }
    ensures world { IfOk result (λ came. world_of held.new ≡ arrived setting.now
        (world_of held.old) (record { queue = queue; card = packet; bypass = bypass })) }
    ensures came { IfOk result (λ came. (w : World) → CameAs setting.now w
        (turned_away setting.now (world_of held.old)
        (record { queue = queue; card = packet; bypass = bypass })) came) }
    ensures in_time { IfOk result IsInTime }
    ensures visit { IfOk result (HasVisit packet.visit) }
    ensures lost { held.new.lost ≡ held.old.lost }
    ensures fed { held.new.fed ≡ held.old.fed }
    ensures logs { logs_of held.new.ports ≡ logs_of held.old.ports }
    ensures returned { IfErr result (λ back. back.packet ≡ packet) }
    ensures err { OnErr result (world_of held.new ≡ world_of held.old) }
{
    if make_room(held, queue).is_err() {
        return Err(NoRoom { packet });
    }
    match held.place.begin(alloc, queue, bypass, packet)? {
        Begun::Back { outcome, packet } => Ok(turned(setting, outcome, packet)),
        Begun::Offered { port, letter } => {
            let room = ports::takes_one(&held.ports, port, setting.mail);
            match held.place.settle(room) {
                Settled::Waiting { id: _ } => {
                    ports::deliver(&mut held.ports, port, letter);
                    Ok(Came::Ended { fed: Fed::Waiting })
                }
                Settled::Back { outcome, packet } => Ok(turned(setting, outcome, packet)),
            }
        }
    }
}

/// Tries to move a packet on by a route: to its next arrival, or to its end. When memory runs out
/// the packet comes back as it was to arrive, and nothing has happened.
pub(crate) fn attempt(
    held: &mut Held,
    alloc: Global,
    setting: &Setting,
    mut packet: Packet,
    route: Next,
) -> Result<Came, NoRoom>
    requires ready { IsReady held.old.place }
    requires in_time { packet.visit < last_visit }
    ensures ready { IsReady held.new.place }
    ensures in_time { IfOk result IsInTime }
    ensures nearer { IfOk result (λ came.
        arrivals_left came < suc (last_visit - packet.visit)) }
    // This holds whatever packets were fed before: an arrival doesn't look at them.
    ensures moved { IfOk result (λ came. (memory : ℕ) (fed : List Card) →
        carry (suc memory) setting.now (record (world_of held.old) { fed = fed }) packet route
        ≡ came_to (carry memory setting.now) (record (world_of held.new) { fed = fed }) came) }
    ensures lost { held.new.lost ≡ held.old.lost }
    ensures fed { held.new.fed ≡ held.old.fed }
    ensures logs { logs_of held.new.ports ≡ logs_of held.old.ports }
    ensures returned { IfErr result (λ back. WasToArrive packet route back.packet) }
    ensures err { OnErr result (world_of held.new ≡ world_of held.old) }
{
    match route {
        Next::Released => {
            packet.release();
            Ok(Came::Ended { fed: Fed::Released })
        }
        Next::To {
            queue,
            bypass,
            table,
        } => {
            packet.queued(table);
            arrive(held, alloc, setting, queue, bypass, packet)
        }
    }
}

/// Moves a packet on by a route: to its next arrival, or to its end. A packet that finds no memory
/// is lost.
fn go(held: &mut Held, alloc: Global, setting: &Setting, packet: Packet, route: Next) -> Came
    requires ready { IsReady held.old.place }
    requires in_time { packet.visit < last_visit }
    requires room { 0 < held.old.lost.room }
    ensures ready { IsReady held.new.place }
    ensures in_time { IsInTime result }
    ensures nearer { arrivals_left result < suc (last_visit - packet.visit) }
    ensures carried { (memory : ℕ) → StepsTo memory setting.now (world_of held.old)
        (world_of held.new) packet (Some route) result }
    ensures room { KeepsRoom held.old.lost.room held.new.lost.room result }
    ensures fed { held.new.fed ≡ held.old.fed }
    ensures logs { logs_of held.new.ports ≡ logs_of held.old.ports }
{
    match attempt(held, alloc, setting, packet, route) {
        Ok(came) => came,
        Err(NoRoom { packet }) => lose(&mut held.lost, packet),
    }
}

/// The same of a packet that may have no route, and then is destroyed.
fn step(
    held: &mut Held,
    alloc: Global,
    setting: &Setting,
    packet: Packet,
    route: Option<Next>,
) -> Came
    requires ready { IsReady held.old.place }
    requires in_time { packet.visit < last_visit }
    requires room { 0 < held.old.lost.room }
    ensures ready { IsReady held.new.place }
    ensures in_time { IsInTime result }
    ensures nearer { arrivals_left result < arrivals_left (GoesOn packet route) }
    ensures carried { (memory : ℕ) → StepsTo memory setting.now (world_of held.old)
        (world_of held.new) packet route result }
    ensures room { KeepsRoom held.old.lost.room held.new.lost.room result }
    ensures fed { held.new.fed ≡ held.old.fed }
    ensures logs { logs_of held.new.ports ≡ logs_of held.old.ports }
{
    match route {
        Some(route) => go(held, alloc, setting, packet, route),
        None => {
            packet.destroy();
            Came::Ended {
                fed: Fed::Destroyed,
            }
        }
    }
}

/// Moves a packet on by a route, or destroys it where there is none: to its rest or its end.
pub(crate) fn carry_on(
    held: &mut Held,
    alloc: Global,
    setting: &Setting,
    packet: Packet,
    route: Option<Next>,
) -> Fed
    requires ready { IsReady held.old.place }
    requires in_time { packet.visit < last_visit }
    requires room { 0 < held.old.lost.room }
    ensures ready { IsReady held.new.place }
    ensures carried { IsCarried setting.now (world_of held.old) (GoesOn packet route)
        (world_of held.new) result }
    ensures room { held.old.lost.room ≤ held.new.lost.room + 1 }
    ensures fed { held.new.fed ≡ held.old.fed }
    ensures logs { logs_of held.new.ports ≡ logs_of held.old.ports }
{
    match step(held, alloc, setting, packet, route) {
        Came::Ended { fed } => fed,
        Came::GoesOn { packet, route } => carry_on(held, alloc, setting, packet, route),
    }
}

/// Moves a packet on to its rest or its end.
pub(crate) fn carry(held: &mut Held, alloc: Global, setting: &Setting, came: Came) -> Fed
    requires ready { IsReady held.old.place }
    requires in_time { IsInTime came }
    requires room { NeedsRoom came held.old.lost.room }
    ensures ready { IsReady held.new.place }
    ensures carried { IsCarried setting.now (world_of held.old) came (world_of held.new) result }
    ensures room { SpendsRoom came held.old.lost.room held.new.lost.room }
    ensures fed { held.new.fed ≡ held.old.fed }
    ensures logs { logs_of held.new.ports ≡ logs_of held.old.ports }
{
    match came {
        Came::Ended { fed } => fed,
        Came::GoesOn { packet, route } => carry_on(held, alloc, setting, packet, route),
    }
}
