//! Turns of a pass at a place behind a lock. What each promises holds once it returns; that it
//! returns, no clause says.

ghost use Rattle.std.specs.Prelude.{◌≡◌, ◌≤◌, ◌<◌, ◌^◌, [], length, IsSome, IfOk, OnOk, IfErr};
ghost use Rattle.std.specs.Prelude.{OnErr};
ghost use Rattle.nfqa_msgs.specs.RequestReading.{PayloadFits};
ghost use Rattle.histories.specs.Happenings.{queue_of};
ghost use Rattle.histories.specs.Places.{place_for};
ghost use Rattle.packet_moves.specs.HandedOn.{AreInTime};
ghost use Rattle.turn_lock.specs.Passes.{view_of};
ghost use Rattle.locked_place.specs.Views.{PlaceLabel, label_of, AreOutletsOf};
ghost use Rattle.locked_place.specs.Passes.{IsPassOf, plain_view_of};
ghost use Rattle.locked_place.specs.Turns.{TimedArrival, TimedRequest, TimedLook, TimedClosing};
ghost use Rattle.locked_place.specs.Turns.{TimedDown, HasSender};
ghost use Rattle.place_history.specs.Lines.{AreLined};
ghost use Rattle.place_history.specs.PlaceState.{AreHere};

use crate::arrivals::Placed;
use crate::gate::Gate;
use crate::outlets::Outlets;
use crate::place::LockedPlace;
use histories::Lost;
use nfqa_msgs::Request;
use packet_entry::{NoMemory, Packet, Stock};
use place_history::Lines;
use queue_core::{Handed, NoRoom};
use std::alloc::Global;
use std::sync::Wait;
use turn_lock::{Pass, TurnLock};

/// A place behind its lock, as it is entered for turns that a gate is told of.
#[derive(Drop)]
pub struct Entrance<'a, R, G> {
    pub rt: &'a R,
    pub gate: &'a G,
    pub lock: &'a TurnLock<LockedPlace>,
    pub outlets: &'a Outlets,
    /// Which place it is, for the gate.
    pub place: u8,
}

/// What a port asks of a queue.
pub struct Question {
    pub port: u32,
    /// The number of the port's message.
    pub call: u32,
    pub request: Request,
}

/// A packet arrives, in a turn of this pass at the place with this number: it waits, or comes back.
/// The clock is then the turn's time. When memory runs out the packet comes back too, nothing has
/// happened, and the pass may have seen more.
pub fn arrive<R: Wait, G: Gate>(
    at: &Entrance<'_, R, G>,
    alloc: Global,
    pass: &mut Pass<LockedPlace>,
    clock: &mut u64,
    queue: u16,
    bypass: bool,
    packet: Packet,
) -> Result<Placed, NoRoom>
    requires visited { 1 ≤ packet.visit }
    requires pass { (named : PlaceLabel) × IsPassOf label_of named at.now.lock.now pass.old
        × (place_for queue named.places ≡ named.number)
        × AreOutletsOf at.now.outlets.now named }
    ensures pass { (named : PlaceLabel) → IsPassOf label_of named at.now.lock.now pass.old →
        IsPassOf label_of named at.now.lock.now pass.new }
    ensures part { (view_of pass.new).part ≡ (view_of pass.old).part }
    ensures turn { IfOk result (TimedArrival clock.old clock.new
        (record { queue = queue; card = packet; bypass = bypass })
        (view_of pass.old) (view_of pass.new)) }
    ensures sender { (named : PlaceLabel) → IsPassOf label_of named at.now.lock.now pass.old →
        IfOk result (HasSender named.senders) }
    ensures short { length (view_of pass.new).seen < 2 ^ 64 }
    ensures returned { IfErr result (λ back. back.packet ≡ packet) }
    ensures err { OnErr result
        (TimedLook clock.old clock.new (view_of pass.old) (view_of pass.new)) }
{
    let mut held = at.lock.enter(at.rt, pass);
    at.gate.inside(at.rt, at.place);
    let place = held.state();
    *clock = place.begin_turn(at.rt, *clock);
    let placed = place.arrive(at.rt, alloc, at.outlets, queue, bypass, packet);
    at.lock.leave(pass, held);
    placed
}

/// A port asks something of a queue, in a turn of this pass at the place with this number, and the
/// errno is answered. What the queue lets go on is handed out, and there is room in `lost` for as
/// many. The clock is then the turn's time. When memory runs out nothing has happened, and the pass
/// may have seen more.
pub fn ask<R: Wait, G: Gate>(
    at: &Entrance<'_, R, G>,
    alloc: Global,
    pass: &mut Pass<LockedPlace>,
    clock: &mut u64,
    lost: &mut Stock<Lost>,
    question: Question,
    handed: &mut Handed,
) -> Result<u16, NoMemory>
    requires payload { PayloadFits question.request }
    requires none { handed.old.items ≡ [] }
    requires pass { (named : PlaceLabel) × IsPassOf label_of named at.now.lock.now pass.old
        × (place_for (queue_of question.request) named.places ≡ named.number)
        × IsSome (named.senders question.port) × AreOutletsOf at.now.outlets.now named }
    ensures pass { (named : PlaceLabel) → IsPassOf label_of named at.now.lock.now pass.old →
        IsPassOf label_of named at.now.lock.now pass.new }
    ensures part { (view_of pass.new).part ≡ (view_of pass.old).part }
    ensures turn { IfOk result (λ errno. TimedRequest clock.old clock.new question.port
        question.call question.request (view_of pass.old) (view_of pass.new) errno
        handed.new.items) }
    ensures short { length (view_of pass.new).seen < 2 ^ 64 }
    ensures room { OnOk result (length handed.new.items ≤ lost.new.room) }
    ensures in_time { OnOk result (AreInTime handed.new.items) }
    ensures lost { lost.new.items ≡ lost.old.items }
    ensures err { OnErr result
        (TimedLook clock.old clock.new (view_of pass.old) (view_of pass.new)
        × (handed.new.items ≡ [])) }
{
    let mut held = at.lock.enter(at.rt, pass);
    at.gate.inside(at.rt, at.place);
    let place = held.state();
    *clock = place.begin_turn(at.rt, *clock);
    let asked = place.ask(alloc, at.outlets, lost, question, handed);
    at.lock.leave(pass, held);
    asked
}

/// A port closes, in a turn of this pass: each of the place's queues that is bound to it ends, with
/// all that waits in it destroyed. Answers how many packets were destroyed; the number stops at
/// 4,294,967,295. The clock is then the turn's time. Takes no memory.
pub fn close_port<R: Wait>(
    rt: &R,
    lock: &TurnLock<LockedPlace>,
    pass: &mut Pass<LockedPlace>,
    clock: &mut u64,
    outlets: &Outlets,
    port: u32,
) -> u32
    requires pass { (named : PlaceLabel) × IsPassOf label_of named lock.now pass.old
        × AreOutletsOf outlets.now named }
    ensures pass { (named : PlaceLabel) → IsPassOf label_of named lock.now pass.old →
        IsPassOf label_of named lock.now pass.new }
    ensures part { (view_of pass.new).part ≡ (view_of pass.old).part }
    ensures turn { TimedClosing clock.old clock.new port (view_of pass.old) (view_of pass.new)
        result }
    ensures short { length (view_of pass.new).seen < 2 ^ 64 }
{
    let mut held = lock.enter(rt, pass);
    let place = held.state();
    *clock = place.begin_turn(rt, *clock);
    let destroyed = place.close_port(outlets, port);
    lock.leave(pass, held);
    destroyed
}

/// A device goes down, in a turn of this pass: where it is one of the two by which every packet
/// comes in and goes out, all that waits at the place is destroyed. Answers how many packets were
/// destroyed; the number stops at 4,294,967,295. The clock is then the turn's time. When memory
/// runs out nothing has happened, and the pass may have seen more.
pub fn device_down<R: Wait>(
    rt: &R,
    lock: &TurnLock<LockedPlace>,
    pass: &mut Pass<LockedPlace>,
    clock: &mut u64,
    outlets: &Outlets,
    device: u32,
) -> Result<u32, NoMemory>
    requires pass { (named : PlaceLabel) × IsPassOf label_of named lock.now pass.old
        × AreOutletsOf outlets.now named }
    ensures pass { (named : PlaceLabel) → IsPassOf label_of named lock.now pass.old →
        IsPassOf label_of named lock.now pass.new }
    ensures part { (view_of pass.new).part ≡ (view_of pass.old).part }
    ensures turn { IfOk result
        (TimedDown clock.old clock.new device (view_of pass.old) (view_of pass.new)) }
    ensures short { length (view_of pass.new).seen < 2 ^ 64 }
    ensures err { OnErr result
        (TimedLook clock.old clock.new (view_of pass.old) (view_of pass.new)) }
{
    let mut held = lock.enter(rt, pass);
    let place = held.state();
    *clock = place.begin_turn(rt, *clock);
    let destroyed = place.device_down(outlets, device);
    lock.leave(pass, held);
    destroyed
}

/// Puts the line of each of the place's bound queues into others, by its number, in a turn of this
/// pass. The clock is then the turn's time. After `NoMemory` some of the lines are there.
pub fn put_lines<R: Wait>(
    rt: &R,
    alloc: Global,
    lock: &TurnLock<LockedPlace>,
    pass: &mut Pass<LockedPlace>,
    clock: &mut u64,
    lines: &mut Lines,
) -> Result<(), NoMemory>
    requires pass { (named : PlaceLabel) × IsPassOf label_of named lock.now pass.old }
    ensures pass { (named : PlaceLabel) → IsPassOf label_of named lock.now pass.old →
        IsPassOf label_of named lock.now pass.new }
    ensures part { (view_of pass.new).part ≡ (view_of pass.old).part }
    ensures turn { TimedLook clock.old clock.new (view_of pass.old) (view_of pass.new) }
    ensures lines { OnOk result (AreLined (plain_view_of pass.new).seen lines.old lines.new) }
    ensures here { (named : PlaceLabel) → IsPassOf label_of named lock.now pass.old →
        AreHere named.places named.number (plain_view_of pass.new).seen }
{
    let mut held = lock.enter(rt, pass);
    let place = held.state();
    *clock = place.begin_turn(rt, *clock);
    let _entries = place.entries();
    let put = place.put_lines(alloc, lines);
    lock.leave(pass, held);
    put
}
