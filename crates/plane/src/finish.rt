//! The end of a plane.

ghost use Rattle.std.specs.Prelude.{◌≡◌, ◌≢◌, ◌≤◌, ◌++◌, ℕ, List, true, map, IfOk, IfSome, OnOk};
ghost use Rattle.mailbox.specs.Roles.{AreDistinct};
ghost use Rattle.turn_lock.specs.Passes.{view_of};
ghost use Rattle.locked_place.specs.Views.{PlaceLabel, label_of};
ghost use Rattle.place_rows.specs.Lists.{Every};
ghost use Rattle.place_rows.specs.Rows.{Known, ArePasses, AreKnown, id_of, known_of};
ghost use Rattle.place_rows.specs.Joining.{RowJoined, AllJoined, AreWhole};
ghost use Rattle.total_order.specs.TotalOrder.{HasTotalOrder};
ghost use Rattle.plane.specs.Passes.{IsFeederOf, IsPortOf};
ghost use Rattle.plane.specs.Past.{lost_by};
ghost use Rattle.plane.specs.Planes.{places_of};
ghost use Rattle.plane.specs.Closings.{IsClosed};
ghost use Rattle.plane.specs.Opening.{all_rows, known_in};
ghost use Rattle.plane.specs.Remaining.{times_in, dids_in, log_in, IsRowOf, IsAdded, AreAdded};
ghost use Rattle.plane.specs.Remaining.{JoinTimely, AreAllIn, AreTimelyIn, AreLeft};

use crate::opened::{ClosedPorts, PortPasses};
use crate::past::{Link, Past};
use crate::plane::Plane;
use crate::port::{FeederPass, Port, PortState};
use histories::{Dids, Histories, Logs, Lost, PortLog};
use mailbox::Receiver;
use packet_entry::{NoMemory, Sequence, Stock};
use place_rows::{
    Locks, PortReceiver, Row, close_all, end_rows, join_row, rows_are_joined_one_by_one,
    rows_know_the_same_without_times,
};
use place_turns::{Passes, Places};
use std::alloc::Global;
use std::mem::replace;
use total_order::timed_lists_have_one_order;

/// What is left of ports, port by port, and the packets that all passes lost.
#[derive(Drop)]
pub(crate) struct Remains {
    receivers: Vec<PortReceiver>,
    logs: Vec<PortLog>,
    lost: Stock<Lost>,
}

/// Adds packets that were lost to others.
fn add_lost(all: &mut Stock<Lost>, more: Stock<Lost>) -> Result<(), NoMemory>
    ensures { OnOk result (all.new.items ≡ all.old.items ++ more.items) }
{
    for lost in more.into_sequence() {
        all.make_room(1)?;
        all.push(lost);
    }
    Ok(())
}

/// Adds those that were lost by passes that were joined.
fn add_past(all: &mut Stock<Lost>, past: Past) -> Result<(), NoMemory>
    ensures { OnOk result (all.new.items ≡ all.old.items ++ lost_by past) }
{
    match past {
        Past::Nothing => Ok(()),
        Past::Joined(link) => {
            let Link {
                front,
                fed: _fed,
                lost,
                back,
            } = Box::into_inner(link);
            add_past(all, front)?;
            add_lost(all, lost)?;
            add_past(all, back)
        }
    }
}

/// All that a feeder lost, where there was memory for it.
fn all_lost(alloc: Global, past: Past, own: Stock<Lost>) -> Result<Stock<Lost>, NoMemory>
    ensures { IfOk result (λ all. all.items ≡ lost_by past ++ own.items) }
{
    let mut all = Stock::new(alloc);
    add_past(&mut all, past)?;
    add_lost(&mut all, own)?;
    Ok(all)
}

/// The same, and whether there was memory.
fn lost_by_feeder(alloc: Global, past: Past, own: Stock<Lost>) -> (Stock<Lost>, bool)
    ensures { result.1 ≡ true → result.0.items ≡ lost_by past ++ own.items }
{
    match all_lost(alloc, past, own) {
        Ok(all) => (all, true),
        Err(NoMemory) => (Stock::new(alloc), false),
    }
}

/// Adds what is left of a port.
fn add(
    remains: &mut Remains,
    port: u32,
    receiver: Receiver,
    dids: Dids,
    lost: Stock<Lost>,
) -> Result<(), NoMemory>
    ensures { OnOk result (IsAdded port receiver dids lost.items remains.old remains.new) }
{
    add_lost(&mut remains.lost, lost)?;
    remains.logs.push(PortLog { port, dids })?;
    remains.receivers.push(PortReceiver { port, receiver })?;
    Ok(())
}

/// Joins passes into a row, and gives what their calls lost.
fn join_passes(locks: &Locks, into: &mut Row, passes: Passes) -> Stock<Lost>
    requires passes { (named : ℕ → PlaceLabel)
        × ArePasses label_of named locks.now.items into.old.items
        × (passes.locks ≡ map id_of locks.now.items) × AreKnown label_of named passes.trail.known }
    ensures passes { (named : ℕ → PlaceLabel) →
        ArePasses label_of named locks.now.items into.old.items →
        ArePasses label_of named locks.now.items into.new.items }
    ensures joined { RowJoined 0 (known_of (map view_of into.old.items)) passes.trail.known
        (known_of (map view_of into.new.items)) }
    ensures timed { RowJoined 0 (map view_of into.old.items) passes.timed
        (map view_of into.new.items) }
    ensures known { known_of passes.timed ≡ passes.trail.known }
    ensures lost { result.items ≡ passes.trail.lost }
{
    rows_know_the_same_without_times();
    let Passes {
        row,
        sent: _sent,
        lost,
        clock: _clock,
    } = passes;
    join_row(locks, into, row);
    lost
}

/// Joins the passes of ports into a row, and adds what is left of them: whether there was memory.
fn join_ports<S: PortState>(
    locks: &Locks,
    into: &mut Row,
    ports: Sequence<Port<S>>,
    remains: &mut Remains,
) -> bool
    requires passes { (named : ℕ → PlaceLabel)
        × ArePasses label_of named locks.now.items into.old.items
        × Every (IsRowOf (map id_of locks.now.items) named) ports }
    ensures passes { (named : ℕ → PlaceLabel) →
        ArePasses label_of named locks.now.items into.old.items →
        ArePasses label_of named locks.now.items into.new.items }
    ensures joined { (rows : List (List Known)) (first : List Known) →
        AllJoined rows first (known_of (map view_of into.old.items)) →
        AllJoined (rows ++ map known_in ports) first (known_of (map view_of into.new.items)) }
    ensures timely { JoinTimely ports (map view_of into.old.items) (map view_of into.new.items) }
    ensures kept { result ≡ true → AreAdded ports remains.old remains.new }
{
    rows_are_joined_one_by_one();
    let mut kept = true;
    for pass in ports {
        let Port {
            passes,
            port,
            receiver,
            log,
            state: _state,
        } = pass;
        let lost = join_passes(locks, into, passes);
        let room = add(remains, port, receiver, log.into_dids(), lost).is_ok();
        kept = kept & room;
    }
    kept
}

/// Joins all passes of a plane into one row, and gives what is left of them, where there was memory
/// for it.
fn join_all(
    alloc: Global,
    plane: &Plane,
    feeder: FeederPass,
    ports: PortPasses,
    closed: ClosedPorts,
) -> (Row, Option<Remains>)
    requires feeder { IsFeederOf plane.now feeder }
    requires ports { Every (IsPortOf plane.now) ports }
    requires closed { Every (IsPortOf plane.now) closed }
    requires whole { AreWhole (places_of plane.now) (all_rows feeder ports closed) }
    ensures joined { AreAllIn plane.now feeder (ports ++ closed) result.0.items }
    ensures timely { AreTimelyIn feeder (ports ++ closed) (map view_of result.0.items) }
    ensures left { IfSome result.1 (AreLeft feeder (ports ++ closed)) }
{
    rows_are_joined_one_by_one();
    rows_know_the_same_without_times();
    let FeederPass {
        passes,
        fed: _fed,
        past,
        fed_before: _before,
        link: _link,
    } = feeder;
    let Passes {
        mut row,
        sent: _sent,
        lost,
        clock: _clock,
    } = passes;
    let (lost, first) = lost_by_feeder(alloc, past, lost);
    let mut remains = Remains {
        receivers: Vec::new(alloc),
        logs: Vec::new(alloc),
        lost,
    };
    let second = join_ports(&plane.shared.locks, &mut row, ports, &mut remains);
    let third = join_ports(&plane.shared.locks, &mut row, closed, &mut remains);
    (row, (first & second & third).then_some(remains))
}

/// Takes what a port did out of its log, where there is one.
fn take_dids(alloc: Global, logs: &mut Vec<PortLog>, port: u32) -> Dids
    ensures dids { result ≡ dids_in logs.old.items port }
    ensures others { (q : ℕ) → q ≢ port → dids_in logs.new.items q ≡ dids_in logs.old.items q }
{
    for i in 0..logs.len() {
        if logs[i].port == port {
            return replace(&mut logs[i].dids, Sequence::new(alloc));
        }
    }
    Sequence::new(alloc)
}

/// The logs of these ports, in their order.
fn in_order(alloc: Global, order: &[u32], mut logs: Vec<PortLog>) -> Result<Logs, NoMemory>
    requires distinct { AreDistinct order.now }
    ensures { IfOk result (λ l. l ≡ map (log_in logs.items) order.now) }
{
    let mut ordered = Vec::new(alloc);
    for port in order {
        let dids = take_dids(alloc, &mut logs, *port);
        ordered.push(PortLog { port: *port, dids })?;
    }
    Ok(Sequence::from_vec(ordered))
}

impl Plane {
    /// Takes the plane apart, with all its passes, which have together the whole of each place's
    /// lock: all that happened, of which there is one order. When memory runs out the locks are
    /// taken apart just the same.
    pub fn close(
        self,
        alloc: Global,
        feeder: FeederPass,
        ports: PortPasses,
        closed: ClosedPorts,
    ) -> Result<Histories, NoMemory>
        requires feeder { IsFeederOf self feeder }
        requires ports { Every (IsPortOf self) ports }
        requires closed { Every (IsPortOf self) closed }
        requires apart { (port : ℕ) → times_in port (ports ++ closed) ≤ 1 }
        requires whole { AreWhole (places_of self) (all_rows feeder ports closed) }
        ensures closed { IfOk result (IsClosed self feeder (ports ++ closed)) }
        ensures order { IfOk result HasTotalOrder }
    {
        timed_lists_have_one_order();
        let (row, left) = join_all(alloc, &self, feeder, ports, closed);
        let Plane { order, shared } = self;
        let Places {
            setting: _setting,
            outlets,
            locks,
        } = shared;
        let Some(
            Remains {
                receivers,
                logs,
                lost,
            },
        ) = left
        else {
            close_all(locks, row);
            return Err(NoMemory);
        };
        let entries = end_rows(alloc, &outlets, locks, row, receivers)?;
        Ok(Histories {
            entries,
            logs: in_order(alloc, &order, logs)?,
            lost: lost.into_sequence(),
        })
    }
}
