//! A plane that opens, and what it comes with.

ghost use Rattle.std.specs.Prelude.{◌≡◌, ◌≢◌, ◌≤◌, ◌∷◌, ℕ, List, [], map, length, Some, IfOk, OnOk};
ghost use Rattle.std.specs.BTreeMap.{get};
ghost use Rattle.std.specs.Ordering.{nat_cmp};
ghost use Rattle.std.specs.Vec.{vec_capacity};
ghost use Rattle.mailbox.specs.Numbers.{least_capacity, most_capacity};
ghost use Rattle.mailbox.specs.Roles.{AreDistinct};
ghost use Rattle.glance.specs.Numbers.{least_places, most_places};
ghost use Rattle.turn_lock.specs.Passes.{view_of};
ghost use Rattle.turn_lock.specs.Views.{kept_view, split_view};
ghost use Rattle.locked_place.specs.declared.outlets.Outlets.{Outlets};
ghost use Rattle.locked_place.specs.Views.{PlaceLabel, label_of};
ghost use Rattle.place_rows.specs.Lists.{Every};
ghost use Rattle.place_rows.specs.Rows.{ArePasses, label_at, id_of, lock_of, known_of};
ghost use Rattle.place_rows.specs.Joining.{AreWhole};
ghost use Rattle.plane.specs.Closings.{receiver_of};
ghost use Rattle.place_turns.specs.Counts.{AreCounted};
ghost use Rattle.plane.specs.Filling.{AreZero, IsReady, AreFor, IsFilled, HasDoneNothing};
ghost use Rattle.plane.specs.Filling.{receiver_in, IsUnheard, HasUnused};
ghost use Rattle.plane.specs.Opening.{IsOpened, IsUnused, known_in};
ghost use Rattle.plane.specs.Remaining.{IsRowOf};

use crate::past::{Past, new_link};
use crate::plane::Plane;
use crate::port::{ClosedPort, FeederPass, Port, PortPass};
use glance::{Board, GlancePass};
use hook_chain::Tables;
use locked_place::Outlets;
use mailbox::Receiver;
use packet_entry::{NoMemory, Sequence, Stock};
use packet_moves::Setting;
use place_rows::{
    Dealt, Locks, PortReceiver, Row, deal_ports, open_places, rows_know_the_same_without_times,
    rows_stay_balanced, split_row,
};
use place_turns::{Counts, Log, Passes, Places, passes_begin_and_end_timely};
use std::alloc::Global;
use std::collections::BTreeMap;
use std::marker::PhantomData;
use turn_lock::{a_part_is_known_by_its_ways, parts_are_put_together_in_any_order};

/// The passes of ports.
pub type PortPasses = Sequence<PortPass>;

/// Ports that closed.
pub type ClosedPorts = Sequence<ClosedPort>;

/// A new plane, with the passes of who feeds, of the ports in the order in which they were given,
/// and of who reads the board. The feeder's and the ports' have together the whole of each place's
/// lock.
pub struct Opened {
    /// The plane.
    pub plane: Plane,
    /// The pass of who feeds.
    pub feeder: FeederPass,
    /// The pass of each port.
    pub ports: PortPasses,
    /// The pass of who reads the board.
    pub gauge: GlancePass,
}

/// What the pass of a port is to be, while no place has a lock yet.
#[derive(Drop)]
pub(crate) struct Unfilled {
    /// No passes, and room for one of each place.
    row: Row,
    sent: Vec<Counts>,
    port: u32,
    receiver: Receiver,
    log: Log,
}

/// Counts no notice yet for a port.
fn put_zero(counts: &mut Counts, port: u32) -> Result<(), NoMemory>
    ensures own { OnOk result (get nat_cmp counts.new port ≡ Some 0) }
    ensures others { OnOk result ((p : ℕ) → p ≢ port →
        get nat_cmp counts.new p ≡ get nat_cmp counts.old p) }
{
    counts.insert(port, 0)?;
    Ok(())
}

/// Counts of these ports, with no notice yet.
fn zero_counts(alloc: Global, ports: &[u32]) -> Result<Counts, NoMemory>
    ensures { IfOk result (AreZero ports.now) }
{
    let mut counts = BTreeMap::new(alloc);
    for port in ports {
        put_zero(&mut counts, *port)?;
    }
    Ok(counts)
}

/// The same for each of so many places.
fn no_counts(alloc: Global, places: u8, ports: &[u32]) -> Result<Vec<Counts>, NoMemory>
    ensures many { IfOk result (λ sent. length sent.items ≡ places) }
    ensures zero { IfOk result (λ sent. Every (AreZero ports.now) sent.items) }
{
    let mut sent = Vec::new(alloc);
    for _ in 0..places {
        sent.push(zero_counts(alloc, ports)?)?;
    }
    Ok(sent)
}

/// Makes ready what the pass of a port needs besides its row.
fn prepare(
    alloc: Global,
    places: u8,
    ports: &[u32],
    receiver: PortReceiver,
) -> Result<Unfilled, NoMemory>
    requires unheard { IsUnheard receiver }
    ensures ready { IfOk result (IsReady places ports.now) }
    ensures same { IfOk result (λ u. receiver_in u ≡ receiver) }
{
    let PortReceiver { port, receiver } = receiver;
    Ok(Unfilled {
        row: Vec::with_capacity(alloc, usize::from(places))?,
        sent: no_counts(alloc, places, ports)?,
        port,
        receiver,
        log: Log::new(alloc)?,
    })
}

/// Makes ready what the passes of all ports need.
fn prepare_all(
    alloc: Global,
    places: u8,
    ports: &[u32],
    receivers: Vec<PortReceiver>,
) -> Result<Vec<Unfilled>, NoMemory>
    requires unheard { Every IsUnheard receivers.items }
    ensures ready { IfOk result (λ all. Every (IsReady places ports.now) all.items) }
    ensures same { IfOk result (λ all. map receiver_in all.items ≡ receivers.items) }
{
    let mut all = Vec::new(alloc);
    for receiver in receivers {
        let unfilled = prepare(alloc, places, ports, receiver)?;
        all.push(unfilled)?;
    }
    Ok(all)
}

/// Passes of this row, which lost nothing.
fn passes_of(alloc: Global, row: Row, sent: Vec<Counts>) -> Passes
    requires counted { AreCounted (known_of (map view_of row.items)) sent.items }
    ensures locks { result.locks ≡ map lock_of row.items }
    ensures known { result.trail.known ≡ known_of (map view_of row.items) }
    ensures none_lost { result.trail.lost ≡ [] }
    ensures begins { (result.clock ≡ 0) × (result.timed ≡ map view_of row.items) }
{
    Passes {
        row,
        sent,
        lost: Stock::new(alloc),
        clock: 0,
    }
}

/// Fills the pass of a port with a row that is split off this one.
fn fill(alloc: Global, locks: &Locks, row: &mut Row, unfilled: Unfilled) -> PortPass
    requires ready { (outlets : Outlets) × (ports : List ℕ)
        × ArePasses label_of (label_at outlets) locks.now.items row.old.items
        × (length locks.now.items ≡ outlets.board.places) × AreFor outlets ports
        × IsReady outlets.board.places ports unfilled }
    requires unused { Every IsUnused (known_of (map view_of row.old.items)) }
    ensures rows { (named : ℕ → PlaceLabel) →
        ArePasses label_of named locks.now.items row.old.items →
        ArePasses label_of named locks.now.items row.new.items
        × IsRowOf (map id_of locks.now.items) named result }
    ensures kept { known_of (map view_of row.new.items)
        ≡ map kept_view (known_of (map view_of row.old.items)) }
    ensures split { result.trail.known ≡ map split_view (known_of (map view_of row.old.items)) }
    ensures filled { IsFilled unfilled result }
{
    let Unfilled {
        row: mut made,
        sent,
        port,
        receiver,
        log,
    } = unfilled;
    rows_know_the_same_without_times();
    passes_begin_and_end_timely();
    split_row(locks, row, &mut made);
    Port {
        passes: passes_of(alloc, made, sent),
        port,
        receiver,
        log,
        state: PhantomData,
    }
}

/// Fills the passes of all ports, one after the other. There is room for them.
fn fill_all(
    alloc: Global,
    locks: &Locks,
    row: &mut Row,
    unfilled: Vec<Unfilled>,
    mut passes: Vec<PortPass>,
) -> PortPasses
    requires room { (passes.items ≡ []) × (length unfilled.items ≤ vec_capacity passes) }
    requires ready { (outlets : Outlets) × (ports : List ℕ)
        × ArePasses label_of (label_at outlets) locks.now.items row.old.items
        × (length locks.now.items ≡ outlets.board.places) × AreFor outlets ports
        × Every (IsReady outlets.board.places ports) unfilled.items }
    requires unused { Every IsUnused (known_of (map view_of row.old.items)) }
    ensures rows { (named : ℕ → PlaceLabel) →
        ArePasses label_of named locks.now.items row.old.items →
        ArePasses label_of named locks.now.items row.new.items
        × Every (IsRowOf (map id_of locks.now.items) named) result }
    ensures whole { (places : ℕ) →
        AreWhole places (known_of (map view_of row.old.items) ∷ []) →
        AreWhole places (known_of (map view_of row.new.items) ∷ map known_in result) }
    ensures unused { Every IsUnused (known_of (map view_of row.new.items))
        × Every HasUnused result }
    ensures receivers { map receiver_of result ≡ map receiver_in unfilled.items }
    ensures nothing { Every HasDoneNothing result }
{
    parts_are_put_together_in_any_order();
    a_part_is_known_by_its_ways();
    rows_know_the_same_without_times();
    for one in unfilled {
        let pass = fill(alloc, locks, row, one);
        passes.push_reserved(pass);
    }
    Sequence::from_vec(passes)
}

impl Plane {
    /// A plane of 1 to 64 places with these ports, none of them twice. Packets go through the
    /// tables; `key` is the flow hash's. Each port's mailbox holds `mail` notices, 1 to 65,536.
    pub fn new(
        alloc: Global,
        places: u8,
        ports: &[u32],
        mail: u32,
        tables: Tables,
        key: u32,
    ) -> Result<Opened, NoMemory>
        requires places { (least_places ≤ places) × (places ≤ most_places) }
        requires apart { AreDistinct ports.now }
        requires mail { (least_capacity ≤ mail) × (mail ≤ most_capacity) }
        ensures { IfOk result (λ o. IsOpened places ports.now
            (record { tables = tables; key = key; mail = mail }) o.plane o.feeder o.ports o.gauge) }
    {
        rows_stay_balanced();
        rows_know_the_same_without_times();
        passes_begin_and_end_timely();
        let order = Vec::from_slice(alloc, ports)?;
        let Dealt {
            mailboxes,
            senders,
            receivers,
        } = deal_ports(alloc, places, mail, ports)?;
        let unfilled = prepare_all(alloc, places, ports, receivers)?;
        let passes = Vec::with_capacity(alloc, unfilled.len())?;
        let sent = no_counts(alloc, places, ports)?;
        let link = new_link(alloc)?;
        let (board, writers, gauge) = Board::new(alloc, places)?;
        let outlets = Outlets { mailboxes, board };
        let (locks, mut row) = open_places(alloc, &outlets, places, senders, writers)?;
        let port_passes = fill_all(alloc, &locks, &mut row, unfilled, passes);
        let feeder = FeederPass {
            passes: passes_of(alloc, row, sent),
            fed: Stock::new(alloc),
            past: Past::Nothing,
            fed_before: 0,
            link,
        };
        let setting = Setting { tables, key, mail };
        Ok(Opened {
            plane: Plane {
                order,
                shared: Places {
                    setting,
                    outlets,
                    locks,
                },
            },
            feeder,
            ports: port_passes,
            gauge,
        })
    }
}
