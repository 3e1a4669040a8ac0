//! Places that open: their locks, the row that has the whole of each, and the ports' mailboxes with
//! a sender for each place.

ghost use Rattle.std.specs.Prelude.{◌≡◌, ◌≤◌, ◌<◌, ◌+◌, ◌++◌, ◌∷◌, ℕ, List, [], length, map, IfOk};
ghost use Rattle.std.specs.Prelude.{OnOk};
ghost use Rattle.std.specs.Prelude.{◌≢◌, OnErr, Some, option_map};
ghost use Rattle.std.specs.BTreeMap.{get};
ghost use Rattle.std.specs.Ordering.{nat_cmp};
ghost use Rattle.std.specs.Vec.{vec_len, vec_capacity};
ghost use Rattle.mailbox.specs.Numbers.{least_capacity, most_capacity};
ghost use Rattle.mailbox.specs.Roles.{AreDistinct, In};
ghost use Rattle.mailbox.specs.Views.{opening_sender};
ghost use Rattle.glance.specs.Views.{AllWriters, opening_writer};
ghost use Rattle.place_history.specs.Numbers.{most_places};
ghost use Rattle.turn_lock.specs.declared.lock.TurnLock.{TurnLock};
ghost use Rattle.turn_lock.specs.declared.pass.Pass.{Pass};
ghost use Rattle.turn_lock.specs.Passes.{view_of};
ghost use Rattle.locked_place.specs.Views.{label_of};
ghost use Rattle.locked_place.specs.Passes.{IsPassOf};
ghost use Rattle.place_rows.specs.Lists.{Every};
ghost use Rattle.place_rows.specs.Rows.{ArePasses, label_at, sender_made};
ghost use Rattle.place_rows.specs.Opening.{IsGiven, AreDealt, IsDealt, AreSendersOf, HasNone};
ghost use Rattle.place_rows.specs.Opening.{IsFirst, AreFirst};

use crate::ending::{PortReceiver, close_all};
use crate::rows::{Locks, Row};
use glance::{Writer, Writers};
use locked_place::{LockedPlace, Outlets, Stamps};
use mailbox::{Mailbox, Sender};
use packet_entry::NoMemory;
use std::alloc::Global;
use std::collections::BTreeMap;
use turn_lock::{TurnLock, Unmade};

/// The senders of a place, by port.
pub type Senders = BTreeMap<u32, Sender>;

/// The mailboxes of ports, a sender to each of them for each place, and who receives.
#[derive(Drop)]
pub struct Dealt {
    /// The mailbox of each port.
    pub mailboxes: BTreeMap<u32, Mailbox>,
    /// The senders of each place, in the places' order.
    pub senders: Vec<Senders>,
    /// Who receives from each mailbox, in the ports' order.
    pub receivers: Vec<PortReceiver>,
}

/// Gives a place a sender to a port's mailbox.
fn give(senders: &mut Senders, port: u32, sender: Sender) -> Result<(), NoMemory>
    ensures given { OnOk result (IsGiven port sender senders.old senders.new) }
{
    senders.insert(port, sender)?;
    Ok(())
}

/// Deals a sender to a port's mailbox to each place.
fn deal(
    mailbox: &Mailbox,
    mut first: Sender,
    places: u8,
    port: u32,
    senders: &mut Vec<Senders>,
) -> Result<(), NoMemory>
    requires first { first ≡ opening_sender mailbox.now }
    requires places { (1 ≤ places) × (places ≤ most_places) }
    requires senders { length senders.old.items ≡ places }
    ensures dealt { OnOk result
        (AreDealt places port mailbox.now senders.old.items senders.new.items) }
{
    for place in 1..usize::from(places) {
        let Ok(sender) = mailbox.split(&mut first) else {
            unreachable!()
        };
        give(&mut senders[place], port, sender)?;
    }
    give(&mut senders[0], port, first)
}

/// Adds a port's mailbox to others.
fn add(mailboxes: &mut BTreeMap<u32, Mailbox>, port: u32, mailbox: Mailbox) -> Result<(), NoMemory>
    ensures own { OnOk result (get nat_cmp mailboxes.new port ≡ Some mailbox) }
    ensures others { OnOk result ((p : ℕ) → p ≢ port →
        get nat_cmp mailboxes.new p ≡ get nat_cmp mailboxes.old p) }
{
    mailboxes.insert(port, mailbox)?;
    Ok(())
}

/// Makes a port's mailbox, which holds so many letters, and deals its senders.
fn deal_port(
    alloc: Global,
    places: u8,
    mail: u32,
    port: u32,
    dealt: &mut Dealt,
) -> Result<(), NoMemory>
    requires mail { (least_capacity ≤ mail) × (mail ≤ most_capacity) }
    requires places { (1 ≤ places) × (places ≤ most_places) }
    requires new { (done : List ℕ) × IsDealt places mail done dealt.old × (In port done → ⊥) }
    ensures more { (done : List ℕ) → IsDealt places mail done dealt.old → (In port done → ⊥) →
        OnOk result (IsDealt places mail (done ++ port ∷ []) dealt.new) }
{
    let (mailbox, first, receiver) = Mailbox::new(alloc, mail)?;
    deal(&mailbox, first, places, port, &mut dealt.senders)?;
    add(&mut dealt.mailboxes, port, mailbox)?;
    dealt.receivers.push(PortReceiver { port, receiver })?;
    Ok(())
}

/// Senders of so many places that have none.
fn no_senders(alloc: Global, places: u8) -> Result<Vec<Senders>, NoMemory>
    ensures many { IfOk result (λ senders. length senders.items ≡ places) }
    ensures none { IfOk result (λ senders. Every HasNone senders.items) }
{
    let mut senders = Vec::new(alloc);
    for _ in 0..places {
        senders.push(BTreeMap::new(alloc))?;
    }
    Ok(senders)
}

/// Makes a mailbox for each of these ports, which holds so many letters, with a sender for each of
/// so many places.
pub fn deal_ports(alloc: Global, places: u8, mail: u32, ports: &[u32]) -> Result<Dealt, NoMemory>
    requires mail { (least_capacity ≤ mail) × (mail ≤ most_capacity) }
    requires places { (1 ≤ places) × (places ≤ most_places) }
    requires distinct { AreDistinct ports.now }
    ensures dealt { IfOk result (IsDealt places mail ports.now) }
{
    let mut dealt = Dealt {
        mailboxes: BTreeMap::new(alloc),
        senders: no_senders(alloc, places)?,
        receivers: Vec::new(alloc),
    };
    for port in ports {
        deal_port(alloc, places, mail, *port, &mut dealt)?;
    }
    Ok(dealt)
}

/// The locks of the places that are open, and the row that has the whole of each.
struct OpenPlaces {
    locks: Locks,
    row: Row,
}

/// Makes the lock of the place with this number, with its first pass. There is room for both.
fn open_place(
    alloc: Global,
    outlets: &Outlets,
    number: u8,
    places: u8,
    senders: Senders,
    writer: Writer,
    opened: &mut OpenPlaces,
) -> Result<(), NoMemory>
    requires number { (number < places) × (places ≤ most_places) }
    requires places { outlets.now.board.places ≡ places }
    requires senders { (port : ℕ) → get nat_cmp senders port
        ≡ option_map (sender_made places number) (get nat_cmp outlets.now.mailboxes port) }
    requires writer { writer ≡ opening_writer outlets.now.board number }
    requires locks { vec_len opened.old.locks + 1 ≤ vec_capacity opened.old.locks }
    requires row { vec_len opened.old.row + 1 ≤ vec_capacity opened.old.row }
    ensures made { OnOk result ((lock : TurnLock _ _) × (pass : Pass _ _ _)
        × (opened.new.locks.items ≡ opened.old.locks.items ++ lock ∷ [])
        × (opened.new.row.items ≡ opened.old.row.items ++ pass ∷ [])
        × IsPassOf label_of (label_at outlets.now number) lock pass × IsFirst (view_of pass)) }
    ensures capacity { (vec_capacity opened.new.locks ≡ vec_capacity opened.old.locks)
        × (vec_capacity opened.new.row ≡ vec_capacity opened.old.row) }
    ensures err { OnErr result ((opened.new.locks.items ≡ opened.old.locks.items)
        × (opened.new.row.items ≡ opened.old.row.items)) }
{
    let stamps = Stamps::new(alloc)?;
    let place = LockedPlace::new(alloc, number, places, senders, writer, stamps);
    match TurnLock::new(alloc, place) {
        Ok((lock, pass)) => {
            opened.locks.push_reserved(lock);
            opened.row.push_reserved(pass);
            Ok(())
        }
        Err(Unmade { state }) => {
            let _left = state.end();
            Err(NoMemory)
        }
    }
}

/// Makes the locks of so many places, with the row that has the whole of each.
pub fn open_places(
    alloc: Global,
    outlets: &Outlets,
    places: u8,
    senders: Vec<Senders>,
    mut writers: Writers,
) -> Result<(Locks, Row), NoMemory>
    requires few { places ≤ most_places }
    requires places { outlets.now.board.places ≡ places }
    requires senders { AreSendersOf places outlets.now.mailboxes senders.items }
    requires writers { AllWriters outlets.now.board writers }
    ensures many { IfOk result (λ made. length made.0.items ≡ places) }
    ensures row { IfOk result
        (λ made. ArePasses label_of (label_at outlets.now) made.0.items made.1.items) }
    ensures first { IfOk result (λ made. AreFirst (map view_of made.1.items)) }
{
    let row = Vec::with_capacity(alloc, usize::from(places))?;
    let locks = Vec::with_capacity(alloc, usize::from(places))?;
    let mut opened = OpenPlaces { locks, row };
    let mut number = 0u8;
    for own in senders {
        let writer = writers.take(number);
        let Ok(()) = open_place(alloc, outlets, number, places, own, writer, &mut opened) else {
            let OpenPlaces { locks, row } = opened;
            close_all(locks, row);
            return Err(NoMemory);
        };
        number += 1;
    }
    let OpenPlaces { locks, row } = opened;
    Ok((locks, row))
}
