//! Entries that are followed: the arrivals that came, and those that what left a queue asks for.

ghost use Rattle.std.specs.Prelude.{◌≡◌, ◌+◌, ◌&&◌, [], flat_map, IsTrue, OnOk, IfOk};
ghost use Rattle.histories.specs.History as history;
ghost use Rattle.histories.specs.Journeys.{arrival_of, asks, came};
ghost use Rattle.histories.specs.Moves.{moves};
ghost use Rattle.queue_replay.specs.Replays as replays;
ghost use Rattle.journey_audit.specs.Following as following;
ghost use Rattle.journey_audit.specs.Tallying as tallying;

use crate::arrival::{Arrival, asked_by_some};
use crate::tally::{Tallies, note_asked, note_came};
use histories::{Entries, Entry, Event, an_entry_is_a_move};
use hook_chain::{Decision, Tables, onward_card};
use packet_entry::{Card, NoMemory};
use queue_replay::{Leavers, Replayed};
use std::alloc::Global;

/// Replays these entries. As long as each is a step of its queue, notes which arrivals came in
/// them, and which were asked for by what left.
pub(crate) fn follow_all(
    alloc: Global,
    tables: &Tables,
    key: u32,
    entries: &Entries,
    tallies: &mut Tallies,
) -> Result<Replayed, NoMemory>
    ensures replayed { IfOk result (replays.IsReplayOf entries.now) }
    ensures grows { OnOk result (history.AreLegal entries.now →
        tallying.Grows tallies.old tallies.new (flat_map came (moves entries.now))
        (flat_map (asks tables.now key) (moves entries.now))) }
{
    an_entry_is_a_move();
    let mut replayed = Replayed::new(alloc);
    let mut is_legal = true;
    for entry in entries {
        let leavers = replayed.going_on(alloc, entry)?;
        let is_step = replayed.replay(alloc, entry)?;
        is_legal = stays_legal(is_legal, is_step);
        note(is_legal, alloc, tables, key, entry, leavers, tallies)?;
    }
    Ok(replayed)
}

/// Whether all entries so far are steps, with one more.
fn stays_legal(is_legal: bool, is_step: bool) -> bool
    ensures { result ≡ (is_legal && is_step) }
{
    is_legal && is_step
}

/// Notes the arrival that an entry is, if it is one, and what these packets ask for that go on.
/// Where not all entries so far are steps it doesn't matter, and their numbers may be any.
fn note(
    is_legal: bool,
    alloc: Global,
    tables: &Tables,
    key: u32,
    entry: &Entry,
    leavers: Leavers,
    tallies: &mut Tallies,
) -> Result<(), NoMemory>
    ensures { OnOk result (IsTrue is_legal → tallying.Grows tallies.old tallies.new
        (arrival_of entry.now.queue entry.now.event)
        (flat_map (following.asked_after tables.now key) leavers.items)) }
{
    if !is_legal {
        return Ok(());
    }
    arrive(alloc, entry, tallies)?;
    all_ask(alloc, tables, key, leavers, tallies)?;
    Ok(())
}

/// Notes the arrival that an entry is, if it is one.
#[tactic(auto, using(crate::proofs::Tallies::grows_came, crate::proofs::Tallies::grows_by_none))]
fn arrive(alloc: Global, entry: &Entry, tallies: &mut Tallies) -> Result<(), NoMemory>
    ensures { OnOk result (tallying.Grows tallies.old tallies.new
        (arrival_of entry.now.queue entry.now.event) []) }
{
    match &entry.event {
        Event::Arrive { card, bypass, .. } => {
            let arrival = Arrival {
                queue: entry.queue,
                card: card.share()?,
                bypass: *bypass,
            };
            note_came(alloc, arrival, tallies)?;
            Ok(())
        }
        Event::Ask { .. } => Ok(()),
        Event::PortClosed { .. } => Ok(()),
        Event::DeviceDown { .. } => Ok(()),
    }
}

/// Notes what packets ask for that go on.
fn all_ask(
    alloc: Global,
    tables: &Tables,
    key: u32,
    leavers: Leavers,
    tallies: &mut Tallies,
) -> Result<(), NoMemory>
    ensures { OnOk result (tallying.Grows tallies.old tallies.new []
        (flat_map (following.asked_after tables.now key) leavers.items)) }
{
    for (card, decision) in leavers {
        ask(alloc, tables, key, card, decision, tallies)?;
    }
    Ok(())
}

/// Notes what a packet asks for that goes on by this decision.
fn ask(
    alloc: Global,
    tables: &Tables,
    key: u32,
    card: Card,
    decision: Decision,
    tallies: &mut Tallies,
) -> Result<(), NoMemory>
    ensures { OnOk result (tallying.Grows tallies.old tallies.new []
        (following.asked_after tables.now key (card, decision))) }
{
    let next = onward_card(tables, key, &card, &decision);
    let visit = next_visit(card.visit)?;
    note_asked(alloc, asked_by_some(next, card, visit), tallies)?;
    Ok(())
}

/// The visit after this one, which is there: visits of legal histories are 33 at most.
fn next_visit(visit: u32) -> Result<u32, NoMemory>
    ensures { IfOk result (λ next. next ≡ visit + 1) }
{
    visit.checked_add(1).ok_or(NoMemory)
}
