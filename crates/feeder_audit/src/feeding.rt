//! All queues' histories, gone over.

ghost use Rattle.std.specs.Prelude.{◌≡◌, ◌<◌, ◌↔◌, [], Option, length, IsTrue, OnOk, IfOk};
ghost use Rattle.std.specs.BTreeMap.{get};
ghost use Rattle.std.specs.Ordering.{nat_cmp};
ghost use Rattle.queue_core.specs.State.{Bound};
ghost use Rattle.histories.specs.History as history;
ghost use Rattle.histories.specs.Numbers.{queue_count};
ghost use Rattle.run_parts.specs.Run.{FeederHolds};
ghost use Rattle.queue_replay.specs.Replays as replays;
ghost use Rattle.feeder_audit.specs.Fitting as fitting;
ghost use Rattle.feeder_audit.specs.Queues as kept;

use crate::fed::Fed;
use crate::lines::downs_in_effect;
use histories::{Entries, Entry, Histories};
use inspector_script::Script;
use packet_entry::{NoMemory, Sequence};
use pcap_io::Capture;
use queue_replay::{Found, Queues, Replayed, next_found, port_at};
use run_parts::one_feeder_feeds_all;
use script_lines::Down;
use std::alloc::Global;
use std::collections::BTreeMap;

/// Histories by the queue's number; those without an entry aren't kept.
type Feds = BTreeMap<u16, Fed>;

/// Whether each queue's history was fed by one feeder with the frames of this capture, and with the
/// `down` lines of this script.
///
/// The entries may stand in any order of their queues. `NoMemory` comes only where memory runs out.
pub fn is_fed(
    alloc: Global,
    script: &Script,
    capture: &Capture,
    histories: &Histories,
    replayed: &Replayed,
) -> Result<bool, NoMemory>
    requires legal { history.AreLegal histories.now.entries }
    requires replayed { replays.IsReplayOf histories.now.entries replayed.now }
    ensures { IfOk result (λ is. IsTrue is
        ↔ FeederHolds 1 script.now (length capture.now.frames) histories.now) }
{
    one_feeder_feeds_all();
    let downs = downs_in_effect(alloc, script, capture.frames.len())?;
    let feds = follow_all(alloc, &downs, &histories.entries, &replayed.found)?;
    Ok(are_whole(&downs, &replayed.queues, feds))
}

/// Goes over all entries. It is given what was found at each.
fn follow_all(
    alloc: Global,
    downs: &[Down],
    entries: &Entries,
    found: &Sequence<Found>,
) -> Result<Feds, NoMemory>
    requires legal { history.AreLegal entries.now }
    requires lines { fitting.Rises 0 downs.now }
    requires found { replays.AreFound [] entries.now found.now }
    ensures { IfOk result (kept.AreGoneOver downs.now entries.now) }
{
    let mut found = found.iter();
    let mut feds = BTreeMap::new(alloc);
    for entry in entries {
        number_is_short(entry.queue);
        let here = next_found(&mut found);
        follow(alloc, downs, here, entry, &mut feds)?;
    }
    Ok(feds)
}

/// A queue's number is of 16 bits.
fn number_is_short(queue: u16)
    ensures { queue < queue_count }
{}

/// Goes over the next entry of all, which is a step of its queue. This was found there.
fn follow(
    alloc: Global,
    downs: &[Down],
    here: Found,
    entry: &Entry,
    feds: &mut Feds,
) -> Result<(), NoMemory>
    requires lines { fitting.Rises 0 downs.now }
    requires kept { kept.IsKeptIn downs.now (get nat_cmp feds.old entry.now.queue) }
    ensures { OnOk result ((queue : Option Bound) → here.port ≡ replays.port_in queue →
        history.IsStep queue entry.now →
        kept.FollowsIn downs.now queue feds.old feds.new entry.now) }
{
    if !feds.contains_key(&entry.queue) {
        feds.insert(entry.queue, Fed::new())?;
    }
    let Some(fed) = feds.get_mut(&entry.queue) else {
        unreachable!()
    };
    fed.follow(alloc, downs, here, entry)
}

/// Whether all lines can be put into each history, where they leave the queues like this.
fn are_whole(downs: &[Down], queues: &Queues, feds: Feds) -> bool
    requires { kept.AreKept downs.now feds }
    ensures { IsTrue result ↔ kept.AreWhole downs.now (kept.state_in queues.now) feds }
{
    for (queue, fed) in feds {
        if !fed.is_whole(port_at(queues, queue), downs) {
            return false;
        }
    }
    true
}
