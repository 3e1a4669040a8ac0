//! Whether packets went from queue to queue as they had to.

ghost use Rattle.std.specs.Prelude.{◌≡◌, ◌↔◌, ◌+◌, ◌^◌, ◌<◌, [], None, length, IfOk};
ghost use Rattle.run_parts.specs.Entering.{cards};
ghost use Rattle.histories.specs.History as history;
ghost use Rattle.histories.specs.Journeys.{AreSound};
ghost use Rattle.queue_replay.specs.Replays.{IsReplayOf};
ghost use Rattle.journey_audit.specs.Unmet as judged;

use crate::entering::all_enter;
use crate::following::follow_all;
use crate::tally::first_uneven;
use histories::Histories;
use hook_chain::Tables;
use packet_entry::NoMemory;
use pcap_io::Capture;
use queue_replay::Replayed;
use std::alloc::Global;
use std::collections::BTreeMap;

/// Whether the histories are sound for these tables and the packets of this capture, with nothing
/// lost: `None` exactly where they are. Otherwise the least number of a packet of which not just
/// those arrivals came that were asked for, each as often.
///
/// The entries may stand in any order of their queues. `NoMemory` comes only where memory runs out.
pub fn check_journeys(
    alloc: Global,
    tables: &Tables,
    key: u32,
    capture: &Capture,
    histories: &Histories,
) -> Result<Option<u32>, NoMemory>
    requires frames { length capture.now.frames + 1 < 2 ^ 32 }
    requires legal { history.AreLegal histories.now.entries }
    ensures least { IfOk result (judged.IsLeastOf tables.now key (cards capture.now)
        histories.now.entries) }
    ensures none { IfOk result (λ number. (number ≡ None)
        ↔ AreSound tables.now key (cards capture.now) histories.now.entries []) }
{
    let followed = follow_journeys(alloc, tables, key, capture, histories)?;
    Ok(followed.unmet)
}

/// Histories that were followed.
#[derive(Drop)]
pub struct Followed {
    /// They are replayed.
    pub replayed: Replayed,
    /// Of legal histories the answer of [`check_journeys`]; of others any.
    pub unmet: Option<u32>,
}

/// Replays histories, and checks the journeys of legal ones on the way, as [`check_journeys`].
///
/// The entries may stand in any order of their queues. `NoMemory` comes only where memory runs out,
/// or 2^32 packets wait at one queue.
pub fn follow_journeys(
    alloc: Global,
    tables: &Tables,
    key: u32,
    capture: &Capture,
    histories: &Histories,
) -> Result<Followed, NoMemory>
    requires { length capture.now.frames + 1 < 2 ^ 32 }
    ensures replayed { IfOk result (λ followed.
        IsReplayOf histories.now.entries followed.replayed) }
    ensures least { IfOk result (λ followed. history.AreLegal histories.now.entries →
        judged.IsLeastOf tables.now key (cards capture.now) histories.now.entries
        followed.unmet) }
    ensures none { IfOk result (λ followed. history.AreLegal histories.now.entries →
        ((followed.unmet ≡ None)
        ↔ AreSound tables.now key (cards capture.now) histories.now.entries [])) }
{
    let mut tallies = BTreeMap::new(alloc);
    all_enter(alloc, tables, key, capture, &mut tallies)?;
    let replayed = follow_all(alloc, tables, key, &histories.entries, &mut tallies)?;
    let unmet = first_uneven(tallies);
    Ok(Followed { replayed, unmet })
}
