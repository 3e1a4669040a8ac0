//! What became of each frame of a capture.

ghost use Rattle.std.specs.Prelude.{◌≡◌, ◌<◌, ◌+◌, ◌^◌, length, IfOk};
ghost use Rattle.histories.specs.History.{AreLegal};
ghost use Rattle.fate_ledger.specs.Fates as fates;
ghost use Rattle.fate_ledger.specs.Following as following;

use crate::FateLines;
use crate::followed_queues::FollowedQueues;
use crate::last_lines::LastLines;
use histories::{Entries, Histories};
use packet_entry::NoMemory;
use pcap_io::{Capture, Frames};
use std::alloc::Global;

/// What became of each frame, in the order of the capture: the line of its packet's last event.
///
/// The histories are those of the capture's packets, which are numbered as their frames, from 1.
/// Payloads are shared with them and with the capture, and not copied.
pub fn fates(alloc: Global, capture: &Capture, histories: &Histories) -> Result<FateLines, NoMemory>
    requires frames { length capture.now.frames + 1 < 2 ^ 32 }
    requires legal { AreLegal histories.now.entries }
    ensures lines { IfOk result
        (λ lines. lines ≡ fates.fates histories.now capture.now.frames) }
    ensures one_each { IfOk result (λ lines. length lines ≡ length capture.now.frames) }
{
    let kept = last_lines(alloc, &capture.frames, &histories.entries)?;
    kept.into_lines(alloc, &histories.lost)
}

/// The line of each frame, without regard to packets that were lost.
fn last_lines<'a>(
    alloc: Global,
    frames: &'a Frames,
    entries: &'a Entries,
) -> Result<LastLines<'a>, NoMemory>
    requires few { length frames.now + 1 < 2 ^ 32 }
    requires legal { AreLegal entries.now }
    ensures { IfOk result (λ kept. kept
        ≡ following.lasts (fates.happenings entries.now) 1 frames.now) }
{
    // Fewer than 2^64, so that each place in a history fits its number.
    let _places = entries.len();
    let mut kept = LastLines::new(alloc, frames)?;
    let mut queues = FollowedQueues::new(alloc);
    for entry in entries {
        queues.follow(alloc, entry, &mut kept)?;
    }
    Ok(kept)
}
