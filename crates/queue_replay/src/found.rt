//! What is found of a queue as an entry comes.

ghost use Rattle.std.specs.Prelude.{◌≡◌, ◌≢◌, [], ◌∷◌, OnOk, IfOk};
ghost use Rattle.queue_core.specs.Step as queue_step;
ghost use Rattle.queue_replay.specs.Replays as replays;

use crate::standing::Standing;
use crate::step::is_step;
use histories::Entry;
use packet_entry::{Iter, NoMemory};
use std::alloc::Global;

/// What is found of a queue as an entry comes, and whether the entry is a step of it.
#[derive(Clone, Copy, Debug, PartialEq, Eq)]
pub struct Found {
    /// The port that the queue is bound to.
    pub port: Option<u32>,
    /// How many bytes of a packet the notices of a bound queue tell, under the mode `PACKET`.
    pub range: u16,
    /// How much of a packet the notices of a bound queue tell: the copy mode.
    pub mode: u8,
    /// Whether the entry is a step of the queue.
    pub is_step: bool,
}

/// Makes the step of an entry, and answers what was found. When memory runs out, the state may be
/// any.
pub(crate) fn find(
    queue: &mut Option<Standing>,
    alloc: Global,
    entry: &Entry,
) -> Result<Found, NoMemory>
    ensures found { IfOk result (replays.IsFound queue.old entry.now) }
    ensures state { OnOk result
        (queue.new ≡ (queue_step.step queue.old entry.now.event).state) }
{
    let (port, range, mode) = match queue {
        Some(bound) => (Some(bound.port), bound.range() as u16, bound.mode()),
        None => (None, 0, 0),
    };
    let is_step = is_step(queue, alloc, entry)?;
    Ok(Found {
        port,
        range,
        mode,
        is_step,
    })
}

/// What was found at the next entry, which there is.
pub fn next_found(found: &mut Iter<'_, Found>) -> Found
    requires { found.old ≢ [] }
    ensures { found.old ≡ result ∷ found.new }
{
    let Some(next) = found.next() else {
        unreachable!()
    };
    *next
}
