//! What lies in a slot of a desk: a notice, and what is asked for in answer once that is known.
ghost use Rattle.std.specs.Prelude.{◌≡◌, ◌%◌, IfOk, IfSome, IsTrue};

use counted_slot::{Claim, Counted, Fits, TAKEN};
use inspector_script::Script;
use nfqa_msgs::Notice;
use packet_entry::{NoMemory, same_bytes};
use script_lines::Asks;
use std::snapshot::Snapshot;

/// The port that answers: which of the script's ports it is, counted from 0.
#[derive(Drop)]
pub(crate) struct AnsweringPort {
    pub(crate) script: Snapshot<Script>,
    pub(crate) place: u32,
}

/// A notice, and what is asked for in answer once that is known.
#[derive(Drop)]
pub(crate) struct Sheet {
    /// The number of the job among those of its batch.
    pub(crate) job: u32,
    /// How many notices the port counted before this one.
    pub(crate) counted: u32,
    pub(crate) notice: Notice,
    pub(crate) answer: Option<Asks>,
}

impl Fits for Sheet {
    ghost use Rattle.inspector_pool.specs.Desks.{IsSheetOf};

    type Tag = AnsweringPort;

    ghost fits = { IsSheetOf };
}

/// One slot of a desk. The upper half of its word says what lies there.
pub(crate) type Slot = Counted<Option<Sheet>>;

/// Nothing lies there.
pub(crate) const BLANK: u64 = 0;

/// A notice lies there, and nobody has taken it up.
pub(crate) const LAID: u64 = 1 << 32;

/// Somebody has taken the notice up.
pub(crate) const TAKEN_UP: u64 = 2 << 32;

/// The notice lies there with what is asked for in answer.
pub(crate) const ANSWERED: u64 = 3 << 32;

/// The right to write in a slot, if its word is this one.
pub(crate) fn claimed(slot: &Slot, word: u64) -> Option<Claim<'_, Option<Sheet>>>
    requires { word % 4 ≡ 0 }
    ensures { IfSome result (λ claim. (claim.right ≡ 2) × (claim.tag ≡ slot.now)) }
{
    let (found, claim) = slot.turn(word, TAKEN);
    if found == word {
        Some(claim)
    } else {
        claim.done();
        None
    }
}

/// The same notice once more. Its payload is shared.
pub(crate) fn copied(notice: &Notice) -> Result<Notice, NoMemory>
    ensures { IfOk result (λ copy. copy ≡ notice.now) }
{
    Ok(Notice {
        queue: notice.queue,
        id: notice.id,
        protocol: notice.protocol,
        mark: notice.mark,
        priority: notice.priority,
        length: notice.length,
        payload: notice.payload.share()?,
    })
}

/// Whether two notices tell the same.
pub(crate) fn are_same(a: &Notice, b: &Notice) -> bool
    ensures { IsTrue result → a.now ≡ b.now }
{
    a.queue == b.queue
        && a.id == b.id
        && a.protocol == b.protocol
        && a.mark == b.mark
        && a.priority == b.priority
        && a.length == b.length
        && same_bytes(a.payload.as_slice(), b.payload.as_slice())
}
