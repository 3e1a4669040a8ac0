//! The kinds of a port's messages, dealt into rows.

ghost use Rattle.std.specs.Prelude.{OnOk};
ghost use Rattle.port_audit.specs.Dealing as dealing;
ghost use Rattle.port_audit.specs.Kinds as kinds;

use crate::dealing::{MessageKind, Rows, Side, push};
use packet_entry::NoMemory;
use std::alloc::Global;

/// A request of a port: the queue that it asks something of, and when it was sent.
#[derive(Clone, Copy, Debug, PartialEq, Eq)]
pub struct KindAt {
    /// The queue's number.
    pub queue: u16,
    /// When it was sent.
    pub kind: MessageKind,
}

/// The kinds of a port's requests are put at the ends of the port's rows. When memory runs out, the
/// rows may be any.
pub fn deal_kinds(
    alloc: Global,
    port: u32,
    requests: &[KindAt],
    rows: &mut Rows<MessageKind>,
) -> Result<(), NoMemory>
    ensures grows { OnOk result (dealing.GrowsBy port
        (λ queue. kinds.kinds_in queue requests.now) rows.old rows.new) }
    ensures kept { OnOk result (dealing.AreKept rows.old → dealing.AreKept rows.new) }
{
    for request in requests {
        deal_kind(alloc, port, *request, rows)?;
    }
    Ok(())
}

/// The kind of a request is put at the end of its row.
fn deal_kind(
    alloc: Global,
    port: u32,
    request: KindAt,
    rows: &mut Rows<MessageKind>,
) -> Result<(), NoMemory>
    ensures grows { OnOk result (dealing.GrowsBy port
        (λ queue. kinds.kinds_by queue request) rows.old rows.new) }
    ensures kept { OnOk result (dealing.AreKept rows.old → dealing.AreKept rows.new) }
{
    let side = Side {
        port,
        queue: request.queue,
    };
    push(alloc, side, request.kind, rows)
}
