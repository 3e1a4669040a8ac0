//! Histories, judged.

ghost use Rattle.std.specs.Prelude.{◌<◌, ◌+◌, ◌^◌, [], length, IfOk, IsTrue};
ghost use Rattle.histories.specs.Journeys.{AreSound};
ghost use Rattle.run_parts.specs.Entering.{cards};

use histories::Histories;
use hook_chain::Tables;
use journal_audit::{check_histories, check_journeys};
use packet_entry::NoMemory;
use pcap_io::Capture;
use std::alloc::Global;

/// Whether histories are legal at each queue, and the packets of this capture went from queue to
/// queue as these rules and their verdicts say.
pub fn are_sound(
    alloc: Global,
    tables: &Tables,
    key: u32,
    capture: &Capture,
    histories: &Histories,
) -> Result<bool, NoMemory>
    requires { length capture.now.frames + 1 < 2 ^ 32 }
    ensures { IfOk result (λ sound. IsTrue sound →
        AreSound tables.now key (cards capture.now) histories.now.entries []) }
{
    match check_histories(alloc, histories)? {
        Some(_illegal) => Ok(false),
        None => {
            let unmet = check_journeys(alloc, tables, key, capture, histories)?;
            Ok(unmet.is_none())
        }
    }
}
