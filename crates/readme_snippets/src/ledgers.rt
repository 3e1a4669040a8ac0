//! What became of the frames of a capture.

ghost use Rattle.std.specs.Prelude.{◌≡◌, ◌<◌, ◌+◌, ◌++◌, ◌^◌, length, OnOk};
ghost use Rattle.histories.specs.History.{AreLegal};
ghost use Rattle.fate_ledger.specs.Fates as fates;
ghost use Rattle.fate_ledger.specs.Ledger.{ledger};

use fate_ledger::{fates, ledger_text};
use histories::Histories;
use packet_entry::NoMemory;
use pcap_io::Capture;
use std::alloc::Global;

/// Appends the ledger of a capture's frames, by what happened to their packets: how many of them
/// were released.
pub fn append_ledger(
    alloc: Global,
    capture: &Capture,
    histories: &Histories,
    out: &mut Vec<u8>,
) -> Result<usize, NoMemory>
    requires frames { length capture.now.frames + 1 < 2 ^ 32 }
    requires legal { AreLegal histories.now.entries }
    ensures { OnOk result (out.new.items
        ≡ out.old.items ++ ledger (fates.fates histories.now capture.now.frames)) }
{
    let lines = fates(alloc, capture, histories)?;
    ledger_text(alloc, &lines, out)?;
    let mut released: usize = 0;
    for line in &lines {
        if line.fate.is_release() {
            released = released.saturating_add(1);
        }
    }
    Ok(released)
}
