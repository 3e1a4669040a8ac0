//! A journal, read back.

ghost use Rattle.std.specs.Prelude.{◌<◌, ◌-◌, ◌^◌, length};

use histories::Event;
use journal_reading::{JournalFault, read_either_journal};
use std::alloc::Global;

/// How many arrivals a journal of either version tells of; or which line of the text is refused.
pub fn arrivals_in(alloc: Global, text: &[u8]) -> Result<usize, JournalFault>
    requires { length text.now < 2 ^ 32 - 1 }
{
    let histories = read_either_journal(alloc, text)?;
    let mut arrivals: usize = 0;
    for entry in &histories.entries {
        if let Event::Arrive { .. } = &entry.event {
            arrivals = arrivals.saturating_add(1);
        }
    }
    Ok(arrivals)
}
