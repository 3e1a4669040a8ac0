//! How many frames have each fate, as text.

ghost use Rattle.std.specs.Prelude.{◌≡◌, ◌<◌, ◌++◌, ◌+◌, ◌^◌, OnOk, OnErr, length};
ghost use Rattle.std.specs.Prelude.{slice_index, slice_set};
ghost use Rattle.fate_ledger.specs.Counts as text;

use crate::{Fate, FateLines};
use journals::{append_number, append_text, append_word};
use packet_entry::NoMemory;
use std::alloc::{AllocError, Global};

/// The fates, in the order of their counts, which is that of [`Fate`].
const FATES: [Fate; 17] = [
    Fate::Unhooked,
    Fate::Accept,
    Fate::Stop,
    Fate::Repeat,
    Fate::FailOpen,
    Fate::Bypass,
    Fate::Dropped,
    Fate::Overflow,
    Fate::UserFull,
    Fate::NoQueue,
    Fate::CopyNone,
    Fate::Loop,
    Fate::Unbind,
    Fate::PortClosed,
    Fate::DeviceDown,
    Fate::Waiting,
    Fate::NoMemory,
];

/// Appends a line `FATE COUNT` for each fate that a line has, in the order of [`Fate`]. Out of
/// memory nothing has changed.
pub fn counts_text(alloc: Global, lines: &FateLines, out: &mut Vec<u8>) -> Result<(), NoMemory>
    ensures ok { OnOk result (out.new.items ≡ out.old.items ++ text.counts lines.now) }
    ensures err { OnErr result (out.new.items ≡ out.old.items) }
{
    let mut counts = Vec::new(alloc);
    push_counts(&FATES, &counted(lines), &mut counts)?;
    append_text(counts, out)
}

/// How many lines have each fate, in the order of [`Fate`].
fn counted(lines: &FateLines) -> [usize; 17]
    ensures { result ≡ text.counted lines.now }
{
    // Fewer than 2^64, so that each count fits its number.
    let _lines = lines.len();
    let mut counts = [0; 17];
    for line in lines {
        count(&mut counts, line.fate);
    }
    counts
}

/// One more has this fate.
fn count(counts: &mut [usize; 17], fate: Fate)
    requires few { slice_index counts.old (text.place fate) + 1 < 2 ^ 64 }
    ensures { counts.new ≡ slice_set counts.old (text.place fate)
        (slice_index counts.old (text.place fate) + 1) }
{
    counts[place(fate)] += 1;
}

/// Where the count of a fate stands, from 0 on.
fn place(fate: Fate) -> usize
    ensures within { result < 17 }
    ensures place { result ≡ text.place fate }
{
    fate as usize
}

/// Appends the lines of fates with their counts.
fn push_counts(fates: &[Fate], counts: &[usize], out: &mut Vec<u8>) -> Result<(), AllocError>
    requires { length counts.now ≡ length fates.now }
    ensures { OnOk result (out.new.items
        ≡ out.old.items ++ text.lines_of fates.now counts.now) }
{
    for place in 0..fates.len() {
        push_count(fates[place], counts[place], out)?;
    }
    Ok(())
}

fn push_count(fate: Fate, count: usize, out: &mut Vec<u8>) -> Result<(), AllocError>
    ensures { OnOk result (out.new.items
        ≡ out.old.items ++ text.count_line fate count) }
{
    if count == 0 {
        return Ok(());
    }
    append_word(fate.name(), out)?;
    append_number(" ", count as u64, out)?;
    append_word("\n", out)
}
