//! From a journal's text to histories.

ghost use Rattle.std.specs.Prelude.{◌≡◌, ◌++◌, ◌<◌, ◌-◌, ◌^◌, ℕ, Err, IfOk, length};
ghost use Rattle.histories.specs.declared.histories.Histories as value;
ghost use Rattle.journals.specs.declared.version.Version.TheVariants.{First, Second};
ghost use Rattle.journals.specs.Format.{heading};
ghost use Rattle.journal_reading.specs.declared.fault.JournalFault.TheVariants as fault;
ghost use Rattle.journal_reading.specs.JournalFile.{Answers, Closes, IsAnswer, IsFirstRefused};
ghost use Rattle.journal_reading.specs.JournalFile.{IsJournal};
ghost use Rattle.journal_reading.specs.JournalFile.{IsRefusedAt, place_of, version_of};

use crate::fault::JournalFault;
use crate::line_reading::is_title;
use crate::reader::Reader;
use histories::Histories;
use journals::Version;
use packet_entry::NoMemory;
use std::alloc::Global;
use text_lines::{bytes_are_spelled, cut, numbers_are_spelled};

/// The byte that ends a line.
const LINE_FEED: u8 = b'\n';

/// The histories whose journal a text is, in version 2 of the format: they are well formed, and the
/// text is exactly what [`journal_text`](crate::journal_text) writes of them.
///
/// `Bad` comes only where there are none, and there it comes unless memory runs out: with the first
/// line at whose end the text no longer begins a journal, or with the number of line ends plus 1
/// where the text ends too early. `NoMemory` comes when out of memory. The lines are read one after
/// the other, each once.
pub fn read_journal(alloc: Global, bytes: &[u8]) -> Result<Histories, JournalFault>
    requires { length bytes.now < 2 ^ 32 - 1 }

    // What is read is what the text is a journal of, and a journal is read, unless memory runs out.
    ensures found { IfOk result (IsJournal Second bytes.now) }
    ensures only { (h : value.Histories) → IsJournal Second bytes.now h → Answers result h }

    // What is refused is no journal, and is refused at the first line that can't stand in one, or
    // at the one that is missing at the end. What has such a line is refused there, unless memory
    // runs out.
    ensures refused { (line : ℕ) → result ≡ Err (fault.Bad line) →
        IsFirstRefused Second bytes.now line }
    ensures stuck { (line : ℕ) → IsFirstRefused Second bytes.now line → IsRefusedAt result line }
{
    read_text(alloc, Version::Second, bytes)
}

/// The same of version 1, which tells no priorities: the cards of these histories have priority 0,
/// and their requests set none. A text of version 2 is refused at line 1.
pub fn read_old_journal(alloc: Global, bytes: &[u8]) -> Result<Histories, JournalFault>
    requires { length bytes.now < 2 ^ 32 - 1 }
    ensures found { IfOk result (IsJournal First bytes.now) }
    ensures only { (h : value.Histories) → IsJournal First bytes.now h → Answers result h }
    ensures refused { (line : ℕ) → result ≡ Err (fault.Bad line) →
        IsFirstRefused First bytes.now line }
    ensures stuck { (line : ℕ) → IsFirstRefused First bytes.now line → IsRefusedAt result line }
{
    read_text(alloc, Version::First, bytes)
}

/// The same of the version that the text's first line names, of version 1 where it names neither.
pub fn read_either_journal(alloc: Global, bytes: &[u8]) -> Result<Histories, JournalFault>
    requires { length bytes.now < 2 ^ 32 - 1 }
    ensures found { IfOk result (IsJournal (version_of bytes.now) bytes.now) }
    ensures only { (h : value.Histories) → IsJournal (version_of bytes.now) bytes.now h →
        Answers result h }
    ensures refused { (line : ℕ) → result ≡ Err (fault.Bad line) →
        IsFirstRefused (version_of bytes.now) bytes.now line }
    ensures stuck { (line : ℕ) → IsFirstRefused (version_of bytes.now) bytes.now line →
        IsRefusedAt result line }
{
    read_text(alloc, version_named(bytes), bytes)
}

/// The version that the first line names; version 1 where it names neither.
fn version_named(bytes: &[u8]) -> Version
    ensures { result ≡ version_of bytes.now }
{
    match cut(bytes, LINE_FEED) {
        Some((line, _)) if is_title(Version::Second, line) => Version::Second,
        Some(_) | None => Version::First,
    }
}

/// Reads a journal of this version: its heading, and what stands behind it.
fn read_text(alloc: Global, version: Version, bytes: &[u8]) -> Result<Histories, JournalFault>
    requires { length bytes.now < 2 ^ 32 - 1 }
    ensures { IsAnswer version result bytes.now }
{
    match cut(bytes, LINE_FEED) {
        Some((line, rest)) => {
            if is_title(version, line) {
                read_lines(alloc, version, bytes, rest)
            } else {
                Err(JournalFault::Bad { line: 1 })
            }
        }
        None => Err(JournalFault::Bad { line: 1 }),
    }
}

/// Reads line after line, behind the heading.
fn read_lines(
    alloc: Global,
    version: Version,
    bytes: &[u8],
    first: &[u8],
) -> Result<Histories, JournalFault>
    requires few { length bytes.now < 2 ^ 32 - 1 }
    requires heading { bytes.now ≡ heading version ++ first.now }
    ensures { IsAnswer version result bytes.now }
{
    numbers_are_spelled();
    bytes_are_spelled();
    let mut reader = Reader::new(alloc);
    let mut rest = first;
    let mut line_number: u32 = 2;
    while let Some((line, later)) = cut(rest, LINE_FEED) {
        match reader.read(alloc, version, line) {
            Err(stop) => return Err(JournalFault::at(stop, line_number)),
            Ok(true) => return finish(alloc, reader, later, line_number),
            Ok(false) => {}
        }
        rest = later;
        line_number += 1;
    }
    Err(JournalFault::Bad { line: line_number })
}

/// The histories of a text whose line `end` is this one, where nothing stands behind it.
fn finish(
    alloc: Global,
    reader: Reader,
    behind: &[u8],
    line_number: u32,
) -> Result<Histories, JournalFault>
    requires { line_number < 2 ^ 32 - 1 }
    ensures { Closes result (place_of reader) behind.now line_number }
{
    if !behind.is_empty() {
        return Err(JournalFault::Bad {
            line: line_number + 1,
        });
    }
    match reader.finish(alloc) {
        Ok(histories) => Ok(histories),
        Err(NoMemory) => Err(JournalFault::NoMemory),
    }
}
