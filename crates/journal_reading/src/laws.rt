//! Laws of journals and of their lines, each the contract of a function that does nothing. All but
//! one are laws of each version of the format.

ghost use Rattle.std.specs.Prelude.{◌≡◌, ◌⊎◌, ◌↔◌, ◌++◌, ℕ, List, [], Some};
ghost use Rattle.histories.specs.declared.histories.Histories.{Histories};
ghost use Rattle.journal_reading.specs.declared.line.Line.{Line};
ghost use Rattle.journals.specs.declared.version.Version.{Version};
ghost use Rattle.journals.specs.declared.version.Version.TheVariants.{Second};
ghost use Rattle.journals.specs.Journal.{journal};
ghost use Rattle.journal_reading.specs.JournalFile.{IsFirstRefused, IsJournal, version_of};
ghost use Rattle.journal_reading.specs.Lines.{IsLine};
ghost use Rattle.journal_reading.specs.Reading.{line_in};
ghost use Rattle.journals.specs.WellFormed.{IsWellFormed};

use text_lines::{bytes_are_spelled, numbers_are_spelled};

/// What is read of a line is exactly what is written there: the line is the text of what it says,
/// each value fits its field, a request is of its entry's queue, and a reply is of its event's
/// kind.
pub(crate) fn lines_say_what_is_written()
    ensures { (v : Version) (line : List ℕ) (said : Line) →
        (line_in v line ≡ Some said) ↔ IsLine v line said }
{
    numbers_are_spelled();
    bytes_are_spelled();
}

/// A text is the journal of one value at most.
pub fn a_text_has_one_value()
    ensures { (v : Version) (text : List ℕ) (a b : Histories) → IsJournal v text a →
        IsJournal v text b → a ≡ b }
{
    numbers_are_spelled();
    bytes_are_spelled();
}

/// No two values that are well formed have the same journal.
pub fn values_have_journals_of_their_own()
    ensures { (a b : Histories) → IsWellFormed a → IsWellFormed b → journal a ≡ journal b → a ≡ b }
{
    a_text_has_one_value();
}

/// A journal's first line names its version.
pub fn a_journal_names_its_version()
    ensures { (v : Version) (text : List ℕ) (h : Histories) → IsJournal v text h →
        version_of text ≡ v }
{}

/// What a journal of either version tells has a journal of today's version, and where the text is
/// of that version it is the same text.
pub fn each_journal_has_one_of_today()
    ensures new { (v : Version) (text : List ℕ) (h : Histories) → IsJournal v text h →
        IsJournal Second (journal h) h }
    ensures stays { (text : List ℕ) (h : Histories) → IsJournal Second text h →
        journal h ≡ text }
{}

/// No journal begins another one.
pub fn no_journal_begins_another()
    ensures { (v : Version) (text rest : List ℕ) (a b : Histories) → IsJournal v text a →
        IsJournal v (text ++ rest) b → rest ≡ [] }
{
    numbers_are_spelled();
    bytes_are_spelled();
}

/// A journal has no line that is refused.
pub fn no_line_of_a_journal_is_refused()
    ensures { (v : Version) (text : List ℕ) (h : Histories) (line : ℕ) → IsJournal v text h →
        IsFirstRefused v text line → ⊥ }
{}

/// A text has one first line that is refused, if it has any.
pub fn a_text_has_one_refused_line()
    ensures { (v : Version) (text : List ℕ) (a b : ℕ) → IsFirstRefused v text a →
        IsFirstRefused v text b → a ≡ b }
{}

/// Each text is a journal, or has a first line that is refused.
pub fn each_text_is_read_or_refused()
    ensures { (v : Version) (text : List ℕ) → ((h : Histories) × IsJournal v text h)
        ⊎ ((line : ℕ) × IsFirstRefused v text line) }
{
    numbers_are_spelled();
    bytes_are_spelled();
}
