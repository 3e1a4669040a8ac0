//! Journals read back: the histories that a text is the journal of, or the first line that is
//! refused; and that a journal belongs to one value of histories.
#![tactic(auto)]

mod fault;
mod fields;
mod laws;
mod line;
mod line_reading;
mod reader;
mod reading;
mod request_reading;

pub use fault::JournalFault;
pub use laws::{
    a_journal_names_its_version, a_text_has_one_refused_line, a_text_has_one_value,
    each_journal_has_one_of_today, each_text_is_read_or_refused, no_journal_begins_another,
    no_line_of_a_journal_is_refused, values_have_journals_of_their_own,
};
pub use reading::{read_either_journal, read_journal, read_old_journal};
