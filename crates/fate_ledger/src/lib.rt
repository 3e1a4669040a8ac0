//! What became of each frame of a capture: which event of its packet was the last, the ledger that
//! tells it as text, the counts, and the capture of the frames that were released.
//!
//! [`fates`] reads it off histories, [`ledger_text`] and [`counts_text`] append texts of it, and
//! [`released_capture`] keeps the released frames. A ledger can be written line by line, too
//! ([`append_ledger_heading`], [`append_ledger_line`]). [`journal_text`] appends the histories
//! themselves as text, which [`read_journal`] reads back or refuses with a [`JournalFault`];
//! [`read_old_journal`] reads a text of the format's version 1.
#![tactic(auto)]

mod card_view;
mod counts;
mod fate;
mod fate_lines;
mod followed_queues;
mod following;
mod happening;
mod indexed_list;
mod last_lines;
mod laws;
mod ledger;
mod released;
mod waiting_list;

pub use card_view::CardView;
pub use counts::counts_text;
pub use fate::{Fate, FateLine, FateLines};
pub use fate_lines::fates;
pub use happening::Happening;
pub use journal_reading::{JournalFault, read_journal, read_old_journal};
pub use journals::journal_text;
pub use laws::{
    each_line_names_the_last_event, no_visit_arrives_twice, payloads_were_read_or_given,
    released_frames_are_those_let_go, the_last_event_is_where_it_left_or_waits,
    what_edits_keep_holds_of_each_that_arrives, what_holds_of_packets_stays_so,
    what_left_last_is_over,
};
pub use ledger::{append_ledger_heading, append_ledger_line, ledger_line_room, ledger_text};
pub use released::released_capture;
