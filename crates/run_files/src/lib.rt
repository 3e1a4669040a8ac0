//! The files of a run: its inputs are read whole and tested, in the order rules, script, capture,
//! and its outputs are written part by part.
//!
//! [`read_inputs`] answers what a run is made from, or a [`Stop`]: why the command ends before its
//! end, with its exit status ([`status`]). A [`Refusal`] has the line that is printed of it.
//! [`read_journal_file`] answers the histories that a journal of either version tells, and
//! [`read_told_run`] what a run is made from with those of its journal, of version 2.
//! [`outputs_of`] takes all memory that the writing of the outputs wants, so that none is taken
//! once a file has been opened.
#![tactic(auto)]

mod capture_file;
mod inputs;
mod journal_file;
mod journal_lines;
mod journal_room;
mod ledger_file;
mod line;
mod line_room;
mod line_writing;
mod old_journal;
mod outputs;
mod part_writing;
mod printing;
mod refusal;
pub mod status;
mod stop;
mod told_run;

pub use capture_file::CaptureFile;
pub use inputs::{Made, read_inputs};
pub use journal_file::JournalFile;
pub use ledger_file::LedgerFile;
pub use old_journal::read_journal_file;
pub use outputs::{Outputs, outputs_of};
pub use printing::{STANDARD_OUTPUT, print, print_usage};
pub use refusal::{Limit, Refusal};
pub use stop::Stop;
pub use told_run::{ToldRun, read_told_run};
