//! Journals: what happened at queues and at their ports, as text, a line for each entry and for
//! each thing that a port did.
#![tactic(auto)]

mod appending;
mod digits;
mod fits;
mod line_room;
mod parts;
mod placing;
mod room;
mod version;
mod writing;

pub use appending::{append_number, append_text, append_word};
pub use fits::histories_fit;
pub use line_room::{did_room, entry_room, number_is_short, port_room};
pub use placing::{put_number, put_word};
pub use version::Version;
pub use writing::{
    append_did, append_ending, append_entry, append_heading, append_port, journal_text,
};
