//! Totals of places, which anyone with a pass reads without a lock: each place's one Writer
//! publishes, and who reads never reads anything older than it read before.
#![tactic(auto)]

mod board;
mod laws;
mod pass;
mod steps;
mod totals;
mod view;
mod writer;

pub use board::Board;
pub use laws::{readings_were_published, totals_stand_in_one_word};
pub use pass::GlancePass;
pub use totals::Totals;
pub use writer::{Writer, Writers};
