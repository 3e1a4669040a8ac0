//! The snippets of the documents, as functions that are proved and run.
#![tactic(auto)]

mod arrivals;
mod attributes;
mod audits;
mod captures;
mod feeders;
mod flushes;
mod inspection;
mod journal;
mod ledgers;
mod letters;
mod messages;
mod places;
mod queues;
mod reading;
mod routes;
mod scripts;
mod solo;
mod turns;
mod verdicts;

pub use arrivals::arrivals_in;
pub use attributes::answer;
pub use audits::are_sound;
pub use captures::little_endian;
pub use feeders::feed_by_two;
pub use flushes::wait_in_vain;
pub use inspection::accept_all;
pub use journal::journal_of_closing;
pub use ledgers::append_ledger;
pub use letters::two_letters;
pub use messages::errno_of_first;
pub use places::accept_at_place;
pub use queues::accept_one;
pub use reading::bytes_in_frames;
pub use routes::queue_for;
pub use scripts::first_answer;
pub use solo::feed_one;
pub use turns::{Numbers, append};
pub use verdicts::verdict_on;

#[cfg(test)]
mod tests;
