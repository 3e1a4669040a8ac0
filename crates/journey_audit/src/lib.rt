//! Finished journals, judged: whether packets went from queue to queue as their routes and verdicts
//! say.
//!
//! [`check_journeys`] tallies the arrivals of each packet, those that came and those that were
//! asked for, and names the least number of a packet of which they differ.
#![tactic(auto)]

mod arrival;
mod entering;
mod following;
mod tally;
mod unmet;

pub use unmet::{Followed, check_journeys, follow_journeys};
