//! Finished journals, judged: whether frames were fed and devices went down as a script says.
//!
//! [`is_fed`] goes over each queue's history once. It keeps to how many `down` lines the history so
//! far can have been put: a line may be met by an absent queue or by an entry, so a greedy choice
//! would be wrong.
#![tactic(auto)]

mod fed;
mod feeding;
mod lines;
mod ways;

pub use feeding::is_fed;
