//! Packets routed, queued, told of, answered and moved on, on one thread: one place of queues, and
//! a mailbox and a log for each port.
#![tactic(auto)]

mod arrivals;
mod asking;
mod closing;
mod endings;
mod feeding;
mod held;
mod mailbox;
mod messages;
mod numbers;
mod opening;
mod plane;
mod port;
mod ports;

pub use packet_moves::{
    Fed, Refused, histories_stay_sound, only_feeding_feeds, what_goes_on_is_in_time,
    words_are_the_one_spelling,
};
pub use plane::SoloPlane;
