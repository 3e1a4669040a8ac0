//! Turns at places of queues, by passes of their locks: packets that move on from turn to turn,
//! messages of ports, ports that close, devices that go down, lines of a listing.
#![tactic(auto)]

mod arrivals;
mod asking;
mod closing;
mod feeding;
mod laws;
mod listing;
mod log;
mod meeting;
mod messages;
mod passes;
mod places;
mod sharing;

pub use feeding::feed;
pub use laws::{passes_begin_and_end_timely, passes_keep_their_parts, passes_stay_balanced};
pub use log::Log;
pub use messages::{message, message_unread};
pub use passes::{Counts, Passes};
pub use places::{Places, Turns};
