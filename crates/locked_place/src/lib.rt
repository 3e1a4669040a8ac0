//! The queues of one place behind a turn lock, which threads share: what arrives there puts notices
//! into the ports' mailboxes, and each turn shows the place's totals on a board.
#![tactic(auto)]

mod arrivals;
mod gate;
mod laws;
mod outlets;
mod place;
mod requests;
mod showing;
mod stamps;
mod turns;

pub use arrivals::Placed;
pub use gate::{Gate, OpenGate};
pub use laws::{an_entry_is_a_point, senders_keep_up};
pub use outlets::Outlets;
pub use place::{Left, LockedPlace};
pub use stamps::Stamps;
pub use turns::{Entrance, Question, arrive, ask, close_port, device_down, put_lines};
