//! Queues' histories, replayed over cards.
//!
//! [`Replayed`] goes over entries: it keeps the states of their queues, and of each entry what was
//! found at its queue, whether the entry is a step of it, and which packets left
//! ([`Replayed::left_at`]). [`Replayed::going_on`] tells which of them go on. A journal's cards may
//! be no packet's, so no [`Queue`](queue_core::Queue) runs here.
#![tactic(auto)]

mod arrivals;
mod departed;
mod found;
mod going;
mod leaving;
mod replayed;
mod requests;
mod standing;
mod step;
mod waiting_list;

pub use departed::Departed;
pub use found::{Found, next_found};
pub use going::Leavers;
pub use replayed::{Queues, Replayed, port_at, replay_all};
pub use requests::port_of;
pub use standing::Standing;
