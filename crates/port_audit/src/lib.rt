//! Finished journals, judged: whether a script made them. Each part of that is decided by a
//! function of its own.
#![tactic(auto)]

mod closing;
mod dealing;
mod kinds;
mod laws;
mod logs;
mod notices;
mod order;
mod ports;
mod queues;
mod requests;
mod room;

pub use closing::are_closings;
pub use dealing::{MessageKind, Rows, Side, push};
pub use kinds::{KindAt, deal_kinds};
pub use laws::logs_tell_what_ports_did;
pub use logs::log_of;
pub use notices::are_notices;
pub use order::are_ordered;
pub use ports::are_ports;
pub use requests::{are_requests, payload_fits};
pub use room::are_roomy;
