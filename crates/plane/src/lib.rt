//! Packets routed, queued, told of, answered and moved on, by threads that share places of queues,
//! each behind a turn lock of its own.
#![tactic(auto)]

mod feeders;
mod finish;
mod laws;
mod listing;
mod meeting;
mod opened;
mod past;
mod plane;
mod port;

pub use laws::parts_stay_whole;
pub use locked_place::{Gate, OpenGate};
pub use opened::{ClosedPorts, Opened, PortPasses};
pub use packet_moves::{Fed, Refused};
pub use place_turns::passes_stay_balanced;
pub use plane::Plane;
pub use port::{Closed, ClosedPort, FeederPass, Open, Port, PortPass, PortState};
