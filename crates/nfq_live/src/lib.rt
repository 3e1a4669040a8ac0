//! The run with threads: a script is run over the packets of a capture, with feeders, which share
//! out the frames, and an inspector for each port as threads that share a plane.
//!
//! [`open_plane`] makes the plane of a script. [`run_pools`] opens the script's ports, lets the
//! feeders and the inspectors work beside each other, empties the mailboxes, and does what the ports
//! ask for at the end, which closes those whose script says so. [`run_feeders`] is it without pools
//! of workers behind the ports, and [`run_workers`] with one feeder. Between the parts all passes
//! meet: that is how the order of a run is known of histories that many threads appended to.
#![tactic(auto)]

mod crew;
mod emptying;
mod ending;
mod feeders;
mod opening;
mod run;
mod script_plane;
mod setup;
mod workers;

pub use run::{run_feeders, run_pools, run_workers};
pub use script_plane::open_plane;
