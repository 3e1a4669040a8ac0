//! The run on one thread: a script is run over the packets of a capture.
//!
//! [`solo`] opens the script's ports, feeds the frames to a plane one after the other, lets the
//! inspectors behind the ports answer their notices, and does what the ports ask for at the end,
//! which closes those whose script says so: step by step as the schedule of one thread says.
//! [`list_before_ends`] stops before the ports end, and lists the queues.
#![tactic(auto)]

mod between;
mod inspector;
mod one_thread;
mod parts;
mod rounds;
mod run;
mod sending;

pub use one_thread::{list_before_ends, solo};
