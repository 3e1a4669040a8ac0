//! What each thread of a run does by its own pass: a feeder feeds the frames of its share and lets
//! devices go down, an inspector receives notices and answers them.
//!
//! [`Feeding::work`] is the feeder's work, [`inspect`] an inspector's. [`look`], [`say_all`] and
//! [`take_down_after`] are steps of them, for who does both alone. Each says what its pass did,
//! whatever others do beside it.
#![tactic(auto)]

mod activity;
mod feeding;
mod looking;
mod mind;
mod pause;
mod pool;
mod pooling;
mod sending;

pub use activity::Activity;
pub use feeder_set::Stage;
pub use feeding::{Feeding, take_down_after};
pub use looking::{inspect, look};
pub use mind::{Mind, minds};
pub use pause::Pause;
pub use pool::Pool;
pub use pooling::inspect_by_pool;
pub use sending::say_all;
