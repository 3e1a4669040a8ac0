//! The commands of `nfq`. `play` reads rules, a script and a capture, runs the packets of the
//! capture through the queues on one thread, and writes the released frames, a ledger and a
//! journal. `live` does so with threads, over queues behind locks. `list` makes the run of
//! `play` up to where the ports end, and writes how the queues stand. `gen` writes inputs that are
//! made from a number, and `trial` makes the run of `play` on these in memory and prints how many
//! packets had each fate. `migrate` writes a journal of either version in that of today,
//! and `audit` judges whether a journal tells a run on its inputs.
//!
//! [`play`] does every command but `live`, which [`live`] does; [`program`] does the one that the
//! arguments of a program are.
#![tactic(auto)]

mod account;
mod arguments;
mod audit;
mod command;
mod generation;
mod list;
mod live_run;
mod migration;
mod play_run;
mod trial;

pub use arguments::program;
pub use audit::{a_run_passes_its_audit, what_passes_its_audit_is_accounted_for};
pub use command::play;
pub use live_run::{live, live_pools};
