//! Finished journals, judged: whether one order of all events exists.
//!
//! [`has_total_order`] takes entries as long as one can go: an entry goes once what it rests on has
//! gone. No choice is ever undone, so an order exists exactly if all entries go.
#![tactic(auto)]

mod cursors;
mod hints;
mod order;
mod rows;
mod sets;
mod walk;

pub use order::has_total_order;
