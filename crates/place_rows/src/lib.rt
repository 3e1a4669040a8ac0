//! Rows: what one holder has of the turn locks of all places, which is one pass for each.
#![tactic(auto)]

mod ending;
mod laws;
mod opening;
mod rows;

pub use ending::{PortReceiver, close_all, end_places, end_rows};
pub use laws::{
    each_entry_is_one_rows_own, joined_rows_have_what_both_had, own_entries_grow_by_each_turn,
    rows_are_balanced_together, rows_are_joined_one_by_one, rows_know_the_same_without_times,
    rows_meet_by_the_first, rows_stay_balanced, splitting_changes_nothing_of_ones_own,
    telling_changes_nothing_of_ones_own,
};
pub use opening::{Dealt, Senders, deal_ports, open_places};
pub use rows::{Locks, Row, join_row, split_row, tell_row};
