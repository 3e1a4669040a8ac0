//! What several feeders keep of one history, put into one list.
#![tactic(auto)]

mod by_hand;
mod joining;
mod lines;
mod locks;
mod sharing;

pub use by_hand::{a_run_of_two_feeders_by_hand, two_feeders_by_hand};
pub use joining::{joined_feeders_append_what_both_do, joined_feeders_fed_the_place};
pub use lines::lines_of_a_share_add_up;
pub use locks::passes_of_a_lock_are_split_and_joined;
pub use sharing::a_feeder_keeps_its_share;
