//! One lock round a state that stands for a list, taken in turns. Who takes a turn is told a
//! beginning of one history, and whoever appended an entry knows its place.
#![tactic(auto)]

mod held;
mod laws;
mod lock;
mod pass;
mod storied;
mod turns;
mod view;

pub use held::Held;
pub use laws::{
    a_cut_shares_a_part_out, a_part_is_known_by_its_ways, a_turn_appends_the_places_beyond,
    a_union_has_the_ways_of_both, merged_places_are_those_of_both,
    parts_are_put_together_in_any_order, parts_meet_where_they_share_a_way,
};
pub use lock::{TurnLock, Unmade};
pub use pass::Pass;
pub use storied::Storied;
