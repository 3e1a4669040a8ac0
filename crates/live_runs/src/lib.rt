//! A run with threads: what is known of each pass of a plane while ports and the feeder work beside
//! each other, and that the histories of the closed plane are made by the script. These are
//! definitions and their laws: no code runs here, and no thread is started.
#![tactic(auto)]

mod by_hand;
mod doing;
mod ending;
mod feeding;
mod locks;
mod meeting;

pub use by_hand::{a_run_around_what_is_fed, a_run_by_hand};
pub use doing::{
    a_pool_answers_in_groups, a_port_does_what_is_next, a_port_goes_through_a_stage,
    messages_are_sent_one_by_one, what_a_port_does_adds_up,
};
pub use ending::{
    a_run_with_threads_is_made_by_its_script, meetings_and_closings_send_nothing,
    nothing_is_sent_to_a_closed_port,
};
pub use feeding::{a_place_stays_fed_by_all, the_feeder_keeps_its_time};
pub use locks::a_turn_of_a_lock_is_one_of_its_pass;
pub use meeting::{a_stage_ends_where_all_meet, ports_open_one_after_the_other};
