//! What it is for histories to be made by a script, in eight parts: the log of each port, requests,
//! notices, closings, what the feeder did, the ports, their order, and room. These are definitions
//! and their laws on lists: no code runs here, and no schedule is known.
#![tactic(auto)]

mod by_hand;
mod laws;
mod underway;

pub use by_hand::{
    feeding_and_order_by_hand, hearing_by_hand, logs_by_hand, parts_by_hand, pooled_logs_by_hand,
    runs_of_one_port, shares_by_hand,
};
pub use laws::{
    datagrams_are_short, each_log_is_what_is_told, each_port_has_its_place,
    groups_of_answers_stand_in_the_order_of_notices, one_feeder_feeds_all, one_worker_is_no_pool,
    packets_are_read_with_their_frames,
};
pub use underway::{closings_are_kept, fed_histories_go_on, logs_go_on, ordered_histories_go_on};
