//! One order of all events of all queues: what it is, that it is there exactly where logical clocks
//! are, how it is found, and that the turns of one thread have one, as have the lists of several
//! places with their times. These are definitions and their laws on lists: no code runs here, and
//! no schedule is known.
#![tactic(auto)]

mod by_hand;
mod laws;

pub use by_hand::{orders_by_hand, timed_lists_by_hand};
pub use laws::{
    one_order_is_a_timed_list, requests_stay_in_their_logs, taking_what_is_ready_decides,
    timed_lists_have_one_order, total_order_where_clocks_are, total_orders_are_orders_of_steps,
    turns_of_one_thread_have_one_order, what_is_known_stays_known,
};
