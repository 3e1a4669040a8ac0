//! The schedule of one thread, and that its histories are such as its script makes. These are
//! definitions and their laws: no code runs here.
#![tactic(auto)]

mod laws;

pub use laws::{
    a_schedule_has_one_run, each_emptying_ends_by_itself, each_port_has_its_log, no_notice_is_left,
    one_order_of_all_events, packets_and_payloads_are_within_bounds, ports_do_what_the_script_says,
};
