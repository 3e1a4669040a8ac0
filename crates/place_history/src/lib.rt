//! The queues of one place by number, each the replay of its stored history. What a history is
//! stands in `histories`, and is handed on here.
#![tactic(auto)]

mod place;

pub use histories::{
    AskWords, Did, Dids, Entries, Entry, Histories, Logs, Lost, Losts, PortLog,
    a_closed_port_has_no_queues, a_device_that_packets_pass_leaves_nothing_waiting,
    a_legal_history_goes_on, an_entry_is_a_move, an_entry_is_of_its_queue_alone,
    each_front_of_a_legal_history_is_legal, each_packet_waits_is_lost_or_is_over,
    each_stay_ends_once, ports_and_devices_reach_bound_queues, soundness_is_kept_move_by_move,
};
pub use place::{Lines, Place};
pub use queue_core::{Event, Reply};
