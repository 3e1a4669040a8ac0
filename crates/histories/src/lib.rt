//! What happened at queues and at their ports: entries, logs and histories, what a history leads
//! to, which histories are legal, and how packets go from queue to queue.
#![tactic(auto)]

mod entry;
mod grouping;
mod histories;
mod journeys;
mod laws;
mod log;
mod rearranging;
mod requests;

pub use entry::{Entries, Entry};
pub use grouping::grouped;
pub use histories::{Histories, Logs, Lost, Losts};
pub use journeys::{
    an_entry_is_a_move, each_packet_waits_is_lost_or_is_over, soundness_is_kept_move_by_move,
    soundness_is_of_each_queue,
};
pub use laws::{
    a_closed_port_has_no_queues, a_device_that_packets_pass_leaves_nothing_waiting,
    a_legal_history_goes_on, a_queue_has_a_place, an_entry_is_of_its_queue_alone,
    each_front_of_a_legal_history_is_legal, each_stay_ends_once, no_priority_comes_of_none,
    ports_and_devices_reach_bound_queues,
};
pub use log::{AskWords, Did, Dids, PortLog};
pub use queue_core::{Event, Reply};
pub use requests::queue_of;
