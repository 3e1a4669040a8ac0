//! The logs of a finished journal, judged: whether each is what a script says of its port, and when
//! its requests were sent. A log that can be walked from its first entry to its last is one that
//! the port's script tells, and each such log can be walked.
#![tactic(auto)]

mod duties;
mod judging;
mod laws;
mod logged;
mod notices;
mod port_walk;

pub use judging::{Judged, judge_logs};
pub use laws::{
    a_log_is_walked, a_walked_log_is_told, datagrams_are_cut_message_by_message,
    one_arrival_makes_one_notice,
};
