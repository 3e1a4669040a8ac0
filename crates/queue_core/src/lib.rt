//! The sequential queue: packets wait under ids, oldest first, until a verdict names them. The
//! calls that change it are steps of the definitions in `specs/`, by the tables of the queue's
//! rules read from the top: `begin` and, where it offers a notice, `settle` are one together, but
//! for a packet's 33rd visit, which is decided before `begin`; and `skip_to` alone is none.
#![tactic(auto)]

mod decision;
mod errno;
mod event;
mod handed;
mod ids;
mod laws;
mod lines;
mod linked;
mod many_waiting;
mod offers;
mod queue;
mod settings;
mod waiting;

pub use decision::{ACCEPT, DROP, QUEUE, QUEUE_BYPASS, REPEAT, STOLEN, STOP, VERDICT_MASK};
pub use errno::{EBUSY, ENODEV, ENOENT, EPERM};
pub use event::{Event, Reply};
pub use handed::Handed;
pub use ids::is_after;
pub use laws::{
    an_arrival_leaves_as_its_outcome_says, another_port_changes_nothing,
    each_packet_stays_or_leaves, first_free_id, ids_stay_apart, neighbours_lead_both_ways,
    public_numbers, replies_tell_how_many_left, room_matters_where_a_notice_is_offered,
    share_is_the_longest, share_of_ascending_ids, what_is_flushed_is_destroyed,
};
pub use lines::{ConfigLine, config_line, ruling};
pub use offers::{Begun, NoRoom, Outcome, Settled};
pub use queue::Queue;
pub use settings::{DEFAULT_MAXIMUM, Settings};
