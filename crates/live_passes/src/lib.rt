//! The passes of a plane as a run with threads knows them: what its calls do to them, in the words
//! of what is known of such a run. These are definitions and their laws: no code runs here.
#![tactic(auto)]

mod all;
mod feeders;
mod laws;

pub use all::{
    a_closed_plane_has_all_that_its_passes_did, counts_say_what_was_sent, opened_passes_are_new,
    passes_that_meet_are_met,
};
pub use feeders::rows_are_split_and_joined;
pub use laws::{
    feeders_feed_their_passes, passes_that_meet_see_the_same, ports_speak_by_their_passes,
    what_was_sent_is_marked,
};
