//! Finished journals, judged: whether they tell a run of a script over a capture, under its rules.
//!
//! [`audit`] makes four checks, one after the other, and answers a [`Finding`] at the first that
//! says no. A finding has the line that is printed of it. Each check can be made alone:
//! [`check_histories`] names the first place where a queue's history isn't legal,
//! [`check_journeys`] the least number of a packet whose arrivals aren't just those that were asked
//! for, [`check_makers`] the first [`Part`] of being made by a script that doesn't hold, and
//! `has_total_order` of `order_audit` says whether one order of all events exists.
#![tactic(auto)]

mod finding;
mod first_illegal;
mod judging;
mod laws;
mod makers;
mod part;
mod parts;
mod watched;

pub use finding::Finding;
pub use first_illegal::{Place1, check_histories, find_illegal};
pub use journey_audit::check_journeys;
pub use judging::audit;
pub use laws::{
    a_finding_is_the_only_one, a_run_has_no_finding, a_run_is_all_its_parts,
    packets_of_a_capture_arrive, packets_of_a_capture_differ,
};
pub use makers::{check_makers, find_amiss};
pub use part::Part;
