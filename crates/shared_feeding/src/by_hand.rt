//! Two feeders, written out.

ghost use Rattle.std.specs.Prelude.{◌≡◌, ◌<◌, ℕ, true, List, [], ◌∷◌, length};
ghost use Rattle.histories.specs.History.{history};
ghost use Rattle.histories.specs.declared.entry.Entry.{Entry};
ghost use Rattle.script_lines.specs.declared.line.Down.{Down};
ghost use Rattle.run_parts.specs.FedExamples.{arrives, down_5};
ghost use Rattle.run_parts.specs.Feeder.{IsFed, IsFedBy, downs_after, downs_in_effect};
ghost use Rattle.run_parts.specs.Ports.{is_port};
ghost use Rattle.run_parts.specs.Run.{IsMadeBy};
ghost use Rattle.live_runs.specs.ByHand.{notes, script, stands};
ghost use Rattle.live_runs.specs.ClosedPlanes.{IsClosedPlane, sent_by_all};
ghost use Rattle.live_runs.specs.Meetings.{IsMeeting};
ghost use Rattle.live_runs.specs.Owners.{IsFedByAll, IsFeeding};
ghost use Rattle.live_runs.specs.Passes.{feeder_number, seen_at};
ghost use Rattle.live_runs.specs.Seen.{Ours, Seen, all_theirs, entries};
ghost use Rattle.live_runs.specs.Stages.{Ending};
ghost use Rattle.live_runs.specs.Stands.{IsDone};
ghost use Rattle.shared_feeding.specs.ByHand.{fallen, front, histories, passes, seen_by_0};
ghost use Rattle.shared_feeding.specs.ByHand.{seen_by_1, seen_by_both};
ghost use Rattle.shared_feeding.specs.Joining.{IsJoinedOf};
ghost use Rattle.shared_feeding.specs.Lines.{share_downs};
ghost use Rattle.shared_feeding.specs.Sights.{IsSharing, front_time};

use crate::joined_feeders_fed_the_place;
use live_runs::{
    a_place_stays_fed_by_all, a_run_around_what_is_fed, a_run_by_hand,
    a_run_with_threads_is_made_by_its_script,
};

/// Two feeders feed a frame each, and between the first one's and its line the other one's arrives.
/// What is needed is known of them, and so both fed the queue, which one feeder can't have done. A
/// feeder whose own is the arrival of another's frame keeps no share; and passes that both have the
/// same entry for their own aren't joined.
pub fn two_feeders_by_hand()
    ensures front { IsFeeding front_time (downs_after script 0) front }
    ensures zero { IsSharing 2 0 3 (fallen 0) front seen_by_0 }
    ensures one { IsSharing 2 1 5 (fallen 1) (all_theirs (entries front)) seen_by_1 }
    ensures joined { IsJoinedOf seen_by_0 seen_by_1 seen_by_both }
    ensures lines { (feeder : ℕ) → feeder < 2 →
        fallen feeder ≡ share_downs script 2 feeder 2 }
    ensures fed { IsFedBy 2 (downs_in_effect script 2) (history 3 (entries seen_by_both)) }
    ensures not_by_one { IsFed down_5 (history 3 (entries seen_by_both)) → ⊥ }
    ensures stranger { (time : ℕ) (lines : List Down) →
        IsSharing 2 1 time lines [] (Ours (arrives 1) ∷ []) → ⊥ }
    ensures never_both { (e : Entry) (zs : List Seen) →
        IsJoinedOf (Ours e ∷ []) (Ours e ∷ []) zs → ⊥ }
{
    joined_feeders_fed_the_place();
}

/// A whole run of them, at one place: port 7 opens, which binds a queue; the two feeders work; and
/// port 7 closes. What a run needs is known of it, so it is made by the script, by two feeders.
pub fn a_run_of_two_feeders_by_hand()
    ensures closed { IsClosedPlane (7 ∷ []) 1 1 passes histories }
    ensures meeting { IsMeeting 1 script 1 (Ending 0) passes notes stands }
    ensures done { (port : ℕ) → is_port script port ≡ true → IsDone (stands port) }
    ensures fed { (k : ℕ) → k < 1 →
        IsFedByAll 2 (downs_in_effect script 2) (seen_at passes k feeder_number) }
    ensures received { (port : ℕ) → is_port script port ≡ true →
        sent_by_all script.ports 1 passes port ≡ length (passes port).letters }
    ensures made { IsMadeBy 1 2 script 2 histories notes (λ port. []) }
{
    joined_feeders_fed_the_place();
    two_feeders_by_hand();
    a_place_stays_fed_by_all();
    a_run_around_what_is_fed();
    a_run_by_hand();
    a_run_with_threads_is_made_by_its_script();
}
