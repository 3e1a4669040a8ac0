//! A run, written out.

ghost use Rattle.std.specs.Prelude.{◌≡◌, ◌<◌, ℕ, true, List, [], ◌∷◌, length};
ghost use Rattle.nfqa_msgs.specs.declared.request.Decoded.TheVariants.{Asked};
ghost use Rattle.nfqa_msgs.specs.RequestReading.{decoded};
ghost use Rattle.histories.specs.declared.entry.Entry.{Entry};
ghost use Rattle.run_parts.specs.Datagrams.{messages_in};
ghost use Rattle.run_parts.specs.Feeder.{downs_in_effect};
ghost use Rattle.run_parts.specs.Ports.{is_port};
ghost use Rattle.run_parts.specs.Run.{IsMadeBy};
ghost use Rattle.live_runs.specs.Owners.{IsFeeding};
ghost use Rattle.live_runs.specs.Passes.{feeder_number, seen_at};
ghost use Rattle.live_runs.specs.ClosedPlanes.{IsClosedPlane, sent_by_all};
ghost use Rattle.live_runs.specs.Stands.{IsDone};
ghost use Rattle.live_runs.specs.Stages.{Ending};
ghost use Rattle.live_runs.specs.Meetings.{IsMeeting};
ghost use Rattle.live_runs.specs.ByHand.{AreFedTo3, binding, bytes, histories, histories_with};
ghost use Rattle.live_runs.specs.ByHand.{message, notes, passes, passes_with, script, stands};

use crate::a_run_with_threads_is_made_by_its_script;

/// A run of one port and what feeds at one place: the port binds a queue, these entries are fed
/// there, and the port closes. Whatever they are, the plane is closed with all passes met and no
/// notice left.
pub fn a_run_around_what_is_fed()
    ensures closed { (fed : List Entry) → AreFedTo3 fed →
        IsClosedPlane (7 ∷ []) 1 1 (passes_with fed) (histories_with fed) }
    ensures meeting { (fed : List Entry) → AreFedTo3 fed →
        IsMeeting 1 script 1 (Ending 0) (passes_with fed) notes stands }
    ensures received { (fed : List Entry) → AreFedTo3 fed → (port : ℕ) →
        is_port script port ≡ true →
        sent_by_all script.ports 1 (passes_with fed) port
        ≡ length (passes_with fed port).letters }
{}

/// A run of one port and a feeder at one place: the port binds a queue, frame 1 arrives there, a
/// device goes down, and the port closes. What a run needs is known of it: a closed plane, whose
/// passes met, with nothing left to do, fed, and with no notice left. So it is made by the script.
pub fn a_run_by_hand()
    ensures cut { messages_in bytes ≡ message ∷ [] }
    ensures asked { decoded message ≡ Asked binding }
    ensures closed { IsClosedPlane (7 ∷ []) 1 1 passes histories }
    ensures meeting { IsMeeting 1 script 1 (Ending 0) passes notes stands }
    ensures done { (port : ℕ) → is_port script port ≡ true → IsDone (stands port) }
    ensures fed { (k : ℕ) → k < 1 → IsFeeding 3 (downs_in_effect script 1)
        (seen_at passes k feeder_number) }
    ensures received { (port : ℕ) → is_port script port ≡ true →
        sent_by_all script.ports 1 passes port ≡ length (passes port).letters }
    ensures made { IsMadeBy 1 1 script 1 histories notes (λ port. []) }
{
    a_run_around_what_is_fed();
    a_run_with_threads_is_made_by_its_script();
}
