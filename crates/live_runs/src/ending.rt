//! How a run ends: what a closed plane gives is made by the script.

ghost use Rattle.std.specs.Prelude.{◌≡◌, ◌<◌, ◌++◌, ℕ, true, false, List, [], length};
ghost use Rattle.histories.specs.declared.entry.Entry.{Entry};
ghost use Rattle.histories.specs.declared.histories.Histories.{Histories};
ghost use Rattle.histories.specs.Lengths.{AreShort};
ghost use Rattle.inspector_script.specs.Scripts.{ScriptValue};
ghost use Rattle.run_parts.specs.Feeder.{downs_in_effect};
ghost use Rattle.run_parts.specs.Log.{Note};
ghost use Rattle.run_parts.specs.Ports.{is_port};
ghost use Rattle.run_parts.specs.Run.{IsMadeBy};
ghost use Rattle.live_runs.specs.Seen.{Grows, IsAny, IsNone, Shares, all_theirs};
ghost use Rattle.live_runs.specs.Calls.{ShutsAll};
ghost use Rattle.live_runs.specs.Owners.{IsFeeding};
ghost use Rattle.live_runs.specs.Passes.{AreMet, Pass, feeder_number, is_pass, seen_at};
ghost use Rattle.live_runs.specs.ClosedPlanes.{IsClosedPlane, sent_at, sent_by_all};
ghost use Rattle.live_runs.specs.Stands.{IsDone, Stand};
ghost use Rattle.live_runs.specs.Stages.{Stage, Went, WentFeeding};
ghost use Rattle.live_runs.specs.Sums.{WasSent};
ghost use Rattle.live_runs.specs.Meetings.{ArePorts, IsMeeting};
ghost use Rattle.live_runs.specs.Laws.{MakesHistories};

use run_parts::{closings_are_kept, fed_histories_go_on, logs_go_on, one_feeder_feeds_all};

/// How many notices a pass sent to a port stays what it was where it meets other passes, and where
/// it closes another port.
pub fn meetings_and_closings_send_nothing()
    ensures meets { (port places : ℕ) (old new : Shares) (rest : ℕ → List Entry) →
        ((k : ℕ) → new k ≡ old k ++ all_theirs (rest k)) →
        sent_at port new places ≡ sent_at port old places }
    ensures closes { (port other places : ℕ) (old new : Shares) → ShutsAll places other old new →
        sent_at port new places ≡ sent_at port old places }
    ensures all { (ports : List ℕ) (port places : ℕ) (old new : ℕ → Pass) →
        ((p : ℕ) → is_pass ports p ≡ true →
        sent_at port (new p).shares places ≡ sent_at port (old p).shares places) →
        sent_by_all ports places new port ≡ sent_by_all ports places old port }
{}

/// What all passes sent to a port that has closed is kept from a meeting on, whatever they go on
/// to do, as long as the port's own pass does nothing; and once the plane is closed, it is what all
/// sent to it in the end.
pub fn nothing_is_sent_to_a_closed_port()
    ensures closed { (workers : ℕ) (script : ScriptValue) (places port : ℕ) (stage : Stage)
        (passes : ℕ → Pass) (notes : ℕ → List Note) (stands : ℕ → Stand) →
        IsMeeting workers script places stage passes notes stands →
        (stands port).is_open ≡ false →
        WasSent workers script places port (sent_by_all script.ports places passes port) passes }
    ensures since { (workers : ℕ) (script : ScriptValue) (places port sum : ℕ)
        (old new : ℕ → Pass) → ((k p : ℕ) → is_pass script.ports p ≡ true →
        Grows IsAny (seen_at old k p) (seen_at new k p)) →
        ((k : ℕ) → Grows IsNone (seen_at old k port) (seen_at new k port)) →
        WasSent workers script places port sum old → WasSent workers script places port sum new }
    ensures stage { (workers : ℕ) (script : ScriptValue) (places port sum : ℕ) (stage : Stage)
        (old mid new : ℕ → Pass) (was now : ℕ → List Note) → is_port script port ≡ true →
        ((p : ℕ) → is_port script p ≡ true →
        Went workers script stage p (was p) (now p) (old p).shares (mid p).shares) →
        WentFeeding script stage (old feeder_number).shares (mid feeder_number).shares →
        ((k : ℕ) → seen_at mid k port ≡ seen_at old k port) → AreMet script.ports mid new →
        WasSent workers script places port sum old → WasSent workers script places port sum new }
    ensures at_last { (workers : ℕ) (script : ScriptValue) (places mail port sum : ℕ)
        (passes : ℕ → Pass) (h : Histories) (notes : ℕ → List Note) (stands : ℕ → Stand) →
        is_port script port ≡ true → ArePorts workers script places passes notes stands →
        IsClosedPlane script.ports mail places passes h →
        WasSent workers script places port sum passes →
        sent_by_all script.ports places passes port ≡ sum }
{
    closings_are_kept();
}

/// The histories of a closed plane are made by the script, where its passes met at last; each port
/// has done all that it had to; the feeder fed the places up to some time, with all lines that take
/// effect, or so many feeders did whose passes were joined into one; and each port received as many
/// notices as all passes sent to it. No notice is left. Nor did a request ask for a payload that is
/// too long.
pub fn a_run_with_threads_is_made_by_its_script()
    ensures made { (workers : ℕ) (script : ScriptValue) (places frames time : ℕ) (stage : Stage)
        (passes : ℕ → Pass) (h : Histories) (notes : ℕ → List Note) (stands : ℕ → Stand) →
        0 < places → IsClosedPlane script.ports script.mail places passes h →
        IsMeeting workers script places stage passes notes stands →
        ((port : ℕ) → is_port script port ≡ true → IsDone (stands port)) →
        ((k : ℕ) → k < places → IsFeeding time (downs_in_effect script frames)
        (seen_at passes k feeder_number)) →
        ((port : ℕ) → is_port script port ≡ true →
        sent_by_all script.ports places passes port ≡ length (passes port).letters) →
        IsMadeBy workers 1 script frames h notes (λ port. []) }
    ensures made_by_all { MakesHistories }
    ensures short { (workers : ℕ) (script : ScriptValue) (places mail : ℕ) (passes : ℕ → Pass)
        (h : Histories) (notes : ℕ → List Note) (stands : ℕ → Stand) → 0 < places →
        IsClosedPlane script.ports mail places passes h →
        ArePorts workers script places passes notes stands → AreShort h.entries }
{
    logs_go_on();
    closings_are_kept();
    fed_histories_go_on();
    one_feeder_feeds_all();
}
