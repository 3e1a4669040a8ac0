//! What is known of all passes where they have met.

ghost use Rattle.std.specs.Prelude.{◌≡◌, ℕ, true, List, [], length};
ghost use Rattle.inspector_script.specs.Scripts.{ScriptValue};
ghost use Rattle.run_parts.specs.Log.{Note};
ghost use Rattle.run_parts.specs.Ports.{is_port, place_in};
ghost use Rattle.live_runs.specs.Seen.{Shares, Grows};
ghost use Rattle.live_runs.specs.Owners.{IsFeeders};
ghost use Rattle.live_runs.specs.Passes.{Pass, is_pass};
ghost use Rattle.live_runs.specs.Stands.{Stand, opened, unopened};
ghost use Rattle.live_runs.specs.Stages.{Opening, Stage, WentFeeding, Working};
ghost use Rattle.live_runs.specs.Meetings.{IsMeeting, IsNew, IsOpenTo};
ghost use Rattle.live_runs.specs.Doing.{IsDoing};
ghost use Rattle.live_runs.specs.Laws.{EndsStage, OpensNext};

use queue_core::each_packet_stays_or_leaves;
use run_parts::{closings_are_kept, logs_go_on};

/// The ports open one after the other, in the script's order, and behind each all passes meet: so
/// they have opened to the next place, and in the end all have.
pub fn ports_open_one_after_the_other()
    ensures none { (workers : ℕ) (script : ScriptValue) (places : ℕ) (passes : ℕ → Pass) →
        ((p : ℕ) → is_pass script.ports p ≡ true → IsNew (passes p)) →
        IsOpenTo workers script places 0 passes (λ p. []) (unopened script) }
    ensures begins { (workers : ℕ) (script : ScriptValue) (places port : ℕ) (passes : ℕ → Pass)
        (notes : ℕ → List Note) (stands : ℕ → Stand) → is_port script port ≡ true →
        IsOpenTo workers script places (place_in port script.ports) passes notes stands →
        IsDoing workers script places (Opening (place_in port script.ports)) port (notes port)
        (passes port) (unopened script port) (passes port) }
    ensures next { OpensNext }
    ensures all { (workers : ℕ) (script : ScriptValue) (places : ℕ) (passes : ℕ → Pass)
        (notes : ℕ → List Note) (stands : ℕ → Stand) →
        IsOpenTo workers script places (length script.ports) passes notes stands →
        IsMeeting workers script places Working passes notes stands }
    ensures each { (workers : ℕ) (script : ScriptValue) (places : ℕ) (passes : ℕ → Pass)
        (notes : ℕ → List Note) (stands : ℕ → Stand) →
        IsOpenTo workers script places (length script.ports) passes notes stands → (port : ℕ) →
        is_port script port ≡ true → stands port ≡ opened script port }
{
    logs_go_on();
    closings_are_kept();
    each_packet_stays_or_leaves();
}

/// A stage ends where all passes meet, each port's having done what is of the stage and the
/// feeder's having fed, while no port ends: so they are in order up to the stage.
pub fn a_stage_ends_where_all_meet()
    ensures meeting { EndsStage }
    ensures feeds { (script : ScriptValue) (old new : Shares) →
        ((k : ℕ) → Grows IsFeeders (old k) (new k)) → WentFeeding script Working old new }
    ensures rests { (script : ScriptValue) (stage : Stage) (shares : Shares) →
        WentFeeding script stage shares shares }
{
    logs_go_on();
    closings_are_kept();
}
