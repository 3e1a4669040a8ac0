//! What is known where the passes of feeders are joined.

ghost use Rattle.std.specs.Prelude.{◌≡◌, ◌<◌, ◌+◌, ℕ, List};
ghost use Rattle.script_lines.specs.declared.line.Down.{Down};
ghost use Rattle.inspector_script.specs.Scripts.{ScriptValue};
ghost use Rattle.run_parts.specs.Feeder.{downs_after, downs_in_effect};
ghost use Rattle.live_runs.specs.Owners.{IsFedByAll, IsFeeders, IsFeeding};
ghost use Rattle.live_runs.specs.Seen.{Grows, Seen, all_theirs, entries};
ghost use Rattle.shared_feeding.specs.Joining.{AreJoined, IsJoinedOf};
ghost use Rattle.shared_feeding.specs.Lines.{share_downs};
ghost use Rattle.shared_feeding.specs.Sights.{IsSharing, front_time};

/// Feeder 0 goes on behind what all had seen, with the marks of its pass; the passes of the others
/// were split off that one, so nothing there is their own. The passes are joined into that of
/// feeder 0, one after the other. Once all are, and each feeder has let all lines of its share take
/// effect, the place was fed by all of them.
pub fn joined_feeders_fed_the_place()
    ensures one { (feeders time : ℕ) (fallen : ℕ → List Down) (front xs : List Seen) →
        IsSharing feeders 0 time (fallen 0) front xs → AreJoined feeders 1 fallen front xs }
    ensures more { (feeders count time : ℕ) (fallen : ℕ → List Down)
        (front xs ys zs : List Seen) → AreJoined feeders count fallen front xs →
        IsSharing feeders count time (fallen count) (all_theirs (entries front)) ys →
        IsJoinedOf xs ys zs → AreJoined feeders (count + 1) fallen front zs }
    ensures all { (feeders frames : ℕ) (script : ScriptValue) (fallen : ℕ → List Down)
        (front xs : List Seen) → IsFeeding front_time (downs_after script 0) front →
        AreJoined feeders feeders fallen front xs →
        ((feeder : ℕ) → feeder < feeders →
        fallen feeder ≡ share_downs script feeders feeder frames) →
        IsFedByAll feeders (downs_in_effect script frames) xs }
{}

/// What two feeders' passes appended behind what all had seen, the joined pass has appended there.
pub fn joined_feeders_append_what_both_do()
    ensures { (front xs ys zs : List Seen) → Grows IsFeeders front xs →
        Grows IsFeeders (all_theirs (entries front)) ys → IsJoinedOf xs ys zs →
        Grows IsFeeders front zs }
{}
