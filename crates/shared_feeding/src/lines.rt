//! Which lines a feeder of several lets take effect, in which order.

ghost use Rattle.std.specs.Prelude.{◌≡◌, ◌≤◌, ◌<◌, ◌+◌, ◌++◌, ℕ, List, []};
ghost use Rattle.inspector_script.specs.Scripts.{ScriptValue};
ghost use Rattle.run_parts.specs.Feeder.{downs_after};
ghost use Rattle.shared_feeding.specs.Lines.{share_downs};
ghost use Rattle.shared_feeding.specs.Sights.{IsFrameOf, IsThis};

/// A feeder goes from frame to frame of its share: the first one is its own number and one, and the
/// next one is as many further on as there are feeders. Where all frames before one of its share
/// have passed, and then the lines after this one take effect, these are all lines of its share up
/// to the next one. Before its first frame there are none, and behind the last one no more.
pub fn lines_of_a_share_add_up()
    ensures first { (feeders feeder : ℕ) → feeder < feeders →
        IsFrameOf feeders (IsThis feeder) (feeder + 1) }
    ensures on { (feeders feeder number : ℕ) → feeder < feeders →
        IsFrameOf feeders (IsThis feeder) number →
        IsFrameOf feeders (IsThis feeder) (number + feeders) }
    ensures none { (script : ScriptValue) (feeders feeder : ℕ) → feeder < feeders →
        share_downs script feeders feeder feeder ≡ [] }
    ensures more { (script : ScriptValue) (feeders feeder passed : ℕ) → feeder < feeders →
        IsFrameOf feeders (IsThis feeder) (passed + 1) →
        share_downs script feeders feeder passed ++ downs_after script (passed + 1)
        ≡ share_downs script feeders feeder (passed + feeders) }
    ensures all { (script : ScriptValue) (feeders feeder passed frames : ℕ) → feeder < feeders →
        IsFrameOf feeders (IsThis feeder) (passed + 1) → frames ≤ passed →
        passed < frames + feeders →
        share_downs script feeders feeder passed ≡ share_downs script feeders feeder frames }
{}
