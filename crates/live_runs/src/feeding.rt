//! What is known of the feeder's pass.

ghost use Rattle.std.specs.Prelude.{◌≤◌, ◌<◌, ◌+◌, ◌*◌, ◌++◌, ℕ, List, []};
ghost use Rattle.packet_entry.specs.declared.packet.Card.{Card};
ghost use Rattle.hook_chain.specs.declared.chain.Next.{Next};
ghost use Rattle.histories.specs.declared.entry.Entry.{Entry};
ghost use Rattle.script_lines.specs.declared.line.Down.{Down};
ghost use Rattle.live_runs.specs.Seen.{Seen, Shares, all_theirs, Grows};
ghost use Rattle.live_runs.specs.Calls.{Feeds, Falls};
ghost use Rattle.live_runs.specs.Owners.{IsFedByAll, IsFeeders, IsFeeding};
ghost use Rattle.live_runs.specs.Feeding.{TakesDownTo};

use run_parts::{fed_histories_go_on, one_feeder_feeds_all};

/// The feeder's pass keeps its time at each place: where nothing has happened yet, where it meets
/// other passes, where a packet of the next frame is fed, and where a line takes effect, place by
/// place. What it appends is its own.
pub fn the_feeder_keeps_its_time()
    ensures begins { IsFeeding 0 [] [] }
    ensures meets { (time : ℕ) (fallen : List Down) (xs : List Seen) (es : List Entry) →
        IsFeeding time fallen xs → IsFeeding time fallen (xs ++ all_theirs es) }
    ensures waits { (time later : ℕ) (fallen : List Down) (xs : List Seen) → time ≤ later →
        IsFeeding time fallen xs → IsFeeding later fallen xs }
    ensures feeds { (places time : ℕ) (route : Next) (fallen : List Down) (card : Card)
        (old new : Shares) → 0 < places → time ≤ 2 * card.number →
        Feeds places route card old new →
        ((k : ℕ) → k < places → IsFeeding time fallen (old k)) → (k : ℕ) → k < places →
        IsFeeding (2 * card.number + 1) fallen (new k) }
    ensures fed { (places : ℕ) (route : Next) (card : Card) (old new : Shares) →
        Feeds places route card old new → (k : ℕ) → Grows IsFeeders (old k) (new k) }
    ensures no_place { (places : ℕ) (d : Down) (shares : Shares) →
        TakesDownTo 0 places d shares shares }
    ensures next_place { (place places : ℕ) (d : Down) (old mid new : Shares) →
        TakesDownTo place places d old mid → Falls d.device place mid new →
        TakesDownTo (place + 1) places d old new }
{
    fed_histories_go_on();
}

/// A place that so many feeders fed is fed by them also where their pass meets others. One that was
/// fed up to some time, with all lines, was fed by one.
pub fn a_place_stays_fed_by_all()
    ensures meets { (feeders : ℕ) (downs : List Down) (xs : List Seen) (es : List Entry) →
        IsFedByAll feeders downs xs → IsFedByAll feeders downs (xs ++ all_theirs es) }
    ensures one { (time : ℕ) (downs : List Down) (xs : List Seen) → IsFeeding time downs xs →
        IsFedByAll 1 downs xs }
{
    fed_histories_go_on();
    one_feeder_feeds_all();
}
