//! What a feeder keeps while it feeds its share.

ghost use Rattle.std.specs.Prelude.{◌≡◌, ◌≤◌, ◌<◌, ◌++◌, ◌∷◌, ℕ, List, []};
ghost use Rattle.packet_entry.specs.declared.packet.Card.{Card};
ghost use Rattle.hook_chain.specs.declared.chain.Next.{Next};
ghost use Rattle.histories.specs.declared.entry.Entry.{Entry};
ghost use Rattle.script_lines.specs.declared.line.Down.{Down};
ghost use Rattle.run_parts.specs.Feeder.{falling_time, feeding_time};
ghost use Rattle.live_runs.specs.Calls.{FallsAt, Feeds};
ghost use Rattle.live_runs.specs.Seen.{Seen, Shares, all_theirs};
ghost use Rattle.shared_feeding.specs.Sights.{AreSharing, IsFrameOf, IsSharing, IsThis};
ghost use Rattle.shared_feeding.specs.Sights.{front_time};

use histories::a_device_that_packets_pass_leaves_nothing_waiting;

/// A feeder keeps its share at each place: behind what all feeders had seen, where nothing has
/// happened yet; where its pass meets others; where the packet of a frame of the share is fed,
/// which is no earlier than all before; and where a line after such a frame takes effect, at each
/// place in one turn.
pub fn a_feeder_keeps_its_share()
    ensures begins { (feeders feeder : ℕ) (front : List Seen) →
        IsSharing feeders feeder front_time [] front front }
    ensures meets { (feeders feeder time : ℕ) (fallen : List Down) (front xs : List Seen)
        (es : List Entry) → IsSharing feeders feeder time fallen front xs →
        IsSharing feeders feeder time fallen front (xs ++ all_theirs es) }
    ensures waits { (feeders feeder time later : ℕ) (fallen : List Down)
        (front xs : List Seen) → time ≤ later → IsSharing feeders feeder time fallen front xs →
        IsSharing feeders feeder later fallen front xs }
    ensures feeds { (places feeders feeder time : ℕ) (route : Next) (fallen : List Down)
        (card : Card) (front old new : Shares) → 0 < places → time ≤ feeding_time card.number →
        IsFrameOf feeders (IsThis feeder) card.number → Feeds places route card old new →
        AreSharing places feeders feeder time fallen front old →
        AreSharing places feeders feeder (falling_time card.number) fallen front new }
    ensures falls { (places feeders feeder time : ℕ) (fallen : List Down) (d : Down)
        (front old new : Shares) → time ≤ falling_time d.after →
        IsFrameOf feeders (IsThis feeder) d.after →
        ((k : ℕ) → k < places → FallsAt d.device (old k) (new k)) →
        AreSharing places feeders feeder time fallen front old →
        AreSharing places feeders feeder (falling_time d.after) (fallen ++ d ∷ []) front new }
{
    a_device_that_packets_pass_leaves_nothing_waiting();
}
