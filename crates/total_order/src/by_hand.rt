//! Histories written out by hand, to read the definition against.

ghost use Rattle.std.specs.Prelude.{ℕ, ◌<◌, ◌≤◌};
ghost use Rattle.total_order.specs.TotalOrder.{HasTotalOrder};
ghost use Rattle.total_order.specs.Examples.{answered_after, answered_before, crossing};
ghost use Rattle.total_order.specs.Examples.{crossing_requests, closed_before, asked_after};
ghost use Rattle.total_order.specs.Places.{Lists, AreTimedLists};
ghost use Rattle.total_order.specs.TimedExamples.{answered_once, one_place, sent_on, two_places};

use crate::laws::timed_lists_have_one_order;
use histories::a_queue_has_a_place;

/// An answer comes after the packet that it answers, and not before it. Of two packets at two
/// queues not each comes again before the other left; of two ports not each asks before the other.
/// A port's queue ends after the arrivals of all that it received, and then it asks no more.
pub fn orders_by_hand()
    ensures after { HasTotalOrder answered_after }
    ensures before { HasTotalOrder answered_before → ⊥ }
    ensures packets { HasTotalOrder crossing → ⊥ }
    ensures requests { HasTotalOrder crossing_requests → ⊥ }
    ensures closing { HasTotalOrder closed_before → ⊥ }
    ensures closed { HasTotalOrder asked_after → ⊥ }
{}

/// An answer is later than the arrival whose notice it answers, and a packet's next arrival is
/// later than its leaving; such times allow one order, and no others do. Each queue's history is at
/// its place. Two ports that each ask before the other have no times.
pub fn timed_lists_by_hand()
    ensures answer { (time : ℕ) → 2 < time → AreTimedLists 1 (one_place time) answered_once }
    ensures at_once { (time : ℕ) → time ≤ 2 → AreTimedLists 1 (one_place time) answered_once → ⊥ }
    ensures sent_on { (time : ℕ) → 3 < time → AreTimedLists 2 (two_places time) sent_on }
    ensures too_soon { (time : ℕ) → time ≤ 3 → AreTimedLists 2 (two_places time) sent_on → ⊥ }
    ensures missing { (time : ℕ) → AreTimedLists 1 (two_places time) sent_on → ⊥ }
    ensures misplaced { (time : ℕ) → AreTimedLists 3 (two_places time) sent_on → ⊥ }
    ensures requests { (places : ℕ) (lists : Lists) →
        AreTimedLists places lists crossing_requests → ⊥ }
{
    a_queue_has_a_place();
    timed_lists_have_one_order();
}
