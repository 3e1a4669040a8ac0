//! Laws of the definitions, each the contract of a function that does nothing.

ghost use Rattle.std.specs.Prelude.{◌≡◌, ◌≢◌, ◌<◌, ◌⊎◌, ℕ, ◌+◌, List, [], ◌∷◌, ◌++◌, Bool, Some};
ghost use Rattle.std.specs.Prelude.{option_map, ◌==◌, false, All};
ghost use Rattle.packet_entry.specs.declared.packet.Card.{Card};
ghost use Rattle.histories.specs.Sweeps.{AsksAtOne};
ghost use Rattle.nfqa_msgs.specs.Numbers.{input_device, output_device};
ghost use Rattle.queue_core.specs.State.{Bound};
ghost use Rattle.queue_core.specs.Step.{step, Way};
ghost use Rattle.queue_core.specs.Laws.{times, waiting_in};
ghost use Rattle.histories.specs.declared.entry.Entry.{Entry};
ghost use Rattle.histories.specs.History.{replay, history, IsLegal, IsStep, AreLegal};
ghost use Rattle.histories.specs.Stays.{arrivals, departures};
ghost use Rattle.histories.specs.Numbers.{queue_count};
ghost use Rattle.histories.specs.Places.{place_for};
ghost use Rattle.histories.specs.Priorities.{BringsNone};
ghost use Rattle.histories.specs.States.{state_of, step_of, waiting_at};
ghost use Rattle.histories.specs.Happenings.{closing_of, closings, down_of, downs};

use queue_core::each_packet_stays_or_leaves;

/// Each front of a legal history is legal.
pub fn each_front_of_a_legal_history_is_legal()
    ensures { (es fs : List Entry) → IsLegal (es ++ fs) → IsLegal es }
{}

/// A legal history goes on by each step that its state allows, and then its state is that step's.
pub fn a_legal_history_goes_on()
    ensures state { (es : List Entry) (e : Entry) →
        replay (es ++ e ∷ []) ≡ (step (replay es) e.event).state }
    ensures one { (es : List Entry) (e : Entry) → IsLegal es → IsStep (replay es) e →
        IsLegal (es ++ e ∷ []) }
    ensures all { (es : List Entry) (e : Entry) → AreLegal es →
        IsStep (replay (history e.queue es)) e → AreLegal (es ++ e ∷ []) }
{}

/// Each stay of a packet at a queue goes on or ends, and never both or twice: over a whole history
/// as many packets left or still wait as arrived, whatever test of number and visit tells them
/// apart. So a visit that arrived once leaves at most once.
pub fn each_stay_ends_once()
    ensures { (es : List Entry) (test : ℕ → ℕ → Bool) →
        times test (waiting_in (replay es)) + times test (departures es)
        ≡ times test (arrivals es) }
{
    each_packet_stays_or_leaves();
}

/// A closed port's entries are one at each queue that was bound to it, and none elsewhere. Then no
/// queue is bound to it.
pub fn a_closed_port_has_no_queues()
    ensures entries { (port queue : ℕ) (es : List Entry) → queue < queue_count →
        history queue (closings port es) ≡ closing_of port queue (state_of es queue) }
    ensures none { (port queue : ℕ) (es : List Entry) → queue < queue_count →
        option_map (λ (b : Bound). b.port) (state_of (es ++ closings port es) queue)
        ≢ Some port }
{}

/// The entries of a device that goes down are one at each bound queue, and none elsewhere. Where it
/// is one of the two by which every packet comes in and goes out, nothing waits then.
pub fn a_device_that_packets_pass_leaves_nothing_waiting()
    ensures entries { (device queue : ℕ) (es : List Entry) → queue < queue_count →
        history queue (downs device es) ≡ down_of device queue (state_of es queue) }
    ensures none { (device queue : ℕ) (es : List Entry) → queue < queue_count →
        (device ≡ input_device) ⊎ (device ≡ output_device) →
        waiting_at (state_of (es ++ downs device es) queue) ≡ 0 }
{}

/// An entry more goes on with the history of its own queue, and with no other.
pub fn an_entry_is_of_its_queue_alone()
    ensures own { (es : List Entry) (e : Entry) →
        history e.queue (es ++ e ∷ []) ≡ history e.queue es ++ e ∷ [] }
    ensures others { (es : List Entry) (e : Entry) (queue : ℕ) → (e.queue == queue) ≡ false →
        history queue (es ++ e ∷ []) ≡ history queue es }
{}

/// A port that closes and a device that goes down reach bound queues alone, and each with entries
/// of that queue.
pub fn ports_and_devices_reach_bound_queues()
    ensures ports { (port : ℕ) → AsksAtOne (closing_of port) }
    ensures devices { (device : ℕ) → AsksAtOne (down_of device) }
{}

/// Where each packet arrives with priority 0 and no request gives one, each packet that leaves has
/// priority 0.
pub fn no_priority_comes_of_none()
    ensures { (es : List Entry) (e : Entry) →
        All (λ (x : Entry). BringsNone x.event) (es ++ e ∷ []) →
        All (λ (l : Card × Way). l.0.priority ≡ 0) (step_of es e.queue e.event).left }
{}

/// A queue is at one of the places.
pub fn a_queue_has_a_place()
    ensures { (queue places : ℕ) → 0 < places → place_for queue places < places }
{}
