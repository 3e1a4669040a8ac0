//! When there is one order of all events.

ghost use Rattle.std.specs.Prelude.{◌≡◌, ◌<◌, ◌≤◌, ◌+◌, ℕ, Bool, true, List, [], ◌++◌, ◌↔◌};
ghost use Rattle.std.specs.Prelude.{◌∷◌, slice_get, take, length, Option};
ghost use mathlib.Core.List.{IsPrefix};
ghost use Rattle.queue_core.specs.declared.event.Event.{Event};
ghost use Rattle.histories.specs.History.{history};
ghost use Rattle.histories.specs.declared.histories.Histories.{Histories};
ghost use Rattle.histories.specs.declared.log.AskWords.{AskWords};
ghost use Rattle.histories.specs.declared.log.Did.{Did};
ghost use Rattle.histories.specs.declared.log.Did.TheVariants.{Sent};
ghost use Rattle.histories.specs.declared.log.PortLog.{PortLog};
ghost use Rattle.total_order.specs.Steps.{Step, log_of, Has, HasLeft, HasCome, taken, IsSent};
ghost use Rattle.total_order.specs.TotalOrder.{IsTotalOrder, HasTotalOrder, HasClocks, entries};
ghost use Rattle.total_order.specs.TotalOrder.{queue_of, IsCaused, InLogOrder};
ghost use Rattle.total_order.specs.Orders.{GoesOn, IsOrder, HasOrder};
ghost use Rattle.total_order.specs.Places.{Lists, IsKnown, AreHeard, IsKnownAs, AreTimedLists};
ghost use Rattle.total_order.specs.Ready.{takes_all};
ghost use Rattle.total_order.specs.OneThread.{Turn, Runs, made, said, silent};

use histories::a_queue_has_a_place;

/// There is one order exactly where logical clocks can give all entries times.
pub fn total_order_where_clocks_are()
    ensures order { (h : Histories) → HasClocks h → HasTotalOrder h }
    ensures clocks { (h : Histories) → HasTotalOrder h → HasClocks h }
{}

/// Whether there is one order is decided by taking, again and again, the first thing that may come
/// next. What causes a thing goes on to cause it as each place's part goes on.
pub fn taking_what_is_ready_decides<E>()
    ensures { (place : E → ℕ) (can : List E → E → Bool) (may : E → E → Bool) →
        ((e : E) (es fs : List E) → GoesOn place es fs → can es e ≡ true → can fs e ≡ true) →
        (es : List E) →
        (takes_all place can may es ≡ true)
        ↔ HasOrder place (λ before e. can before e ≡ true) (λ x y. may x y ≡ true) es }
{}

/// A total order is an order of steps, each at its queue, and what a step rests on goes on to be
/// before it. So what is decided of orders is decided of histories whose requests have positions.
pub fn total_orders_are_orders_of_steps()
    ensures persists { (logs : List PortLog) (s : Step) (before after : List Step) →
        GoesOn queue_of before after → IsCaused logs before s → IsCaused logs after s }
    ensures order { (h : Histories) (all : List Step) → IsTotalOrder h all →
        IsOrder queue_of (IsCaused h.logs) InLogOrder all all }
    ensures total { (h : Histories) (steps all : List Step) →
        ((queue : ℕ) → history queue (entries steps) ≡ history queue h.entries) →
        IsOrder queue_of (IsCaused h.logs) InLogOrder steps all → IsTotalOrder h all }
{}

/// Histories that come of the turns of one thread have one order: that of its turns.
pub fn turns_of_one_thread_have_one_order()
    ensures { (ts : List Turn) (h : Histories) → Runs [] silent ts →
        ((queue : ℕ) → history queue h.entries ≡ history queue (entries (made silent ts))) →
        ((port : ℕ) → log_of port h.logs ≡ said silent ts port) → HasTotalOrder h }
{}

/// Where each place has its entries in a list with their times, what each entry rests on is known
/// of earlier ones, and times ascend along each port's log, there is one order of all.
pub fn timed_lists_have_one_order()
    ensures { (places : ℕ) (lists : Lists) (h : Histories) → AreTimedLists places lists h →
        HasTotalOrder h }
{
    a_queue_has_a_place();
}

/// One order of all is a timed list of one place: its positions are times.
pub fn one_order_is_a_timed_list()
    ensures { (h : Histories) → HasTotalOrder h → (lists : Lists) × AreTimedLists 1 lists h }
{
    a_queue_has_a_place();
}

/// A packet's first visit rests on nothing, and a packet whose leaving is known may come again.
/// What is known stays known at later times and as lists go on: where a packet left, that a queue
/// took a packet, of which notices the arrivals are known, and what a step rests on.
pub fn what_is_known_stays_known()
    ensures first { (places : ℕ) (lists : Lists) (time number visit : ℕ) →
        0 < places → visit ≤ 1 → IsKnown places lists time (HasCome number visit) }
    ensures next { (places : ℕ) (lists : Lists) (time number visit : ℕ) →
        IsKnown places lists time (HasLeft number visit) →
        IsKnown places lists time (HasCome number (visit + 1)) }
    ensures come { (places : ℕ) (before after : Lists) (time later number visit : ℕ) →
        time ≤ later → ((k : ℕ) → k < places → IsPrefix (before k) (after k)) →
        IsKnown places before time (HasCome number visit) →
        IsKnown places after later (HasCome number visit) }
    ensures taken { (places : ℕ) (before after : Lists) (time later queue number visit : ℕ) →
        time ≤ later → ((k : ℕ) → k < places → IsPrefix (before k) (after k)) →
        IsKnown places before time (λ es. Has number visit (taken (history queue es))) →
        IsKnown places after later (λ es. Has number visit (taken (history queue es))) }
    ensures heard { (places : ℕ) (before after : Lists) (time later : ℕ) (ds : List Did) →
        time ≤ later → ((k : ℕ) → k < places → IsPrefix (before k) (after k)) →
        AreHeard places before time ds → AreHeard places after later ds }
    ensures known { (places : ℕ) (before after : Lists) (logs : List PortLog)
        (time later at : ℕ) (event : Event) →
        time ≤ later → ((k : ℕ) → k < places → IsPrefix (before k) (after k)) →
        IsKnownAs places before logs time at event → IsKnownAs places after logs later at event }
    ensures both { (places : ℕ) (lists : Lists) (time : ℕ) (ds es : List Did) →
        AreHeard places lists time ds → AreHeard places lists time es →
        AreHeard places lists time (ds ++ es) }
    ensures parts { (places : ℕ) (lists : Lists) (time : ℕ) (ds es : List Did) →
        AreHeard places lists time (ds ++ es) →
        AreHeard places lists time ds × AreHeard places lists time es }
{}

/// The next request of a port is at the end of its log, and it rests on what the port has received.
/// It stays where it is as the log goes on, and rests on the same.
pub fn requests_stay_in_their_logs()
    ensures next { (places : ℕ) (lists : Lists) (time call : ℕ) (words : AskWords)
        (answer : Option ℕ) (ds : List Did) → AreHeard places lists time ds →
        IsSent call (slice_get (ds ++ Sent call words answer ∷ []) (length ds))
        × AreHeard places lists time (take (length ds) (ds ++ Sent call words answer ∷ [])) }
    ensures on { (places : ℕ) (lists : Lists) (time call at : ℕ) (ds more : List Did) →
        IsSent call (slice_get ds at) → AreHeard places lists time (take at ds) →
        IsSent call (slice_get (ds ++ more) at)
        × AreHeard places lists time (take at (ds ++ more)) }
{}
