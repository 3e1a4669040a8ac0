//! How what is known of histories goes on, entry by entry: what each run rests on, whoever runs it.

ghost use Rattle.std.specs.Prelude.{◌≡◌, ◌≤◌, ◌<◌, ◌+◌, ◌*◌, ℕ, suc, true, false, Bool, Option};
ghost use Rattle.std.specs.Prelude.{List, [], ◌∷◌, ◌++◌, length, map, not};
ghost use Rattle.std.specs.List.{list_any};
ghost use Rattle.inspector_script.specs.Scripts.{ScriptValue};
ghost use Rattle.queue_core.specs.State.{Bound};
ghost use Rattle.queue_core.specs.Step.{step};
ghost use Rattle.queue_core.specs.declared.event.Event.{Event};
ghost use Rattle.histories.specs.declared.entry.Entry.{Entry};
ghost use Rattle.histories.specs.Numbers.{queue_count};
ghost use Rattle.histories.specs.History.{history, is_of};
ghost use Rattle.histories.specs.Happenings.{closings, downs};
ghost use Rattle.script_lines.specs.declared.line.Down.{Down};
ghost use Rattle.run_parts.specs.Closing.{is_bound_to, is_by, is_closed, is_closing_of};
ghost use Rattle.run_parts.specs.Closing.{IsClosing};
ghost use Rattle.run_parts.specs.Log.{after, AreNextFrom, IsNext, logged, Note, Standing};
ghost use Rattle.run_parts.specs.Log.{standing_from};
ghost use Rattle.run_parts.specs.Requests.{Plea, pleas_told};
ghost use Rattle.run_parts.specs.Feeder.{IsFed, IsNoDown, times_of_event};
ghost use Rattle.run_parts.specs.Order.{early_rank, IsOrdered, Kind, kind_at, kinds_from, kinds_of};
ghost use Rattle.run_parts.specs.Order.{late_ranks, Marked};
ghost use Rattle.run_parts.specs.Ports.{place_in};
ghost use Rattle.run_parts.specs.Underway.{AllFed, AllOrdered, AreOthers, Fed, IsNow, Ordered};
ghost use Rattle.run_parts.specs.Underway.{Told, unasked};

use histories::{a_closed_port_has_no_queues, a_device_that_packets_pass_leaves_nothing_waiting};

/// A log goes on with one thing more that the port does: it was next where the port stood, and the
/// port stands then where that leads to. What a port did is what is logged of it, its log has its
/// closing exactly where it isn't open any more, and a message more has the kind that it is due as.
pub fn logs_go_on()
    ensures next { (workers : ℕ) (script : ScriptValue) (place port : ℕ) (t : Standing)
        (notes : List Note) (n : Note) → AreNextFrom workers script place port t notes →
        IsNext workers (standing_from workers script place port t notes) n →
        AreNextFrom workers script place port t (notes ++ n ∷ []) }
    ensures stands { (workers : ℕ) (script : ScriptValue) (place port : ℕ) (t : Standing)
        (notes : List Note) (n : Note) →
        standing_from workers script place port t (notes ++ n ∷ [])
        ≡ after workers script place port (standing_from workers script place port t notes) n }
    ensures logged { (workers : ℕ) (script : ScriptValue) (place port : ℕ) (t : Standing)
        (notes : List Note) →
        (standing_from workers script place port t notes).dids ≡ t.dids ++ logged port notes }
    ensures closed { (workers : ℕ) (script : ScriptValue) (place port : ℕ) (t : Standing)
        (notes : List Note) → list_any is_closed t.dids ≡ not t.is_open →
        list_any is_closed (standing_from workers script place port t notes).dids
        ≡ not (standing_from workers script place port t notes).is_open }
    ensures kinds { (workers : ℕ) (script : ScriptValue) (place port queue : ℕ) (t : Standing)
        (notes : List Note) (n : Note) →
        kinds_from workers script place queue port t (notes ++ n ∷ [])
        ≡ kinds_from workers script place queue port t notes
        ++ map (λ (x : Plea). kind_at (standing_from workers script place port t notes))
        (pleas_told queue n) }
{}

/// What stands in a history of a port's closing stays so with entries of others, and of an open
/// port with its request; a port that closes has its closing then. No step but the port's request
/// binds a queue to it.
pub fn closings_are_kept()
    ensures others { (port queue : ℕ) (closed : Bool) (es fs : List Entry) → AreOthers port fs →
        IsClosing port closed (history queue es) →
        IsClosing port closed (history queue (es ++ fs)) }
    ensures own { (port queue : ℕ) (es : List Entry) (e : Entry) → is_closing_of port e ≡ false →
        IsClosing port false (history queue es) →
        IsClosing port false (history queue (es ++ e ∷ [])) }
    ensures closed { (port queue : ℕ) (es : List Entry) → queue < queue_count →
        IsClosing port false (history queue es) →
        IsClosing port true (history queue (es ++ closings port es)) }
    ensures frees { (port : ℕ) (q : Option Bound) (e : Event) → is_by port e ≡ false →
        is_bound_to port q ≡ false → is_bound_to port (step q e).state ≡ false }
{
    a_closed_port_has_no_queues();
}

/// Histories that were fed up to a time go on: with any entry that takes up no time and is no
/// device that goes down, with the first arrival of a later frame, with a port's closing, and with
/// a line.
pub fn fed_histories_go_on()
    ensures none { Fed 0 [] [] }
    ensures later { (time later : ℕ) (fallen more : List Down) (es : List Entry) →
        time ≤ later → fallen ≡ more → AllFed time fallen es → AllFed later more es }
    ensures first { (time number : ℕ) (fallen : List Down) (es : List Entry) (e : Entry) →
        IsNoDown e.event → times_of_event e.event ≡ 2 * number ∷ (2 * number + 1) ∷ [] →
        time ≤ 2 * number → AllFed time fallen es → AllFed (2 * number + 1) fallen (es ++ e ∷ []) }
    ensures entry { (time : ℕ) (fallen : List Down) (es : List Entry) (e : Entry) →
        IsNoDown e.event → IsNow time (times_of_event e.event) → AllFed time fallen es →
        AllFed time fallen (es ++ e ∷ []) }
    ensures closing { (time : ℕ) (fallen : List Down) (port : ℕ) (es : List Entry) →
        AllFed time fallen es → AllFed time fallen (es ++ closings port es) }
    ensures line { (time : ℕ) (fallen : List Down) (d : Down) (es : List Entry) →
        time ≤ 2 * d.after + 1 → AllFed time fallen es →
        AllFed (2 * d.after + 1) (fallen ++ d ∷ []) (es ++ downs d.device es) }
    ensures fed { (time : ℕ) (fallen : List Down) (h : List Entry) → Fed time fallen h →
        IsFed fallen h }
{
    a_closed_port_has_no_queues();
    a_device_that_packets_pass_leaves_nothing_waiting();
}

/// Histories that are in order go on: with an entry of the rank that is due, with one that is no
/// request, with the closing of the port that ends, and with devices that go down before all ends.
pub fn ordered_histories_go_on()
    ensures later { (ports : List ℕ) (early up late on : ℕ) (told more : Told) (es : List Entry) →
        early ≤ up → late ≤ on → ((queue port : ℕ) → told queue port ≡ more queue port) →
        AllOrdered ports early late told es → AllOrdered ports up on more es }
    ensures entry { (ports : List ℕ) (early late : ℕ) (told more : Told) (es : List Entry)
        (m : Marked) → early_rank ports m ≡ early → IsNow late (late_ranks ports m) →
        ((queue port : ℕ) → is_of queue m.entry ≡ false → told queue port ≡ more queue port) →
        ((queue port : ℕ) → is_of queue m.entry ≡ true →
        told queue port ++ kinds_of port m ≡ more queue port) →
        AllOrdered ports early late told es →
        AllOrdered ports early late more (es ++ m.entry ∷ []) }
    ensures unasked { (ports : List ℕ) (early late : ℕ) (told : Told) (es : List Entry)
        (e : Entry) → early_rank ports (unasked e) ≡ early →
        IsNow late (late_ranks ports (unasked e)) →
        ((port : ℕ) → kinds_of port (unasked e) ≡ []) → AllOrdered ports early late told es →
        AllOrdered ports early late told (es ++ e ∷ []) }
    ensures closing { (ports : List ℕ) (late port : ℕ) (told : Told) (es : List Entry) →
        late ≡ suc (place_in port ports) → AllOrdered ports (length ports) late told es →
        AllOrdered ports (length ports) late told (es ++ closings port es) }
    ensures devices { (ports : List ℕ) (device : ℕ) (told : Told) (es : List Entry) →
        AllOrdered ports (length ports) 0 told es →
        AllOrdered ports (length ports) 0 told (es ++ downs device es) }
    ensures ordered { (ports : List ℕ) (early late : ℕ) (told : ℕ → List Kind) (h : List Entry) →
        Ordered ports early late told h → IsOrdered ports told h }
{
    a_closed_port_has_no_queues();
    a_device_that_packets_pass_leaves_nothing_waiting();
}
