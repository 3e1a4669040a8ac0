//! Laws of journeys: how soundness is kept, move by move.

ghost use Rattle.std.specs.Prelude.{◌≡◌, ◌≢◌, ℕ, ◌+◌, ◌==◌, List, [], ◌∷◌, ◌++◌, count_by};
ghost use Rattle.packet_entry.specs.declared.packet.Card.{Card};
ghost use Rattle.hook_chain.specs.Rules.{RuleTables};
ghost use Rattle.histories.specs.declared.entry.Entry.{Entry};
ghost use Rattle.histories.specs.declared.histories.Lost.{Lost};
ghost use Rattle.histories.specs.Moves.{Move, moves, move_after};
ghost use Rattle.histories.specs.Journeys.{Arrival, IsSoundBut, AreSound, entering, asks, came};
ghost use Rattle.histories.specs.Journeys.{visit_of};
ghost use Rattle.histories.specs.Endings.{AreQueuesOf, times_waiting, times_over};
ghost use Rattle.histories.specs.Endings.{times_entered};
ghost use Rattle.histories.specs.History.{history};

use crate::each_stay_ends_once;

/// One entry more is one move more, with what left its queue in its step.
pub fn an_entry_is_a_move()
    ensures { (es : List Entry) (e : Entry) →
        moves (es ++ e ∷ []) ≡ moves es ++ move_after es e ∷ [] }
{}

/// Soundness begins with nothing, and is kept as a packet enters, whose first arrival is then owed;
/// as an owed arrival comes, and what leaves in its step is owed; and as an owed arrival is lost
/// that isn't a first one. Where nothing is owed any more, the moves are sound.
pub fn soundness_is_kept_move_by_move()
    ensures nothing { (tables : RuleTables) (key : ℕ) → IsSoundBut tables key [] [] [] [] }
    ensures enters { (tables : RuleTables) (key : ℕ) (card : Card) (owed : List Arrival)
        (entered : List Card) (ms : List Move) (lost : List Lost) →
        IsSoundBut tables key owed entered ms lost →
        IsSoundBut tables key (entering tables key card ++ owed) (entered ++ card ∷ []) ms lost }
    ensures comes { (tables : RuleTables) (key : ℕ) (m : Move) (owed : List Arrival)
        (entered : List Card) (ms : List Move) (lost : List Lost) →
        IsSoundBut tables key (came m ++ owed) entered ms lost →
        IsSoundBut tables key (asks tables key m ++ owed) entered (ms ++ m ∷ []) lost }
    ensures lost { (tables : RuleTables) (key : ℕ) (a : Arrival) (owed : List Arrival)
        (entered : List Card) (ms : List Move) (lost : List Lost) → a.card.visit ≢ 1 →
        IsSoundBut tables key (a ∷ owed) entered ms lost →
        IsSoundBut tables key owed entered ms (lost ++ visit_of a ∷ []) }
{}

/// Each packet that entered and was queued waits, was lost, or is over: in sound histories it is
/// just one of the three, once for each time that it entered, whichever queues it went through.
pub fn each_packet_waits_is_lost_or_is_over()
    ensures { (tables : RuleTables) (key number : ℕ) (queues : List ℕ)
        (entered : List Card) (es : List Entry) (lost : List Lost) →
        AreQueuesOf es queues → AreSound tables key entered es lost →
        times_waiting number queues es + count_by (λ (l : Lost). l.number == number) lost
        + times_over tables key number (moves es)
        ≡ times_entered tables key number entered }
{
    each_stay_ends_once();
}

/// Soundness is a matter of each queue's history: it doesn't depend on how the entries of several
/// queues interleave.
pub fn soundness_is_of_each_queue()
    ensures { (tables : RuleTables) (key : ℕ) (entered : List Card) (es gs : List Entry)
        (lost : List Lost) → ((queue : ℕ) → history queue gs ≡ history queue es) →
        AreSound tables key entered es lost → AreSound tables key entered gs lost }
{}
