//! Laws of the definitions, each the contract of a function that does nothing.

ghost use Rattle.std.specs.Prelude.{◌≡◌, ◌≢◌, ℕ, List, [], ◌∷◌, ◌++◌, Option, Some, IfSome, IsSome};
ghost use Rattle.std.specs.Prelude.{Bool, true, false};
ghost use Rattle.packet_entry.specs.declared.packet.Card.{Card};
ghost use Rattle.packet_entry.specs.declared.letter.Letter.{Letter};
ghost use Rattle.nfqa_msgs.specs.declared.request.Request.{Request};
ghost use Rattle.queue_core.specs.declared.event.Event.TheVariants.{Ask};
ghost use Rattle.queue_core.specs.declared.offers.Outcome.{Outcome};
ghost use Rattle.mailbox.specs.Views.{SenderView, sender_with, sender_back};
ghost use Rattle.histories.specs.declared.entry.Entry.{Entry};
ghost use Rattle.histories.specs.Journeys.{Arrival};
ghost use Rattle.histories.specs.States.{entry_of};
ghost use Rattle.histories.specs.Happenings.{arrive, queue_of, closings, downs};
ghost use Rattle.place_history.specs.Calls.{IsOffered, IsTurnedAway};
ghost use Rattle.locked_place.specs.Points.{points, point_after};
ghost use Rattle.locked_place.specs.Mails.{MailsGoOn};
ghost use Rattle.locked_place.specs.Views.{AreNotified};

use histories::{a_legal_history_goes_on, an_entry_is_of_its_queue_alone};
use queue_core::replies_tell_how_many_left;

/// One entry more is one point more, at its queue's state.
pub fn an_entry_is_a_point()
    ensures { (es : List Entry) (e : Entry) →
        points (es ++ e ∷ []) ≡ points es ++ point_after es e ∷ [] }
{}

/// What senders sent goes on being what the list says, whatever happens. An arrival that is turned
/// away before a notice is offered asks for nothing. The port of a notice that is offered has a
/// sender; where the mailbox takes the notice, this sender has sent it, and else a letter has come
/// back to it. Requests, closed ports and devices send nothing, and a queue is bound afterwards to
/// the port that it was bound to or to the one that asked.
pub fn senders_keep_up()
    ensures turned_away { (es : List Entry) (a : Arrival) (outcome : Outcome) (back : Card)
        (senders : ℕ → Option SenderView) → AreNotified es senders →
        IsTurnedAway a true outcome back es →
        AreNotified (es ++ entry_of es a.queue (arrive a true) ∷ []) senders }
    ensures has_sender { (es : List Entry) (a : Arrival) (port : ℕ) (letter : Letter)
        (senders : ℕ → Option SenderView) → AreNotified es senders →
        IsOffered a port letter es → IsSome (senders port) }
    ensures offered { (es : List Entry) (a : Arrival) (room : Bool) (port : ℕ) (letter : Letter)
        (olds news : ℕ → Option SenderView) → AreNotified es olds →
        IsOffered a port letter es →
        (room ≡ true → IfSome (olds port) (λ s. (time : ℕ) × (news port
        ≡ Some (sender_with s (record { letter = letter; time = time }))))) →
        (room ≡ false → IfSome (olds port) (λ s. news port ≡ Some (sender_back s))) →
        ((p : ℕ) → p ≢ port → news p ≡ olds p) →
        AreNotified (es ++ entry_of es a.queue (arrive a room) ∷ []) news }
    ensures asked { (es : List Entry) (port call : ℕ) (r : Request)
        (senders : ℕ → Option SenderView) → AreNotified es senders → IsSome (senders port) →
        AreNotified (es ++ entry_of es (queue_of r) (Ask port call r) ∷ []) senders }
    ensures closed { (es : List Entry) (port : ℕ) (senders : ℕ → Option SenderView) →
        AreNotified es senders → AreNotified (es ++ closings port es) senders }
    ensures down { (es : List Entry) (device : ℕ) (senders : ℕ → Option SenderView) →
        AreNotified es senders → AreNotified (es ++ downs device es) senders }
{
    an_entry_is_of_its_queue_alone();
    a_legal_history_goes_on();
    replies_tell_how_many_left();
}

/// The same of the mails that they sent, each with the time of the entry that put it in: what is
/// appended, and what is sent meanwhile, has one time.
pub(crate) fn mails_keep_up()
    ensures turned_away { (es : List Entry) (a : Arrival) (outcome : Outcome) (back : Card)
        (time : ℕ) (senders : ℕ → Option SenderView) → IsTurnedAway a true outcome back es →
        MailsGoOn time es senders (es ++ entry_of es a.queue (arrive a true) ∷ []) senders }
    ensures offered { (es : List Entry) (a : Arrival) (room : Bool) (port : ℕ) (letter : Letter)
        (time : ℕ) (olds news : ℕ → Option SenderView) → IsSome (olds port) →
        IsOffered a port letter es →
        (room ≡ true → IfSome (olds port) (λ s. news port
        ≡ Some (sender_with s (record { letter = letter; time = time })))) →
        (room ≡ false → IfSome (olds port) (λ s. news port ≡ Some (sender_back s))) →
        ((p : ℕ) → p ≢ port → news p ≡ olds p) →
        MailsGoOn time es olds (es ++ entry_of es a.queue (arrive a room) ∷ []) news }
    ensures asked { (es : List Entry) (port call : ℕ) (r : Request) (time : ℕ)
        (senders : ℕ → Option SenderView) →
        MailsGoOn time es senders (es ++ entry_of es (queue_of r) (Ask port call r) ∷ []) senders }
    ensures closed { (es : List Entry) (port time : ℕ) (senders : ℕ → Option SenderView) →
        MailsGoOn time es senders (es ++ closings port es) senders }
    ensures down { (es : List Entry) (device time : ℕ) (senders : ℕ → Option SenderView) →
        MailsGoOn time es senders (es ++ downs device es) senders }
{
    an_entry_is_of_its_queue_alone();
    a_legal_history_goes_on();
    replies_tell_how_many_left();
}
