//! Laws of the definitions, each the contract of a function that does nothing.

ghost use Rattle.std.specs.Prelude.{◌≡◌, ℕ, List, [], ◌∷◌, ◌++◌, Option, Some, slice_get};
ghost use Rattle.mailbox.specs.declared.view.Post.{Post};
ghost use Rattle.packet_entry.specs.declared.packet.Card.{Card};
ghost use Rattle.netlink_codec.specs.Messages.{NetlinkMessage};
ghost use Rattle.histories.specs.declared.log.Did.{Did};
ghost use Rattle.histories.specs.declared.log.Did.TheVariants.{Closed};
ghost use Rattle.packet_moves.specs.declared.fed.Fed.{Fed};
ghost use Rattle.packet_moves.specs.declared.setting.Setting.{Setting};
ghost use Rattle.locked_place.specs.Turns.{GoesDownIn};
ghost use Rattle.place_rows.specs.Rows.{Known, TimedKnown, TurnsOne};
ghost use Rattle.place_rows.specs.Shares.{IsBalanced};
ghost use Rattle.place_turns.specs.Trails.{Trail, MayLook, parts_of};
ghost use Rattle.place_turns.specs.Moving.{IsFed};
ghost use Rattle.place_turns.specs.Messages.{Sends};
ghost use Rattle.place_turns.specs.Timely.{AreTimely, AreTimelyOpen, port_with};

use histories::each_front_of_a_legal_history_is_legal;
use packet_moves::{histories_stay_sound, what_goes_on_is_in_time};
use place_rows::rows_stay_balanced;

/// Passes stay balanced, call by call.
pub fn passes_stay_balanced()
    ensures fed { (places : ℕ) (s : Setting) (entered : List Card) (card : Card) (old new : Trail)
        (f : Fed) → card.visit ≡ 0 → IsFed places s old card new f →
        IsBalanced s entered old.known old.lost →
        IsBalanced s (entered ++ card ∷ []) new.known new.lost }
    ensures sent { (places : ℕ) (s : Setting) (entered : List Card) (port : ℕ)
        (front : Option (NetlinkMessage × ℕ)) (dids logged : List Did) (old new : Trail)
        (before after : List ℕ) (used : ℕ) →
        Sends places s port front dids logged old new before after used →
        IsBalanced s entered old.known old.lost → IsBalanced s entered new.known new.lost }
    ensures looked { (s : Setting) (entered : List Card) (old new : Trail) → MayLook old new →
        IsBalanced s entered old.known old.lost → IsBalanced s entered new.known new.lost }
{
    what_goes_on_is_in_time();
    each_front_of_a_legal_history_is_legal();
    histories_stay_sound();
    rows_stay_balanced();
}

/// No call changes the parts of the locks that its pass has.
pub fn passes_keep_their_parts()
    ensures fed { (places : ℕ) (s : Setting) (card : Card) (old new : Trail) (f : Fed) →
        IsFed places s old card new f → parts_of new.known ≡ parts_of old.known }
    ensures sent { (places : ℕ) (s : Setting) (port : ℕ) (front : Option (NetlinkMessage × ℕ))
        (dids logged : List Did) (old new : Trail) (before after : List ℕ) (used : ℕ) →
        Sends places s port front dids logged old new before after used →
        parts_of new.known ≡ parts_of old.known }
    ensures looked { (old new : Trail) → MayLook old new →
        parts_of new.known ≡ parts_of old.known }
    ensures down { (device place count : ℕ) (olds news : List Known) →
        TurnsOne place olds news (λ v w. GoesDownIn device v w count) →
        parts_of news ≡ parts_of olds }
{}

/// Passes that have seen nothing are timely at time 0, whoever has them. A port's passes stay
/// timely as its log says that it closed.
pub fn passes_begin_and_end_timely()
    ensures begins { (row : List TimedKnown) (port : Option ℕ) →
        ((k : ℕ) (v : TimedKnown) → slice_get row k ≡ Some v → (v.seen ≡ []) × (v.own ≡ [])) →
        AreTimelyOpen 0 row (record { port = port; dids = []; heard = [] }) }
    ensures closed { (clock : ℕ) (row : List TimedKnown) (port : ℕ) (dids : List Did)
        (heard : List Post) → AreTimely clock row (port_with port dids heard) →
        AreTimely clock row (port_with port (dids ++ Closed ∷ []) heard) }
{}
