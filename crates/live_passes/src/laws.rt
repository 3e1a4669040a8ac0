//! What the calls of a plane do to the passes of a run.

ghost use Rattle.std.specs.Prelude.{◌≡◌, ℕ, List, [], length, Option, Some, None};
ghost use Rattle.std.specs.Prelude.{slice_get};
ghost use Rattle.packet_entry.specs.declared.packet.Card.{Card};
ghost use Rattle.packet_entry.specs.declared.letter.Letter.{Letter};
ghost use Rattle.netlink_codec.specs.Messages.{NetlinkMessage};
ghost use Rattle.hook_chain.specs.Route.{next};
ghost use Rattle.histories.specs.declared.entry.Entry.{Entry};
ghost use Rattle.histories.specs.declared.log.Did.{Did};
ghost use Rattle.packet_moves.specs.declared.fed.Fed.{Fed};
ghost use Rattle.packet_moves.specs.declared.setting.Setting.{Setting};
ghost use Rattle.turn_lock.specs.Views.{HasSeenOwn};
ghost use Rattle.locked_place.specs.Turns.{GoesDownIn};
ghost use Rattle.place_rows.specs.Joining.{Begins};
ghost use Rattle.place_rows.specs.Meeting.{Sees, SharesAlone};
ghost use Rattle.place_rows.specs.Rows.{Known, TurnsOne};
ghost use Rattle.place_rows.specs.Shares as row;
ghost use Rattle.place_turns.specs.Messages.{Sends};
ghost use Rattle.place_turns.specs.Moving.{IsFed};
ghost use Rattle.plane.specs.Passes as view;
ghost use Rattle.plane.specs.Passes.{PortView};
ghost use Rattle.place_turns.specs.Trails.{MayLook, Trail};
ghost use Rattle.live_runs.specs.Calls.{Falls, Feeds};
ghost use Rattle.live_runs.specs.ClosedPlanes.{own_taken};
ghost use Rattle.live_runs.specs.Locks.{marked};
ghost use Rattle.live_runs.specs.Passes.{Receives, Shuts, SpeaksFirst};
ghost use Rattle.live_runs.specs.Seen.{Grows, IsNone};
ghost use Rattle.live_passes.specs.Views.{HasMetAt, HaveSeenOwn, pass_with, port_pass};
ghost use Rattle.live_passes.specs.Views.{shares_of};

use histories::each_front_of_a_legal_history_is_legal;
use live_runs::a_turn_of_a_lock_is_one_of_its_pass;
use packet_moves::{histories_stay_sound, what_goes_on_is_in_time};

/// A port that sends the first message of some bytes, receives a letter or closes does so by its
/// pass; a look at an empty mailbox changes nothing, and one at a place appends nothing.
pub fn ports_speak_by_their_passes()
    ensures sends { (places : ℕ) (s : Setting) (port : ℕ)
        (front : Option (NetlinkMessage × ℕ)) (dids logged : List Did) (letters : List Letter)
        (old new : Trail) (before after : List ℕ) (used : ℕ) → HaveSeenOwn old.known →
        Sends places s port front dids logged old new before after used →
        SpeaksFirst places port front (pass_with dids letters old.known)
        (pass_with logged letters new.known) used }
    ensures receives { (old new : PortView) (l : Letter) → view.Receives old new (Some l) →
        Receives l (port_pass old) (port_pass new) }
    ensures finds_none { (old new : PortView) → view.Receives old new None →
        port_pass new ≡ port_pass old }
    ensures closes { (places : ℕ) (old new : PortView) → HaveSeenOwn old.trail.known →
        places ≡ length old.trail.known → view.Closes places old new →
        Shuts places old.port (port_pass old) (port_pass new) }
    ensures looks { (old new : Trail) → HaveSeenOwn old.known → MayLook old new → (k : ℕ) →
        Grows IsNone (shares_of old.known k) (shares_of new.known k) }
{
    a_turn_of_a_lock_is_one_of_its_pass();
    each_front_of_a_legal_history_is_legal();
    histories_stay_sound();
    what_goes_on_is_in_time();
}

/// Who feeds a packet does so by the pass that feeds, by the packet's way through the tables; and a
/// device goes down at a place by it.
pub fn feeders_feed_their_passes()
    ensures feeds { (places : ℕ) (s : Setting) (old new : Trail) (card : Card) (f : Fed) →
        card.visit ≡ 0 → HaveSeenOwn old.known → IsFed places s old card new f →
        Feeds places (next s.tables s.key card 1) card (shares_of old.known)
        (shares_of new.known) }
    ensures falls { (device place count : ℕ) (olds news : List Known) → HaveSeenOwn olds →
        TurnsOne place olds news (λ v w. GoesDownIn device v w count) →
        Falls device place (shares_of olds) (shares_of news) }
{
    a_turn_of_a_lock_is_one_of_its_pass();
    each_front_of_a_legal_history_is_legal();
    histories_stay_sound();
    what_goes_on_is_in_time();
}

/// How many notices a pass sent to a port at a place, by the places of its own entries, is what its
/// marked entries say.
pub fn what_was_sent_is_marked()
    ensures { (port : ℕ) (v : Known) → HasSeenOwn v →
        row.sent_at port v ≡ own_taken port [] (marked v.own v.seen) }
{}

/// A pass that has met others, so that at a place it has seen a list that they have seen too, has
/// seen more there, none of which is its own.
pub fn passes_that_meet_see_the_same()
    ensures { (k : ℕ) (list : List Entry) (old new : List Known) (v w : Known) →
        slice_get old k ≡ Some v → slice_get new k ≡ Some w → SharesAlone old new →
        Sees k list new → Begins k list old → HaveSeenOwn old → HasMetAt k list old new }
{
    a_turn_of_a_lock_is_one_of_its_pass();
}
