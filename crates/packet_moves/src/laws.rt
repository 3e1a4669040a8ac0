//! Laws of the definitions, each the contract of a function that does nothing.

ghost use Rattle.std.specs.Prelude.{◌≡◌, ◌<◌, ◌≤◌, ◌^◌, ◌∷◌, ◌++◌, ℕ, Bool, List, [], Option};
ghost use Rattle.std.specs.Prelude.{length};
ghost use Rattle.histories.specs.States.{waiting_at};
ghost use Rattle.packet_entry.specs.declared.packet.Card.{Card};
ghost use Rattle.netlink_codec.specs.Messages.{NetlinkMessage, Front};
ghost use Rattle.nfqa_msgs.specs.declared.request.Request.{Request};
ghost use Rattle.nfqa_msgs.specs.RequestReading.{decoded};
ghost use Rattle.nfqa_msgs.specs.RequestWriting.{spelling, FitsRequest};
ghost use Rattle.histories.specs.declared.log.AskWords.TheVariants.{Plain, Raw};
ghost use Rattle.histories.specs.declared.entry.Entry.{Entry};
ghost use Rattle.histories.specs.History.{AreLegal};
ghost use Rattle.histories.specs.Happenings.{all_handed, closings, downs};
ghost use Rattle.queue_core.specs.State.{Bound};
ghost use Rattle.queue_core.specs.declared.event.Event.TheVariants.{Arrive, Ask};
ghost use Rattle.queue_core.specs.Laws.{times, waiting_in};
ghost use Rattle.queue_core.specs.Step.{step};
ghost use Rattle.packet_moves.specs.declared.fed.Fed.{Fed};
ghost use Rattle.packet_moves.specs.declared.setting.Setting.{Setting};
ghost use Rattle.packet_moves.specs.World.{World};
ghost use Rattle.packet_moves.specs.Planes.{IsFed, beginning, with_closed, without_device};
ghost use Rattle.packet_moves.specs.Messages.{Sends, words_of};
ghost use Rattle.packet_moves.specs.HandedOn.{AreInTime, LeavesAlone, WaitInTime, is_out_of_time};
ghost use Rattle.packet_moves.specs.Soundness.{IsSound};

use histories::{a_legal_history_goes_on, an_entry_is_a_move, soundness_is_kept_move_by_move};
use netlink_codec::one_message_in_front;
use nfqa_msgs::spelling_decodes_to_its_request;
use queue_core::{each_packet_stays_or_leaves, what_is_flushed_is_destroyed};

/// The histories of a plane stay sound for the packets that were fed and those that were lost, and
/// legal: through feeding and messages always, and where a port closes or a device goes down if the
/// entries are legal with that. At legal histories no packet waits that has been queued more than
/// 32 times.
pub fn histories_stay_sound()
    ensures begins { (s : Setting) (order : List ℕ) → IsSound s [] (beginning order) }
    ensures fed { (s : Setting) (old new : World) (card : Card) (fed : Fed) → card.visit ≡ 0 →
        IsFed s old card new fed → IsSound s [] old → IsSound s [] new }
    ensures sent { (s : Setting) (port : ℕ) (front : Option (NetlinkMessage × ℕ))
        (old new : World) (before after : List ℕ) (used : ℕ) →
        Sends s port front old new before after used → IsSound s [] old → IsSound s [] new }
    ensures closed { (s : Setting) (port : ℕ) (w : World) →
        AreLegal (w.entries ++ closings port w.entries) → IsSound s [] w →
        IsSound s [] (with_closed w port) }
    ensures down { (s : Setting) (device : ℕ) (w : World) →
        AreLegal (w.entries ++ downs device w.entries) → IsSound s [] w →
        IsSound s [] (without_device w device) }
    ensures in_time { (es : List Entry) → AreLegal es → WaitInTime es }
{
    each_packet_stays_or_leaves();
    what_is_flushed_is_destroyed();
    an_entry_is_a_move();
    a_legal_history_goes_on();
    soundness_is_kept_move_by_move();
}

/// A packet that is fed is one more of those that were fed, and no message adds to them.
pub fn only_feeding_feeds()
    ensures fed { (s : Setting) (old new : World) (card : Card) (fed : Fed) →
        IsFed s old card new fed → new.fed ≡ old.fed ++ card ∷ [] }
    ensures sent { (s : Setting) (port : ℕ) (front : Option (NetlinkMessage × ℕ))
        (old new : World) (before after : List ℕ) (used : ℕ) →
        Sends s port front old new before after used → new.fed ≡ old.fed }
{}

/// A message is logged in words exactly where its own bytes are the one spelling of a request with
/// the sender's port and the message's number, and else as these bytes.
pub fn words_are_the_one_spelling()
    ensures words { (port call : ℕ) (m : NetlinkMessage) (request : Request) →
        words_of port call m.whole (decoded m) ≡ Plain request →
        m.whole ≡ spelling port call request }
    ensures bytes { (port call : ℕ) (m : NetlinkMessage) (bytes : List ℕ) →
        words_of port call m.whole (decoded m) ≡ Raw bytes → bytes ≡ m.whole }
    ensures spelled { (port call : ℕ) (request : Request) (bytes : List ℕ) (m : NetlinkMessage)
        (used : ℕ) → port < 2 ^ 32 → call < 2 ^ 32 → FitsRequest request → Front bytes m used →
        m.whole ≡ spelling port call request →
        words_of port call m.whole (decoded m) ≡ Plain request }
{
    spelling_decodes_to_its_request();
    one_message_in_front();
}

/// In an arrival's step nothing leaves but the packet that arrives, and at its last visit it
/// doesn't go on. Where no packet waits that is out of time, a request lets none go on that is; and
/// it lets no more go on than wait.
pub fn what_goes_on_is_in_time()
    ensures arrival { (q : Option Bound) (card : Card) (bypass room : Bool) →
        LeavesAlone card (step q (Arrive card bypass room)) }
    ensures request { (q : Option Bound) (port call : ℕ) (request : Request) →
        times (λ number visit. is_out_of_time visit) (waiting_in q) ≡ 0 →
        AreInTime (all_handed (step q (Ask port call request)).left) }
    ensures few { (q : Option Bound) (port call : ℕ) (request : Request) →
        length (all_handed (step q (Ask port call request)).left) ≤ waiting_at q }
{
    each_packet_stays_or_leaves();
}
