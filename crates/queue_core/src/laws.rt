//! Laws of the definitions, each the contract of a function that does nothing.

ghost use Rattle.std.specs.Prelude.{◌≡◌, ◌≢◌, ◌<◌, ℕ, List, ◌∷◌, length, filter, not, Option, Some};
ghost use Rattle.std.specs.Prelude.{Bool, false, true, Contains, reverse};
ghost use Rattle.packet_entry.specs.declared.packet.Card.{Card};
ghost use Rattle.nfqa_msgs.specs.Numbers.{eperm, enoent, ebusy, enodev};
ghost use Rattle.nfqa_msgs.specs.declared.request.Request.{Request};
ghost use Rattle.queue_core.specs.declared.event.Event.{Event};
ghost use Rattle.queue_core.specs.declared.event.Event.TheVariants.{Arrive, Ask};
ghost use Rattle.queue_core.specs.Numbers.{default_maximum, verdict_mask, bypass_bit, verdict_drop};
ghost use Rattle.queue_core.specs.Numbers.{verdict_accept, verdict_stolen, verdict_queue};
ghost use Rattle.queue_core.specs.Numbers.{verdict_repeat, verdict_stop, id_count};
ghost use Rattle.queue_core.specs.Ids.{fresh, IsFirstFree, after};
ghost use Rattle.queue_core.specs.State.{Bound};
ghost use Rattle.queue_core.specs.Linked.{Entries, IsLinked, followed, followed_back};
ghost use Rattle.queue_core.specs.Share.{share, IsLongestBefore, AscendFrom, AreIds};
ghost use Rattle.queue_core.specs.Step.{step, config, port_closed, device_down, ConfigAsk};
ghost use Rattle.queue_core.specs.Step.{is_decided_early};
ghost use Rattle.queue_core.specs.Laws.{IsConserving, Tells, AllAreGone, IsUntouched, AreApart};
ghost use Rattle.queue_core.specs.Laws.{HasIds, way_by};
ghost use Rattle.queue_core.specs.declared.event.Reply.TheVariants.{Arrived};
ghost use Rattle.queue_core.specs.declared.offers.Outcome.{Outcome};
ghost use Rattle.queue_core.specs.Step.{Way};

use crate::{
    ACCEPT, DEFAULT_MAXIMUM, DROP, EBUSY, ENODEV, ENOENT, EPERM, QUEUE, QUEUE_BYPASS, REPEAT,
    STOLEN, STOP, VERDICT_MASK,
};

/// Of the ids after the last one, counted on modulo 2^32, the fresh id is the first under which
/// nothing waits, as long as fewer than 2^32 packets wait.
pub fn first_free_id()
    ensures { (last : ℕ) (ids : List ℕ) → last < id_count → length ids < id_count →
        IsFirstFree last ids (fresh last ids) }
{}

/// The share of a batch is the longest list of packets that stand first among those that wait and
/// of which none has an id after the maximum.
pub fn share_is_the_longest()
    ensures { (waiting : List (ℕ × Card)) (maximum : ℕ) →
        IsLongestBefore waiting maximum (share waiting maximum) }
{}

/// Where the first id isn't after the maximum, and the ids ascend from it on by less than half of
/// all ids, the share is exactly the packets whose ids aren't after the maximum. Elsewhere the two
/// can differ: of ids 1 and 2147483650 with the maximum 2147483650 the share is empty, since 1 is
/// after the maximum, though the second isn't.
pub fn share_of_ascending_ids()
    ensures { (first : ℕ × Card) (others : List (ℕ × Card)) (maximum : ℕ) → maximum < id_count →
        AreIds (first ∷ others) → after first.0 maximum ≡ false →
        AscendFrom first.0 0 (first ∷ others) →
        share (first ∷ others) maximum
        ≡ filter (λ w. not (after w.0 maximum)) (first ∷ others) }
{}

/// Whether the port's mailbox had room matters to an arrival only where a notice is offered.
pub fn room_matters_where_a_notice_is_offered()
    ensures { (q : Option Bound) (card : Card) (bypass : Bool) → is_decided_early q card ≡ true →
        step q (Arrive card bypass true) ≡ step q (Arrive card bypass false) }
{}

/// A step loses no packet and doubles none: each that waited or arrives waits afterwards or leaves.
pub fn each_packet_stays_or_leaves()
    ensures { (q : Option Bound) (e : Event) → IsConserving q e }
{}

/// A reply is of its event's kind, and tells how many packets left: one to a request, a closed port
/// or a device has the number, and one to an arrival says whether its packet waits or left.
pub fn replies_tell_how_many_left()
    ensures { (q : Option Bound) (e : Event) →
        let s = step q e in Tells e s.reply (length s.left) }
{}

/// What leaves in the step of a config request, of a closed port or of a device that goes down is
/// destroyed: none of it goes on.
pub fn what_is_flushed_is_destroyed()
    ensures config { (q : Option Bound) (port : ℕ) (ask : ConfigAsk) →
        AllAreGone (config q port ask) }
    ensures port { (q : Option Bound) → AllAreGone (port_closed q) }
    ensures device { (q : Option Bound) (device : ℕ) → AllAreGone (device_down q device) }
{}

/// A request of another port than the queue's changes nothing.
pub fn another_port_changes_nothing()
    ensures { (q : Bound) (port call : ℕ) (request : Request) → port ≢ q.port →
        IsUntouched (Some q) (step (Some q) (Ask port call request)) }
{}

/// Where no two packets wait under one id, none do after a step either, as long as ids are below
/// 2^32 and fewer than 2^32 packets wait.
pub fn ids_stay_apart()
    ensures { (q : Option Bound) (e : Event) → HasIds q → AreApart q → AreApart (step q e).state }
{}

/// Where packets are linked by the ids of their neighbours, following the younger ones from the
/// oldest gives each of them once, in order of arrival, and following the older ones from the
/// youngest gives the same list turned round.
pub fn neighbours_lead_both_ways()
    ensures younger { (entries : Entries) (oldest youngest : Option ℕ) (waiting : List (ℕ × Card)) →
        IsLinked entries oldest youngest waiting →
        followed (length entries) entries oldest ≡ waiting }
    ensures older { (entries : Entries) (oldest youngest : Option ℕ) (waiting : List (ℕ × Card)) →
        IsLinked entries oldest youngest waiting →
        followed_back (length entries) entries youngest ≡ reverse waiting }
{}

/// What leaves in an arrival's step is the packet that arrives, and it is let through or destroyed
/// as the outcome says.
pub fn an_arrival_leaves_as_its_outcome_says()
    ensures { (q : Option Bound) (card : Card) (bypass room : Bool) (o : Outcome)
        (l : Card × Way) → (step q (Arrive card bypass room)).reply ≡ Arrived o →
        Contains (step q (Arrive card bypass room)).left l → l ≡ (card, way_by o) }
{}

/// The public numbers of this crate are those of the definitions.
pub fn public_numbers()
    ensures drop { DROP ≡ verdict_drop }
    ensures accept { ACCEPT ≡ verdict_accept }
    ensures stolen { STOLEN ≡ verdict_stolen }
    ensures queue { QUEUE ≡ verdict_queue }
    ensures repeat { REPEAT ≡ verdict_repeat }
    ensures stop { STOP ≡ verdict_stop }
    ensures mask { VERDICT_MASK ≡ verdict_mask }
    ensures bypass { QUEUE_BYPASS ≡ bypass_bit }
    ensures not_permitted { EPERM ≡ eperm }
    ensures no_entry { ENOENT ≡ enoent }
    ensures busy { EBUSY ≡ ebusy }
    ensures no_device { ENODEV ≡ enodev }
    ensures maximum { DEFAULT_MAXIMUM ≡ default_maximum }
{}
