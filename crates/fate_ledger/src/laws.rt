//! Laws of the definitions, each the contract of a function that does nothing.

ghost use Rattle.std.specs.Prelude.{◌≡◌, ◌≢◌, ◌≤◌, ◌+◌, ℕ, List, Some, length, slice_get, filter};
ghost use Rattle.std.specs.Prelude.{map, All, Bool, true};
ghost use Rattle.packet_entry.specs.Numbers.{longest_packet, longest_payload};
ghost use Rattle.pcap_io.specs.declared.capture.Capture.{Capture as ACapture};
ghost use Rattle.pcap_io.specs.Text.{IsHeld};
ghost use Rattle.fate_ledger.specs.Fates.{happenings};
ghost use Rattle.pcap_io.specs.FramePackets.{AreRead};
ghost use Rattle.histories.specs.Lengths.{AreShort};
ghost use Rattle.fate_ledger.specs.Payloads.{IsPayload};
ghost use Rattle.std.specs.List.{zip, AllByRecursion};
ghost use Rattle.packet_entry.specs.declared.packet.Card.{Card as ACard};
ghost use Rattle.hook_chain.specs.Rules.{RuleTables};
ghost use Rattle.histories.specs.declared.histories.Lost.{Lost as ALost};
ghost use Rattle.histories.specs.Journeys.{AreSound};
ghost use Rattle.pcap_io.specs.declared.capture.Frame.{Frame as AFrame};
ghost use Rattle.histories.specs.History.{AreLegal};
ghost use Rattle.histories.specs.declared.entry.Entry.{Entry as AnEntry};
ghost use Rattle.histories.specs.declared.histories.Histories.{Histories as AllHistories};
ghost use Rattle.fate_ledger.specs.Fates.{fates};
ghost use Rattle.fate_ledger.specs.Laws.{AreApart, DifferInNumber, IsLastEvent, IsLineOf};
ghost use Rattle.fate_ledger.specs.Laws.{IsWritten, LeftForGood, LeftThere, Waits};
ghost use Rattle.fate_ledger.specs.Fates.{is_lost};
ghost use Rattle.std.specs.Prelude.{false};
ghost use Rattle.fate_ledger.specs.Ledger.{is_release};
ghost use Rattle.fate_ledger.specs.Origins.{AllArrive, AllAsk, IsKept};
ghost use Rattle.fate_ledger.specs.Released as released;
ghost use Rattle.fate_ledger.specs.declared.fate.Fate.TheVariants.{Waiting};
ghost use Rattle.fate_ledger.specs.declared.fate.FateLine.{FateLine as ALine};
ghost use Rattle.fate_ledger.specs.declared.happening.Happening.{Happening as AHappening};

use histories::each_stay_ends_once;
use queue_core::{
    an_arrival_leaves_as_its_outcome_says, replies_tell_how_many_left, what_is_flushed_is_destroyed,
};

/// Each line is that of the last event of its frame's packet: of an entry whose arrival is the
/// packet's, or in whose step the packet left, with its queue, its place, and the packet there
/// after its edits. No event of another entry has a greater visit, and none after it the same. A
/// frame whose packet has no event is unhooked. But the fate of a packet that the histories call
/// lost is `nomemory`, with an event and without.
pub fn each_line_names_the_last_event()
    ensures { (h : AllHistories) (frames : List AFrame) (place : ℕ) (f : AFrame) (l : ALine) →
        AreLegal h.entries → slice_get frames place ≡ Some f →
        slice_get (fates h frames) place ≡ Some l → IsLineOf h (place + 1) f l }
{
    replies_tell_how_many_left();
}

/// The packet of a last event left in that event's step, unless the event's fate is that it waits.
/// Then it waits at the end of that queue's history, provided that no two arrivals are of one
/// packet at one visit. Each stay ends once (`histories::each_stay_ends_once`), so a packet
/// that left didn't leave again at that visit.
pub fn the_last_event_is_where_it_left_or_waits()
    ensures left { (es : List AnEntry) (number : ℕ) (h : AHappening) → AreLegal es →
        IsLastEvent es number h → h.fate ≢ Waiting → LeftThere es h }
    ensures waits { (es : List AnEntry) (number : ℕ) (h : AHappening) → AreLegal es →
        AreApart es → IsLastEvent es number h → h.fate ≡ Waiting → Waits es h }
{
    replies_tell_how_many_left();
    each_stay_ends_once();
}

/// In sound histories no two arrivals are of one packet at one visit, where the packets that
/// entered have numbers of their own, as those of a capture's frames.
pub fn no_visit_arrives_twice()
    ensures { (tables : RuleTables) (key : ℕ) (entered : List ACard)
        (es : List AnEntry) (lost : List ALost) → DifferInNumber entered →
        AreSound tables key entered es lost → AreApart es }
{
    each_stay_ends_once();
}

/// The released capture has just the frames whose fate is a release, in the order of the capture,
/// each as it was read, or, where its packet was replaced, with its last payload behind its link
/// header.
pub fn released_frames_are_those_let_go()
    ensures order { (link : ℕ) (frames : List AFrame) (lines : List ALine) →
        length frames ≡ length lines →
        released.frames link frames lines
        ≡ map (λ p. released.written link p.0 p.1)
        (filter (λ p. is_release p.1.fate) (zip frames lines)) }
    ensures each { (link : ℕ) (f : AFrame) (l : ALine) →
        IsWritten link f l (released.written link f l) }
{}

/// What holds of the number and the bytes of each packet that entered, and of each payload that may
/// come with a verdict, holds of the packet of each event in sound histories.
pub fn what_holds_of_packets_stays_so()
    ensures { (tables : RuleTables) (key : ℕ) (entered : List ACard)
        (es : List AnEntry) (lost : List ALost) (test : ℕ → List ℕ → Bool) →
        ((number : ℕ) (bytes : List ℕ) → length bytes ≤ longest_payload →
        test number bytes ≡ true) →
        All (λ (c : ACard). test c.number c.bytes ≡ true) entered → AreShort es →
        AreSound tables key entered es lost →
        All (λ (h : AHappening). test h.card.number h.card.bytes ≡ true) (happenings es) }
{}

/// What holds of each packet that entered, and is kept by edits and on the way to the next table,
/// holds of each packet that arrives in sound histories. The payloads that are asked for pass a
/// test of their own, on which the edits may rest.
pub fn what_edits_keep_holds_of_each_that_arrives()
    ensures { (tables : RuleTables) (key : ℕ) (entered : List ACard)
        (es : List AnEntry) (lost : List ALost) (test : ACard → Bool) (given : List ℕ → Bool) →
        IsKept test (λ bytes. given bytes ≡ true) →
        AllByRecursion (λ (c : ACard). test c ≡ true) entered →
        AllAsk (λ bytes. given bytes ≡ true) es →
        AreSound tables key entered es lost → AllArrive test es }
{}

/// Where the packets that entered were read with the capture's frames, the payload of each line in
/// sound histories is the packet that its frame was read with, or no longer than a verdict's
/// payload may be, unless the packet has no event. So no payload is longer than a frame may be, nor
/// is a released frame, which is as it was read or has the payload behind its link header: the
/// released capture can be written.
pub fn payloads_were_read_or_given()
    ensures each { (tables : RuleTables) (key link : ℕ) (entered : List ACard)
        (h : AllHistories) (frames : List AFrame) → AreRead link frames entered →
        AreShort h.entries → AreSound tables key entered h.entries h.lost →
        (place : ℕ) (f : AFrame) (l : ALine) → slice_get frames place ≡ Some f →
        slice_get (fates h frames) place ≡ Some l → IsPayload link f l }
    ensures fit { (tables : RuleTables) (key link : ℕ) (entered : List ACard)
        (h : AllHistories) (frames : List AFrame) → AreRead link frames entered →
        AreShort h.entries → AreSound tables key entered h.entries h.lost →
        All (λ (f : AFrame). length f.bytes ≤ longest_packet) frames →
        All (λ (l : ALine). length l.payload ≤ longest_packet) (fates h frames) }
    ensures held { (tables : RuleTables) (key : ℕ) (entered : List ACard)
        (h : AllHistories) (c : ACapture) → AreRead c.link c.frames entered →
        AreShort h.entries → AreSound tables key entered h.entries h.lost → IsHeld c →
        IsHeld (released.released c (fates h c.frames)) }
{}

/// What left last is over, and its fate says how: in legal and sound histories the packet of a last
/// event left there for good, unless it waits or was lost. It was released where the fate is one of
/// the six releases, and destroyed where it is another.
pub fn what_left_last_is_over()
    ensures over { (tables : RuleTables) (key number : ℕ) (entered : List ACard)
        (es : List AnEntry) (lost : List ALost) (h : AHappening) → AreLegal es →
        AreSound tables key entered es lost → is_lost lost number ≡ false →
        IsLastEvent es number h → h.fate ≢ Waiting → LeftForGood tables key es h }
{
    replies_tell_how_many_left();
    what_is_flushed_is_destroyed();
    an_arrival_leaves_as_its_outcome_says();
}
