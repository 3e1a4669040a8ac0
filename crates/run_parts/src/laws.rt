//! What is known of histories that a script made, of what enters, and of what is sent.

ghost use Rattle.std.specs.Prelude.{◌≤◌, ℕ, List};
ghost use Rattle.std.specs.Prelude.{◌≡◌, ◌≢◌, [], All, AllPairs, length, true};
ghost use Rattle.pcap_io.specs.declared.capture.Capture.{Capture};
ghost use Rattle.histories.specs.declared.histories.Histories.{Histories};
ghost use Rattle.inspector_script.specs.Scripts.{ScriptValue};
ghost use Rattle.run_parts.specs.Log.{Note, Got, Turned, Standing, after, having, all_due, start};
ghost use Rattle.run_parts.specs.Log.{answer_to, IsNext, AreNextFrom, is_pool, standing};
ghost use Rattle.run_parts.specs.LoggedExamples.{heard, turned};
ghost use Rattle.nfqa_msgs.specs.NoticeTexts.{told_exactly};
ghost use Rattle.run_parts.specs.Feeder.{IsFed, IsFedBy};
ghost use Rattle.script_lines.specs.declared.line.Down.{Down};
ghost use Rattle.histories.specs.declared.entry.Entry.{Entry};
ghost use Rattle.packet_entry.specs.declared.letter.Letter.{Letter};
ghost use Rattle.packet_entry.specs.Numbers.{longest_payload};
ghost use Rattle.histories.specs.declared.log.AskWords.{AskWords};
ghost use Rattle.script_lines.specs.Limits.{IsWords};
ghost use Rattle.run_parts.specs.Datagrams.{bytes_of};
ghost use Rattle.run_parts.specs.Entering.{cards};
ghost use Rattle.pcap_io.specs.FramePackets.{AreRead};
ghost use Rattle.run_parts.specs.Run.{IsMadeBy};
ghost use Rattle.run_parts.specs.Run.{IsTold};
ghost use Rattle.run_parts.specs.Ports.{HavePlaces};
ghost use Rattle.run_parts.specs.Datagrams.{AsksWell, messages_in};

use netlink_codec::{written_attributes_are_walked, written_message_is_in_front};

/// Ports that differ have one place each.
pub fn each_port_has_its_place()
    ensures { (script : ScriptValue) → AllPairs (λ p q. p ≢ q) script.ports → HavePlaces script }
{}

/// Each log of histories that a script made is what is told of its port, with the answers.
pub fn each_log_is_what_is_told()
    ensures { (workers feeders : ℕ) (script : ScriptValue) (frames : ℕ) (h : Histories)
        (notes : ℕ → List Note) (left : ℕ → List Letter) → AllPairs (λ p q. p ≢ q) script.ports →
        IsMadeBy workers feeders script frames h notes left →
        All (IsTold workers script notes) h.logs }
{}

/// With one worker no answers wait: a port owes the answers to a notice as soon as it has received
/// it, and never turns to others.
pub fn one_worker_is_no_pool()
    ensures owed { (script : ScriptValue) (place port : ℕ) (t : Standing) (l : Letter) →
        after 1 script place port t (Got l)
        ≡ record (having port (Got l) t) {
          owed = all_due (answer_to script place (having port (Got l) t).dids
              (told_exactly l.bytes));
        } }
    ensures never_turns { (t : Standing) → IsNext 1 t Turned → ⊥ }
    ensures nothing_waits { (script : ScriptValue) (place port : ℕ) (notes : List Note) →
        AreNextFrom 1 script place port (start script place) notes →
        (standing 1 script place port notes).pending ≡ [] }
{}

/// Behind a pool the answers to two notices that a port received, one after the other, are two
/// groups that wait, and the port turns to that of the first notice before that of the second.
pub fn groups_of_answers_stand_in_the_order_of_notices()
    ensures first { (workers : ℕ) (script : ScriptValue) (place port : ℕ) (t : Standing)
        (one two : Letter) → is_pool workers ≡ true →
        (turned workers script place port (heard workers script place port t one two)).owed
        ≡ all_due (answer_to script place (having port (Got one) t).dids (told_exactly one.bytes)) }
    ensures second { (workers : ℕ) (script : ScriptValue) (place port : ℕ) (t : Standing)
        (one two : Letter) → is_pool workers ≡ true →
        (turned workers script place port
        (turned workers script place port (heard workers script place port t one two))).owed
        ≡ all_due (answer_to script place (having port (Got two) (having port (Got one) t)).dids
        (told_exactly two.bytes)) }
{}

/// One feeder feeds all frames, in their order, and lets all lines take effect, in theirs.
pub fn one_feeder_feeds_all()
    ensures fed { (downs : List Down) (h : List Entry) → IsFed downs h → IsFedBy 1 downs h }
    ensures all { (downs : List Down) (h : List Entry) → IsFedBy 1 downs h → IsFed downs h }
{}

/// The bytes of an ask are no longer than one attribute may be. So none of its messages asks for a
/// payload that is longer, nor does any message of a datagram that isn't longer.
pub fn datagrams_are_short()
    ensures bytes { (port call : ℕ) (words : AskWords) → IsWords words →
        length (bytes_of port call words) ≤ longest_payload }
    ensures words { (port call : ℕ) (words : AskWords) → IsWords words →
        All AsksWell (messages_in (bytes_of port call words)) }
    ensures payloads { (bytes : List ℕ) → length bytes ≤ longest_payload →
        All AsksWell (messages_in bytes) }
{
    written_message_is_in_front();
    written_attributes_are_walked();
}

/// A packet that enters with the number of a frame, counted from 1, has that frame's bytes from
/// where the packet starts.
pub fn packets_are_read_with_their_frames()
    ensures { (c : Capture) → AreRead c.link c.frames (cards c) }
{}
