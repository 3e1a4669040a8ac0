//! Laws of logs that are walked, and of the notices that are known, each the contract of a function
//! that does nothing or calls the laws that it rests on.

ghost use Rattle.std.specs.Prelude.{◌≡◌, ◌<◌, ◌≤◌, ◌^◌, ◌∷◌, ℕ, List, [], Some, None, drop, length};
ghost use Rattle.netlink_codec.specs.Messages.{NetlinkMessage, first_message};
ghost use Rattle.run_parts.specs.Datagrams.{messages_in};
ghost use Rattle.histories.specs.declared.entry.Entry.{Entry};
ghost use Rattle.histories.specs.declared.log.Did.{Did};
ghost use Rattle.inspector_script.specs.Scripts.{IsScript, ScriptValue};
ghost use Rattle.run_parts.specs.Log.{Note, IsLog, start};
ghost use Rattle.run_parts.specs.Order.{kinds_from};
ghost use Rattle.port_audit.specs.Noticing.{ArriveOnce};
ghost use Rattle.log_audit.specs.Judged.{AllOnlyOnes};
ghost use Rattle.log_audit.specs.Walking as walking;
ghost use Rattle.log_audit.specs.Telling as telling;

use netlink_codec::written_message_is_in_front;
use run_parts::{datagrams_are_short, one_worker_is_no_pool};

/// A log that can be walked is one that the script says: what the port did can be told in full, by
/// notices that are known.
pub fn a_walked_log_is_told()
    ensures { (known : walking.Known) (script : ScriptValue) (place port : ℕ) (dids : List Did) →
        IsScript script → telling.IsKeyed known →
        walking.IsWalked known script place port dids →
        (notes : List Note) × telling.IsToldBy known script place port dids notes }
{
    datagrams_are_short();
    one_worker_is_no_pool();
}

/// A log that is what the script says can be walked, where its notices are known; and its requests
/// are sent when the walk says, however it is told what the port did.
pub fn a_log_is_walked()
    ensures walked { (known : walking.Known) (script : ScriptValue) (place port : ℕ)
        (dids : List Did) (notes : List Note) → port < 2 ^ 32 → IsScript script →
        IsLog 1 script place port notes dids → telling.AreKnown known notes →
        walking.IsWalked known script place port dids }
    ensures kinds { (known : walking.Known) (script : ScriptValue) (place port : ℕ)
        (dids : List Did) (notes : List Note) → port < 2 ^ 32 → IsScript script →
        IsLog 1 script place port notes dids → telling.AreKnown known notes → (queue : ℕ) →
        kinds_from 1 script place queue port (start script place) notes
        ≡ walking.kinds_at queue (walking.ended known script place port dids).timed }
{
    datagrams_are_short();
    written_message_is_in_front();
}

/// Bytes are cut into the message that they begin with and the messages of the bytes behind it. A
/// message's own bytes begin with it.
pub fn datagrams_are_cut_message_by_message()
    ensures first { (bytes : List ℕ) (m : NetlinkMessage) (used : ℕ) →
        first_message bytes ≡ Some (m, used) →
        messages_in bytes ≡ m ∷ messages_in (drop used bytes) }
    ensures none { (bytes : List ℕ) → first_message bytes ≡ None → messages_in bytes ≡ [] }
    ensures used { (bytes : List ℕ) (m : NetlinkMessage) (used : ℕ) →
        first_message bytes ≡ Some (m, used) → used ≤ length bytes }
    ensures own { (bytes : List ℕ) (m : NetlinkMessage) (used : ℕ) →
        first_message bytes ≡ Some (m, used) → telling.IsOwn m }
{}

/// Where no packet arrives twice at one visit, as in sound histories, its visit to a queue makes
/// one notice at most.
pub fn one_arrival_makes_one_notice()
    ensures { (es : List Entry) → ArriveOnce es → AllOnlyOnes es }
{}
