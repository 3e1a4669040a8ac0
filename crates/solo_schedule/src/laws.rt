//! What is known of the schedule, of its histories, and of how long what it moves is.

ghost use Rattle.std.specs.Prelude.{◌≡◌, ◌≤◌, ℕ, true, List, [], map};
ghost use Rattle.std.specs.Prelude.{◌<◌, All, length};
ghost use Rattle.hook_chain.specs.Rules.{RuleTables};
ghost use Rattle.pcap_io.specs.declared.capture.Capture.{Capture};
ghost use Rattle.histories.specs.Numbers.{queue_count};
ghost use Rattle.histories.specs.declared.entry.Entry.{Entry};
ghost use Rattle.histories.specs.declared.histories.Histories.{Histories};
ghost use Rattle.histories.specs.declared.log.PortLog.{PortLog};
ghost use Rattle.inspector_script.specs.Scripts.{ScriptValue, IsScript};
ghost use Rattle.solo_schedule.specs.Schedule.{IsSolo, is_open_port, rounds_for, run, setting_of};
ghost use Rattle.solo_schedule.specs.Emptyings.{FindsNothing, emptyings};
ghost use Rattle.run_parts.specs.Log.{Note};
ghost use Rattle.packet_entry.specs.Numbers.{longest_packet};
ghost use Rattle.histories.specs.Lengths.{AreShort};
ghost use Rattle.histories.specs.Lengths.{AreSmall};
ghost use Rattle.solo_schedule.specs.LettersLeft.{left_in};
ghost use Rattle.run_parts.specs.Run.{IsMadeBy};
ghost use Rattle.total_order.specs.TotalOrder.{HasTotalOrder};

use packet_moves::what_goes_on_is_in_time;
use queue_core::each_packet_stays_or_leaves;
use run_parts::{
    closings_are_kept, datagrams_are_short, each_port_has_its_place, fed_histories_go_on,
    logs_go_on, one_feeder_feeds_all, ordered_histories_go_on,
};
use total_order::turns_of_one_thread_have_one_order;

/// There is one log for each port of the script, in the script's order, and no other.
pub fn each_port_has_its_log()
    ensures ports { (script : ScriptValue) (tables : RuleTables) (c : Capture)
        (h : Histories) → IsSolo script tables c h →
        map (λ (l : PortLog). l.port) h.logs ≡ script.ports }
{}

/// Each port did what the script says: its log is its opening messages, then blocks, each a notice
/// with the messages that answer it or one message of its end, and its closing where the script
/// says it.
/// The requests in each queue's history are those of the ports' messages, one entry for each, in
/// their order, with its errno. And the notices that ports received are those of the arrivals that
/// their queues took, in their order, but for the last ones, which are left in the mailboxes; no
/// claim is made here of how many they are. Where a port closed, no queue is bound to it in the
/// end, and none has a second closing or a later request of it. An arrival found no room only where
/// the port was sent as many notices as its mailbox holds. In each queue's history first arrivals
/// come in the order of their frames, and each `down` line that takes effect stands between those
/// of the frames up to its own and those of later ones. What ports ask as they open stands before
/// all else, and what they ask as they end, with their closings, behind all that was fed, each in
/// the order of the ports.
pub fn ports_do_what_the_script_says()
    ensures { (script : ScriptValue) (tables : RuleTables) (c : Capture) (h : Histories) →
        IsScript script → IsSolo script tables c h →
        (notes : ℕ → List Note)
        × IsMadeBy 1 1 script (length c.frames) h notes (left_in (run script tables c)) }
{
    closings_are_kept();
    logs_go_on();
    fed_histories_go_on();
    ordered_histories_go_on();
    each_packet_stays_or_leaves();
    what_goes_on_is_in_time();
    each_port_has_its_place();
    one_feeder_feeds_all();
}

/// There is one order of all events of all queues, that of the run itself. A packet comes again
/// after the entry in whose step it left. A port asks in the order of its log, across all queues,
/// and each time after the arrivals of all packets whose notices it had received. Once it closes,
/// the ends of its queues come after all of these.
pub fn one_order_of_all_events()
    ensures { (script : ScriptValue) (tables : RuleTables) (c : Capture) (h : Histories) →
        IsScript script → IsSolo script tables c h → HasTotalOrder h }
{
    turns_of_one_thread_have_one_order();
    logs_go_on();
    each_packet_stays_or_leaves();
    what_goes_on_is_in_time();
    each_port_has_its_place();
}

/// No packet that arrives is longer than a frame may be, and no payload that is asked for longer
/// than one attribute may be, where the frames of the capture aren't longer than they may be.
pub fn packets_and_payloads_are_within_bounds()
    ensures packets { (script : ScriptValue) (tables : RuleTables) (c : Capture)
        (h : Histories) → IsScript script → All (λ f. length f.bytes ≤ longest_packet) c.frames →
        IsSolo script tables c h → AreSmall h.entries }
    ensures payloads { (script : ScriptValue) (tables : RuleTables) (c : Capture)
        (h : Histories) → IsScript script → All (λ f. length f.bytes ≤ longest_packet) c.frames →
        IsSolo script tables c h → AreShort h.entries }
{
    datagrams_are_short();
}

/// No notice is left in a mailbox at the end: at no port that is still open then, whatever the
/// queues' numbers; and at no port at all where the numbers of queues in the histories are of 16
/// bits, as `Entry` has them. So the ports received all notices of the arrivals that their queues
/// took, and the histories are made by the script with nothing left.
pub fn no_notice_is_left()
    ensures open_ports { (script : ScriptValue) (tables : RuleTables) (c : Capture) →
        IsScript script → (port : ℕ) →
        is_open_port ((run script tables c).ports port) ≡ true →
        left_in (run script tables c) port ≡ [] }
    ensures every_port { (script : ScriptValue) (tables : RuleTables) (c : Capture)
        (h : Histories) → IsScript script → IsSolo script tables c h →
        All (λ (e : Entry). e.queue < queue_count) h.entries →
        (port : ℕ) → left_in (run script tables c) port ≡ [] }
    ensures made { (script : ScriptValue) (tables : RuleTables) (c : Capture)
        (h : Histories) → IsScript script → IsSolo script tables c h →
        All (λ (e : Entry). e.queue < queue_count) h.entries →
        (notes : ℕ → List Note) × IsMadeBy 1 1 script (length c.frames) h notes (λ port. []) }
{
    closings_are_kept();
    each_packet_stays_or_leaves();
    what_goes_on_is_in_time();
    ports_do_what_the_script_says();
    each_port_has_its_place();
}

/// Each emptying of the mailboxes ends by a round that finds nothing, and none is ended by the
/// count of its rounds: at each pause, once all frames have passed, and behind each message of an
/// end.
pub fn each_emptying_ends_by_itself()
    ensures { (script : ScriptValue) (tables : RuleTables) (c : Capture) →
        IsScript script →
        All (FindsNothing (rounds_for c) (setting_of script tables) script)
        (emptyings script tables c) }
{
    closings_are_kept();
    each_packet_stays_or_leaves();
    what_goes_on_is_in_time();
    each_port_has_its_place();
}

/// A schedule has one run: no two values of histories are its.
pub fn a_schedule_has_one_run()
    ensures entries { (script : ScriptValue) (tables : RuleTables) (c : Capture)
        (h g : Histories) → IsSolo script tables c h → IsSolo script tables c g → h ≡ g }
{}
