//! What is known of a port's pass, call by call.

ghost use Rattle.std.specs.Prelude.{◌≡◌, ◌≤◌, ◌<◌, ◌-◌, ◌+◌, ◌++◌, ℕ, Bool, true, List, [], ◌∷◌};
ghost use Rattle.std.specs.Prelude.{false};
ghost use Rattle.std.specs.Prelude.{drop, length};
ghost use Rattle.packet_entry.specs.declared.letter.Letter.{Letter};
ghost use Rattle.netlink_codec.specs.Messages.{NetlinkMessage, first_message};
ghost use Rattle.histories.specs.declared.log.AskWords.{AskWords};
ghost use Rattle.packet_moves.specs.Calls.{next_call};
ghost use Rattle.script_lines.specs.Limits.{IsWords};
ghost use Rattle.script_lines.specs.declared.ask.Ask.{Ask};
ghost use Rattle.script_lines.specs.declared.ask.Ask.TheVariants.{Close, Words};
ghost use Rattle.inspector_script.specs.Scripts.{ScriptValue};
ghost use Rattle.run_parts.specs.Datagrams.{AsksWell, bytes_of, cut_in, messages_in};
ghost use Rattle.run_parts.specs.Log.{Due, Message, Note, Shut, Still, all_due, answer_to, is_pool};
ghost use Rattle.nfqa_msgs.specs.NoticeTexts.{told_exactly};
ghost use Rattle.run_parts.specs.Ports.{place_in};
ghost use Rattle.live_runs.specs.Seen.{Shares};
ghost use Rattle.live_runs.specs.Passes.{Pass, Receives, Shuts, Speaks, SpeaksFirst};
ghost use Rattle.live_runs.specs.Stands.{Now, AtEnd, Side, Stand, answering, cut_side, cut_then};
ghost use Rattle.live_runs.specs.Stands.{idle, shut_stand, side};
ghost use Rattle.live_runs.specs.Ports.{IsPort};
ghost use Rattle.live_runs.specs.Stages.{Ending, MaySpeak, Stage, Went};
ghost use Rattle.live_runs.specs.Doing.{GoesOn, HasAsked, HasHeard, HasSent, IsAnswering};
ghost use Rattle.live_runs.specs.Doing.{IsCutting, IsDoing, LeavesWaiting};

use queue_core::each_packet_stays_or_leaves;
use run_parts::{closings_are_kept, datagrams_are_short, logs_go_on};

/// A port does what is next, and what it appends is its own. It begins where the passes have met;
/// it takes up an ask that is due and sends the messages that are cut from it, where it may; it
/// receives a notice where it owes nothing, and then owes its answers; or these wait behind a pool,
/// and it turns to those of the first notice that it hasn't answered.
pub fn a_port_does_what_is_next()
    ensures begins { (workers : ℕ) (script : ScriptValue) (places : ℕ) (stage : Stage) (port : ℕ)
        (was : List Note) (start : Pass) (t : Stand) → HasHeard stage t start.dids →
        IsPort workers script places port was t start →
        IsDoing workers script places stage port was start t start }
    ensures takes_up { (workers : ℕ) (script : ScriptValue) (places : ℕ) (stage : Stage)
        (port : ℕ) (was : List Note) (start : Pass) (x : Side) (words : AskWords) (ds : List Due)
        (pass : Pass) → IsDoing workers script places stage port was start
        (side x (Still (Words words) ∷ ds)) pass →
        IsDoing workers script places stage port was start
        (cut_then x (messages_in (bytes_of port (next_call pass.dids) words)) ds) pass }
    ensures sends { (workers : ℕ) (script : ScriptValue) (places : ℕ) (stage : Stage)
        (port : ℕ) (was : List Note) (start : Pass) (x : Side) (m : NetlinkMessage) (errno : ℕ)
        (ds : List Due) (fresh : Bool) (old new : Pass) → 0 < places → AsksWell m →
        MaySpeak script.ports port stage x → Speaks places port m errno old new →
        IsDoing workers script places stage port was start (cut_side x (Message m ∷ ds) fresh)
        old →
        IsDoing workers script places stage port was start (side x ds) new }
    ensures receives { (workers : ℕ) (script : ScriptValue) (places : ℕ) (stage : Stage)
        (port : ℕ) (was : List Note) (start : Pass) (groups : List (List Due)) (ends : List Due)
        (l : Letter) (old new : Pass) → IsAnswering stage → Receives l old new →
        IsDoing workers script places stage port was start (side (Now groups ends) []) old →
        IsDoing workers script places stage port was start (answering workers groups ends
        (all_due (answer_to script (place_in port script.ports) new.dids (told_exactly l.bytes))))
        new }
    ensures turns { (workers : ℕ) (script : ScriptValue) (places : ℕ) (stage : Stage)
        (port : ℕ) (was : List Note) (start : Pass) (group : List Due)
        (groups : List (List Due)) (ends : List Due) (pass : Pass) → is_pool workers ≡ true →
        IsDoing workers script places stage port was start
        (side (Now (group ∷ groups) ends) []) pass →
        IsDoing workers script places stage port was start (side (Now groups ends) group) pass }
{
    logs_go_on();
    closings_are_kept();
    each_packet_stays_or_leaves();
}

/// The messages of an ask are sent one by one, each the first of the bytes that are left, until
/// none is. There are no more of them than bytes, and where no byte is used nothing was sent.
pub fn messages_are_sent_one_by_one()
    ensures begin { (workers : ℕ) (script : ScriptValue) (places : ℕ) (stage : Stage) (port : ℕ)
        (was : List Note) (start : Pass) (x : Side) (call : ℕ) (words : AskWords) (ds : List Due)
        (pass : Pass) → IsWords words → IsDoing workers script places stage port was start
        (cut_then x (messages_in (bytes_of port call words)) ds) pass →
        IsCutting workers script places stage port was start x
        (messages_in (bytes_of port call words)) ds pass }
    ensures next { (workers : ℕ) (script : ScriptValue) (places : ℕ) (stage : Stage) (port : ℕ)
        (was : List Note) (start : Pass) (x : Side) (ds : List Due) (count look : ℕ)
        (rest : List ℕ) (old new : Pass) (used : ℕ) → 0 < places →
        MaySpeak script.ports port stage x → look < count → 0 < used →
        SpeaksFirst places port (first_message rest) old new used →
        IsCutting workers script places stage port was start x (cut_in (count - look) rest) ds
        old →
        IsCutting workers script places stage port was start x
        (cut_in (count - (look + 1)) (drop used rest)) ds new }
    ensures none { (workers : ℕ) (script : ScriptValue) (places : ℕ) (stage : Stage) (port : ℕ)
        (was : List Note) (start : Pass) (x : Side) (ds : List Due) (count look : ℕ)
        (rest : List ℕ) (old new : Pass) (used : ℕ) → 0 < places →
        MaySpeak script.ports port stage x → look < count → used ≤ 0 →
        SpeaksFirst places port (first_message rest) old new used →
        IsCutting workers script places stage port was start x (cut_in (count - look) rest) ds
        old →
        IsDoing workers script places stage port was start (side x ds) new }
    ensures enough { (workers : ℕ) (script : ScriptValue) (places : ℕ) (stage : Stage) (port : ℕ)
        (was : List Note) (start : Pass) (x : Side) (ds : List Due) (count look : ℕ)
        (rest : List ℕ) (pass : Pass) → 0 < places → MaySpeak script.ports port stage x →
        count ≤ look →
        IsCutting workers script places stage port was start x (cut_in (count - look) rest) ds
        pass →
        IsDoing workers script places stage port was start (side x ds) pass }
    ensures used { (places port : ℕ) (rest : List ℕ) (old new : Pass) (used : ℕ) →
        SpeaksFirst places port (first_message rest) old new used → used ≤ length rest }
    ensures unsent { (places port : ℕ) (rest : List ℕ) (old new : Pass) (used : ℕ) → used ≤ 0 →
        SpeaksFirst places port (first_message rest) old new used → new ≡ old }
{
    logs_go_on();
    closings_are_kept();
    each_packet_stays_or_leaves();
    datagrams_are_short();
}

/// Behind the openings what a port did in a stage is of the stage: where it did nothing; where it
/// sent and received; and where it closed at last, which ends its log.
pub fn a_port_goes_through_a_stage()
    ensures rests { (workers : ℕ) (script : ScriptValue) (stage : Stage) (port : ℕ)
        (was : List Note) (shares : Shares) →
        Went workers script stage port was was shares shares }
    ensures goes { (workers : ℕ) (script : ScriptValue) (places : ℕ) (stage : Stage) (port : ℕ)
        (was : List Note) (start : Pass) (t : Stand) (pass : Pass) → IsAnswering stage →
        (a : IsDoing workers script places stage port was start t pass) →
        Went workers script stage port was a.notes start.shares pass.shares }
    ensures closes { (workers : ℕ) (script : ScriptValue) (places port : ℕ) (was : List Note)
        (start mid new : Pass) →
        (a : IsDoing workers script places (Ending (place_in port script.ports)) port was start
        (side (AtEnd []) (Still Close ∷ [])) mid) → Shuts places port mid new →
        ((k : ℕ) → places ≤ k → new.shares k ≡ mid.shares k) →
        Went workers script (Ending (place_in port script.ports)) port was
        (a.notes ++ Shut ∷ []) start.shares new.shares }
    ensures closed { (workers : ℕ) (script : ScriptValue) (places port : ℕ) (was : List Note)
        (start mid new : Pass) → 0 < places →
        (a : IsDoing workers script places (Ending (place_in port script.ports)) port was start
        (side (AtEnd []) (Still Close ∷ [])) mid) → Shuts places port mid new →
        IsPort workers script places port (a.notes ++ Shut ∷ []) shut_stand new }
{
    logs_go_on();
    closings_are_kept();
}

/// What a port does adds up: what it sends, to all asks of an answer; a notice and its answers, to
/// a look after which nothing is owed, with a pool behind the port and without; and looks, to a
/// stage.
pub fn what_a_port_does_adds_up()
    ensures no_ask { (workers : ℕ) (script : ScriptValue) (places port : ℕ) (asks : List Ask)
        (pass : Pass) → HasAsked workers script places port asks asks pass pass }
    ensures next_ask { (workers : ℕ) (script : ScriptValue) (places port : ℕ)
        (asks left : List Ask) (words : AskWords) (old mid new : Pass) →
        HasAsked workers script places port asks (Words words ∷ left) old mid →
        HasSent workers script places port words mid new →
        HasAsked workers script places port asks left old new }
    ensures no_look { (workers : ℕ) (script : ScriptValue) (places port : ℕ) (pass : Pass) →
        GoesOn workers script places port pass pass }
    ensures look { (workers : ℕ) (script : ScriptValue) (places port : ℕ) (l : Letter)
        (old mid new : Pass) → Receives l old mid → HasAsked workers script places port
        (answer_to script (place_in port script.ports) mid.dids (told_exactly l.bytes)) [] mid
        new →
        GoesOn workers script places port old new }
    ensures next_look { (workers : ℕ) (script : ScriptValue) (places port : ℕ)
        (old mid new : Pass) → GoesOn workers script places port old mid →
        GoesOn workers script places port mid new → GoesOn workers script places port old new }
    ensures looks { (workers : ℕ) (script : ScriptValue) (places port : ℕ) (stage : Stage)
        (was : List Note) (ends : List Due) (old new : Pass) → IsAnswering stage →
        GoesOn workers script places port old new →
        IsPort workers script places port was (idle ends) old →
        (now : List Note) × IsPort workers script places port now (idle ends) new
        × Went workers script stage port was now old.shares new.shares }
{
    logs_go_on();
    closings_are_kept();
    each_packet_stays_or_leaves();
}

/// Behind a pool notices are received while no answer is sent: their answers wait, group by group.
/// Then these are sent in the order of the notices, until none waits.
pub fn a_pool_answers_in_groups()
    ensures none { (workers : ℕ) (script : ScriptValue) (places port : ℕ) (pass : Pass) →
        LeavesWaiting workers script places port [] pass pass }
    ensures receives { (workers : ℕ) (script : ScriptValue) (places port : ℕ) (l : Letter)
        (groups : List (List Due)) (old mid new : Pass) → is_pool workers ≡ true →
        LeavesWaiting workers script places port groups old mid → Receives l mid new →
        LeavesWaiting workers script places port (groups ++ all_due
        (answer_to script (place_in port script.ports) new.dids (told_exactly l.bytes)) ∷ [])
        old new }
    ensures answers { (workers : ℕ) (script : ScriptValue) (places port : ℕ) (asks : List Ask)
        (groups : List (List Due)) (old mid new : Pass) → is_pool workers ≡ true →
        LeavesWaiting workers script places port (all_due asks ∷ groups) old mid →
        HasAsked workers script places port asks [] mid new →
        LeavesWaiting workers script places port groups old new }
    ensures done { (workers : ℕ) (script : ScriptValue) (places port : ℕ) (old new : Pass) →
        LeavesWaiting workers script places port [] old new →
        GoesOn workers script places port old new }
{
    logs_go_on();
    closings_are_kept();
    each_packet_stays_or_leaves();
}
