//! Logs, histories and runs, written out: what each part says of them.

ghost use Rattle.std.specs.Prelude.{◌≡◌, ◌≤◌, ℕ, true, List, [], ◌∷◌};
ghost use Rattle.std.specs.Prelude.{◌≢◌, false, None, Option, Some};
ghost use Rattle.nfqa_msgs.specs.declared.request.Request.{Request};
ghost use Rattle.histories.specs.declared.log.Did.{Did};
ghost use Rattle.histories.specs.declared.log.Did.TheVariants.{Closed, Received, Sent};
ghost use Rattle.run_parts.specs.Log.{Note, Shut, IsLog, start};
ghost use Rattle.run_parts.specs.Requests.{AreRequests};
ghost use Rattle.run_parts.specs.Closing.{IsClosing};
ghost use Rattle.run_parts.specs.Examples.{another_asks, closing_script, one_closing};
ghost use Rattle.run_parts.specs.Examples.{one_request, two_closings};
ghost use Rattle.run_parts.specs.Examples.{logging, notes_by_7, notes_of_7, run_of_7};
ghost use Rattle.run_parts.specs.Examples.{silence_of_7};
ghost use Rattle.run_parts.specs.FedExamples.{down_5, early_5, whole, kinds_of_7, opens_7, ends_7};
ghost use Rattle.run_parts.specs.FedExamples.{comes_again, no_kinds, three_downs};
ghost use Rattle.run_parts.specs.FedExamples.{binds, asks, arrives, falls, shuts};
ghost use Rattle.run_parts.specs.Feeder.{downs_in_effect, IsFed, IsFedBy};
ghost use Rattle.run_parts.specs.Order.{Ends, IsOrdered, kind_at, Opens};
ghost use Rattle.packet_entry.specs.declared.letter.Letter.{Letter};
ghost use Rattle.histories.specs.declared.log.AskWords.{AskWords};
ghost use Rattle.run_parts.specs.Run.{IsMadeBy};
ghost use Rattle.run_parts.specs.Log.{Begun, Got, Spoke, Turned};
ghost use Rattle.run_parts.specs.Run.{LogHolds, PortsHold, RequestsHold};
ghost use Rattle.run_parts.specs.LoggedExamples.{ending_script, every_second, header, message};
ghost use Rattle.run_parts.specs.LoggedExamples.{no_logs, one_and_two};
ghost use Rattle.nfqa_msgs.specs.NoticeTexts.{told_exactly};
ghost use Rattle.nfqa_msgs.specs.NoticeWriting.{Told};
ghost use Rattle.run_parts.specs.LoggedExamples.{opening_script};
ghost use Rattle.histories.specs.declared.log.AskWords.TheVariants.{Raw};
ghost use Rattle.run_parts.specs.Notices.{AreNotices};
ghost use Rattle.run_parts.specs.Room.{AreRoomy};
ghost use Rattle.run_parts.specs.HeardExamples.{heard_1, binding, bound, taken, turned};
ghost use Rattle.netlink_codec.specs.Messages.{NetlinkMessage};
ghost use Rattle.nfqa_msgs.specs.RequestReading.{decoded};
ghost use Rattle.nfqa_msgs.specs.declared.request.Decoded.TheVariants.{Asked};

/// Examples of what a run has and hasn't. The log of a port that only closes is its closing, and
/// not empty, and nothing stands behind the closing; no request stands in a history that no message
/// asked for; and no port closes twice at one queue. Of another port the request and the closing
/// say nothing, and another port may ask behind the closing; a port that didn't close has no
/// closing. The histories whose log is its closing are its run. Those whose log is empty are none,
/// whatever is noted of the ports and whatever is left in their mailboxes.
pub fn runs_of_one_port()
    ensures log { IsLog 1 closing_script 0 7 (Shut ∷ []) (Closed ∷ []) }
    ensures not_empty { (notes : List Note) → IsLog 1 closing_script 0 7 notes [] → ⊥ }
    ensures nothing_behind { (did : Did) (notes : List Note) →
        IsLog 1 closing_script 0 7 notes (Closed ∷ did ∷ []) → ⊥ }
    ensures request { (request : Request) → AreRequests (one_request request) 7 [] → ⊥ }
    ensures another { (request : Request) → AreRequests (one_request request) 9 [] }
    ensures closings { IsClosing 7 true two_closings → ⊥ }
    ensures behind { IsClosing 7 true another_asks }
    ensures unclosed { IsClosing 7 false one_closing → ⊥ }
    ensures closed_by { IsClosing 9 false one_closing }
    ensures run { IsMadeBy 1 1 closing_script 0 run_of_7 notes_of_7 (λ port. []) }
    ensures no_run { (notes : ℕ → List Note) (left : ℕ → List Letter) →
        IsMadeBy 1 1 closing_script 0 silence_of_7 notes left → ⊥ }
{}

/// Logs, written out, of scripts with one port. A message of the opening is sent under
/// number 1, and messages of the end in their order. A port that answers no notice sends nothing
/// behind one, and one that answers every second notice nothing behind the first. No other number
/// is the first; the second message of the end isn't sent first; and a notice isn't received
/// between an ask and its first message.
pub fn logs_by_hand()
    ensures opened { IsLog 1 opening_script 0 7 (Begun ∷ Spoke 1 (message 1) 0 ∷ [])
        (Sent 1 (Raw (header 1)) None ∷ []) }
    ensures ended { IsLog 1 ending_script 0 7
        (Begun ∷ Spoke 1 (message 1) 0 ∷ Begun ∷ Spoke 2 (message 2) 0 ∷ [])
        (Sent 1 (Raw (header 1)) None ∷ Sent 2 (Raw (header 2)) None ∷ []) }
    ensures answer { (queue number visit call : ℕ) (ask : AskWords) (answer : Option ℕ)
        (notes : List Note) → IsLog 1 closing_script 0 7 notes
        (Received queue number visit ∷ Sent call ask answer ∷ Closed ∷ []) → ⊥ }
    ensures count { (l : Letter) (told : Told) → told_exactly l.bytes ≡ Some told →
        IsLog 1 every_second 0 7 (Got l ∷ []) (Received l.queue l.number l.visit ∷ []) }
    ensures call { (call : ℕ) (ask : AskWords) (answer : Option ℕ) (notes : List Note) →
        call ≢ 1 → IsLog 1 opening_script 0 7 notes (Sent call ask answer ∷ []) → ⊥ }
    ensures order { (one two : ℕ) (first second : Option ℕ) (notes : List Note) →
        IsLog 1 ending_script 0 7 notes
        (Sent one (Raw (header 2)) first ∷ Sent two (Raw (header 1)) second ∷ []) → ⊥ }
    ensures between { (l : Letter) (notes : List Note) (dids : List Did) →
        IsLog 1 ending_script 0 7 (Begun ∷ Got l ∷ notes) dids → ⊥ }
{}

/// Histories, written out, that the ports or the requests refuse, and the log doesn't. Where the
/// port has no log, its log is no fault. And where the log has an errno that the message hasn't,
/// the log holds and the requests don't.
pub fn parts_by_hand()
    ensures missing { PortsHold closing_script no_logs → ⊥ }
    ensures no_log { LogHolds 1 closing_script no_logs (λ port. []) }
    ensures answered { (errno : ℕ) →
        RequestsHold opening_script (logging (Sent 1 (Raw (header 1)) (Some 16) ∷ []))
        (notes_by_7 (Begun ∷ Spoke 1 (message 1) errno ∷ [])) → ⊥ }
    ensures logged { (errno : ℕ) →
        LogHolds 1 opening_script (logging (Sent 1 (Raw (header 1)) (Some 16) ∷ []))
        (notes_by_7 (Begun ∷ Spoke 1 (message 1) errno ∷ [])) }
{}

/// Histories of one queue, written out. A queue is bound by an opening message, two frames arrive
/// with a device that goes down between them, and its port asks something at its end and closes:
/// this is fed with that line, and in order. Where the queue is absent the line passes without an
/// entry, but not where it is bound. A later visit stands anywhere. A history isn't fed where a
/// device goes down without a line or behind the first arrival of a later frame, or where a frame
/// arrives twice, or behind a later one. And it isn't in order where an opening message stands
/// behind an arrival, one of the end or a closing before one, or where the later of two ports
/// closes first. Those `down` lines take effect that stand before the first frame or after one.
pub fn feeding_and_order_by_hand()
    ensures fed { (request : Request) → IsFed down_5 (whole request) }
    ensures absent { IsFed down_5 (arrives 1 ∷ []) }
    ensures lineless { IsFed [] (falls 5 ∷ []) → ⊥ }
    ensures again { IsFed [] (arrives 1 ∷ arrives 2 ∷ comes_again 1 ∷ []) }
    ensures in_effect { downs_in_effect three_downs 1
        ≡ record { device = 7; after = 0 } ∷ record { device = 5; after = 1 } ∷ [] }
    ensures missed { IsFed down_5 (binds ∷ arrives 1 ∷ []) → ⊥ }
    ensures late { IsFed down_5 (arrives 2 ∷ falls 5 ∷ []) → ⊥ }
    ensures backward { (m n : ℕ) → n ≤ m → IsFed [] (arrives m ∷ arrives n ∷ []) → ⊥ }
    ensures ordered { (request : Request) → IsOrdered (7 ∷ []) kinds_of_7 (whole request) }
    ensures opening { IsOrdered (7 ∷ []) opens_7 (arrives 1 ∷ binds ∷ []) → ⊥ }
    ensures ending { (request : Request) →
        IsOrdered (7 ∷ []) ends_7 (asks request ∷ arrives 1 ∷ []) → ⊥ }
    ensures closing { IsOrdered (7 ∷ []) no_kinds (shuts 7 ∷ arrives 1 ∷ []) → ⊥ }
    ensures kinds { (kind_at (start opening_script 0) ≡ Opens)
        × (kind_at (start ending_script 0) ≡ Ends) }
    ensures closings { IsOrdered (7 ∷ 9 ∷ []) no_kinds (shuts 9 ∷ shuts 7 ∷ []) → ⊥ }
{}

/// Histories of one queue with what its port received and sent: told as it was, and not. What
/// another port received, asked or found no room for is no matter of its own.
pub fn hearing_by_hand()
    ensures unheard { AreNotices (bound 0 ∷ taken 1 ∷ []) 7 [] [] → ⊥ }
    ensures roomless { AreRoomy 1 (bound 0 ∷ turned 1 ∷ []) 7 [] [] → ⊥ }
    ensures heard { AreNotices (bound 0 ∷ taken 1 ∷ []) 7 (Got heard_1 ∷ []) [] }
    ensures another { AreNotices (bound 0 ∷ taken 1 ∷ []) 9 [] [] }
    ensures room { AreRoomy 1 (bound 0 ∷ turned 1 ∷ []) 9 [] [] }
    ensures told { (m : NetlinkMessage) → decoded m ≡ Asked binding →
        AreRequests (bound 16 ∷ []) 7 (Spoke 1 m 16 ∷ []) }
    ensures errno { (m : NetlinkMessage) → decoded m ≡ Asked binding →
        AreRequests (bound 16 ∷ []) 7 (Spoke 1 m 0 ∷ []) → ⊥ }
    ensures unasked { (m : NetlinkMessage) → decoded m ≡ Asked binding →
        AreRequests [] 7 (Spoke 1 m 0 ∷ []) → ⊥ }
{}

/// Histories of one queue that two feeders fed, or can't have fed, written out. Frames of two
/// shares come in any order, and those of one share in theirs. No device goes down without a line;
/// no line has effect before its own frame; and one before all frames has none behind a frame.
pub fn shares_by_hand()
    ensures across { IsFedBy 2 [] (arrives 2 ∷ arrives 1 ∷ []) }
    ensures within { IsFedBy 2 [] (arrives 3 ∷ arrives 1 ∷ []) → ⊥ }
    ensures lineless { IsFedBy 2 [] (falls 5 ∷ []) → ⊥ }
    ensures early { IsFedBy 2 down_5 (falls 5 ∷ arrives 1 ∷ []) → ⊥ }
    ensures behind { IsFedBy 2 early_5 (arrives 1 ∷ falls 5 ∷ []) → ⊥ }
{}

/// Logs of a port whose answers a pool works out, written out. Two notices are received one behind
/// the other, and then answered in their order, each by its message; without a pool the second
/// isn't received before the first is answered; and the answer to the second isn't sent first.
pub fn pooled_logs_by_hand()
    ensures pooled { (l m : Letter) (one two : Told) → told_exactly l.bytes ≡ Some one →
        told_exactly m.bytes ≡ Some two → IsLog 2 one_and_two 0 7
        (Got l ∷ Got m ∷ Turned ∷ Begun ∷ Spoke 1 (message 1) 0
        ∷ Turned ∷ Begun ∷ Spoke 2 (message 2) 0 ∷ [])
        (Received l.queue l.number l.visit ∷ Received m.queue m.number m.visit
        ∷ Sent 1 (Raw (header 1)) None ∷ Sent 2 (Raw (header 2)) None ∷ []) }
    ensures alone { (l m : Letter) (told : Told) (notes : List Note) (dids : List Did) →
        told_exactly l.bytes ≡ Some told →
        IsLog 1 one_and_two 0 7 (Got l ∷ Got m ∷ notes) dids → ⊥ }
    ensures order { (l m : Letter) (told : Told) (notes : List Note) (dids : List Did) →
        told_exactly l.bytes ≡ Some told → IsLog 2 one_and_two 0 7
        (Got l ∷ Got m ∷ Turned ∷ Begun ∷ Spoke 1 (message 2) 0 ∷ notes) dids → ⊥ }
{}
