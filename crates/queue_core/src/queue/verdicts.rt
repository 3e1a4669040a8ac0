//! Verdicts on one packet, and on all up to an id.

ghost use Rattle.std.specs.Prelude.{◌≡◌, ◌≤◌, ◌+◌, ◌++◌, ℕ, length, map, take, drop, Some, None};
ghost use Rattle.std.specs.Prelude.{IfOk, IfSome, IfNone};
ghost use Rattle.std.specs.VecDeque.{deque_len, deque_capacity};
ghost use Rattle.std.specs.Prelude.{OnOk, OnErr, OnSome, option_map, option_to_list};
ghost use Rattle.packet_entry.specs.Numbers.{longest_payload};
ghost use Rattle.packet_entry.specs.Card.{edited};
ghost use Rattle.nfqa_msgs.specs.declared.request.Request.TheVariants.{Verdict, Batch};
ghost use Rattle.queue_core.specs.declared.event.Event.TheVariants.{Ask};
ghost use Rattle.queue_core.specs.Decision.{IsVerdict};
ghost use Rattle.queue_core.specs.Decision as decision;
ghost use Rattle.queue_core.specs.Step.{card_under, without, without_oldest, step};
ghost use Rattle.queue_core.specs.Share.{share};
ghost use Rattle.queue_core.specs.Calls.{hands_out, batch_handed};

use super::Queue;
use crate::Handed;
use crate::decision::decision_of;
use crate::waiting::Waiting;
use hook_chain::Decision;
use nfqa_msgs::Head;
use packet_entry::{Bytes, NoMemory, Packet};
use std::collections::VecDeque;

impl Queue {
    /// Carries out a verdict that isn't refused: what waits under its id leaves, with the mark,
    /// the bytes and the priority that are given, and goes where the verdict says. `None` exactly
    /// where nothing waits under this id; then nothing has changed. Takes no memory.
    /// (`NFQA_MARK`, `NFQA_PAYLOAD` and `NFQA_PRIORITY` of uapi nfnetlink_queue.h; the last is what
    /// `nfqnl_recv_verdict` sets as `skb->priority`)
    pub fn verdict(
        &mut self,
        head: Head,
        mark: Option<u32>,
        payload: Option<Bytes>,
        priority: Option<u32>,
    ) -> Option<(Packet, Decision)>
        requires known { IsVerdict head.verdict }
        requires payload { IfSome payload (λ bytes. length bytes ≤ longest_payload) }
        requires no_offer { self.old.offer ≡ None }
        ensures packet { result ≡
            option_map
            (λ card. (edited card mark payload priority, decision.decision_of head.verdict))
            (card_under self.old.state head.id) }
        ensures state { OnSome result (self.new.state ≡ without self.old.state head.id) }
        ensures unchanged { IfNone result (self.new.state ≡ self.old.state) }
        ensures no_offer { self.new.offer ≡ None }
        // This is the step of its port's verdict.
        ensures step { (queue call : ℕ) →
            step (Some self.old.state)
            (Ask self.old.state.port call (Verdict queue (Some head) mark payload priority))
            ≡ hands_out self.new.state (option_to_list result) }
    {
        let mut packet = self.waiting.take(head.id)?;
        packet.edit(mark, payload, priority);
        Some((packet, decision_of(head.verdict)))
    }

    /// Carries out a batch that isn't refused: from the oldest on, packets leave, up to but without
    /// the first whose id is after the id of `head`. Each gets the mark and the priority that
    /// are given, and is appended to `out` with the decision of `head`. Answers how many.
    /// `NoMemory` leaves the queue and `out` as they were.
    pub fn batch(
        &mut self,
        head: Head,
        mark: Option<u32>,
        priority: Option<u32>,
        out: &mut Handed,
    ) -> Result<u32, NoMemory>
        requires known { IsVerdict head.verdict }
        requires no_offer { self.old.offer ≡ None }
        ensures count { IfOk result (λ count.
            count ≡ length (share self.old.state.waiting head.id)) }
        ensures handed { OnOk result
            (out.new.items ≡ out.old.items ++ batch_handed self.old.state head mark priority) }
        ensures state { OnOk result (self.new.state ≡ without_oldest self.old.state
            (length (share self.old.state.waiting head.id))) }
        ensures err { OnErr result (self.new ≡ self.old) }
        ensures out { OnErr result (out.new.items ≡ out.old.items) }
        ensures no_offer { self.new.offer ≡ None }
        // This is the step of its port's batch.
        ensures step { OnOk result ((queue call : ℕ) →
            step (Some self.old.state)
            (Ask self.old.state.port call (Batch queue (Some head) mark priority))
            ≡ hands_out self.new.state (batch_handed self.old.state head mark priority)) }
    {
        let count = self.waiting.share_length(head.id);
        out.packets.reserve(count)?;
        let decision = decision_of(head.verdict);
        hand_out(
            &mut self.waiting,
            count,
            mark,
            priority,
            decision,
            &mut out.packets,
        );
        Ok(count as u32)
    }
}

/// Moves so many of the oldest that wait to what is handed out, each with the mark and the priority
/// that are given.
fn hand_out(
    waiting: &mut Waiting,
    count: usize,
    mark: Option<u32>,
    priority: Option<u32>,
    decision: Decision,
    out: &mut VecDeque<(Packet, Decision)>,
)
    requires count { count ≤ length waiting.old }
    requires room { deque_len out.old + count ≤ deque_capacity out.old }
    ensures waiting { waiting.new ≡ drop count waiting.old }
    ensures out { out.new.items ≡ out.old.items
        ++ map (λ w. (edited w.1 mark None priority, decision)) (take count waiting.old) }
{
    for _ in 0..count {
        let Some((_, mut packet)) = waiting.take_oldest() else {
            unreachable!()
        };
        packet.edit(mark, None, priority);
        out.push_back_reserved((packet, decision));
    }
}
