//! What goes on in the step of an entry, told by the entry's reply.

ghost use Rattle.std.specs.Prelude.{◌≡◌, ◌++◌, None, take, OnOk, IfOk};
ghost use Rattle.std.specs.Map.{lookup};
ghost use Rattle.packet_entry.specs.Card.{edited};
ghost use Rattle.queue_core.specs.Decision as decision;
ghost use Rattle.queue_core.specs.Ids.{is_id};
ghost use Rattle.queue_core.specs.Step as queue_step;
ghost use Rattle.histories.specs.History as history;
ghost use Rattle.queue_replay.specs.Going as going;
ghost use Rattle.queue_replay.specs.Telling as telling;

use crate::standing::Standing;
use crate::waiting_list::WaitingList;
use histories::{Entry, Event, Reply};
use hook_chain::Decision;
use nfqa_msgs::{Head, Request};
use packet_entry::{Bytes, Card, NoMemory};
use queue_core::{ACCEPT, DROP, Outcome, QUEUE, QUEUE_BYPASS, REPEAT, VERDICT_MASK};
use std::alloc::Global;

/// The place of the queue's number in a `QUEUE` verdict: its high 16 bits. (`NF_VERDICT_QBITS`)
const QUEUE_NUMBER_PLACE: u32 = 65_536;

/// Packets that go on, each with the decision that says where.
pub type Leavers = Vec<(Card, Decision)>;

/// The packets that go on in the step of an entry at a queue number, in order. What is destroyed
/// isn't among them; what a queue lets through goes on as if it was accepted. Of an entry that is
/// no step it is told what its reply tells.
pub(crate) fn going_on(
    queue: &Option<Standing>,
    alloc: Global,
    entry: &Entry,
) -> Result<Leavers, NoMemory>
    ensures { IfOk result (λ leavers. history.IsStep queue.now entry.now →
        leavers.items ≡ going.all_going (queue_step.step queue.now entry.now.event).left) }
{
    told(queue, alloc, entry)
}

/// What the reply of an entry tells.
#[tactic(auto, using(crate::proofs::StepReplies::none_going))]
fn told(queue: &Option<Standing>, alloc: Global, entry: &Entry) -> Result<Leavers, NoMemory>
    ensures { IfOk result (λ leavers. leavers.items ≡ telling.told_going entry.now.event
        entry.now.reply (telling.waiting_of queue.now)) }
{
    match (&entry.event, entry.reply) {
        (Event::Arrive { card, .. }, Reply::Arrived { outcome }) => at_arrival(
            alloc, card, outcome,
        ),
        (Event::Ask { request, .. }, Reply::Answer { taken, .. }) => match queue {
            Some(bound) => bound.waiting.going_after_ask(alloc, request, taken),
            None => Ok(Vec::new(alloc)),
        },
        _ => Ok(Vec::new(alloc)),
    }
}

/// A packet arrives; it goes on where its queue lets it through.
fn at_arrival(alloc: Global, card: &Card, outcome: Outcome) -> Result<Leavers, NoMemory>
    ensures { IfOk result (λ leavers.
        leavers.items ≡ telling.going_at_arrival card.now outcome) }
{
    let mut leavers = Vec::new(alloc);
    if lets_through(outcome) {
        leavers.push((card.share()?, Decision::Accept))?;
    }
    Ok(leavers)
}

/// Whether an arrival with this outcome is let through.
fn lets_through(outcome: Outcome) -> bool
    ensures { result ≡ telling.lets_through outcome }
{
    match outcome {
        Outcome::Taken { .. } => false,
        Outcome::Overflow => false,
        Outcome::OverflowOpen => true,
        Outcome::UserFull { .. } => false,
        Outcome::UserFullOpen { .. } => true,
        Outcome::NoQueue => false,
        Outcome::Bypassed => true,
        Outcome::CopyNone => false,
        Outcome::Loop => false,
    }
}

impl WaitingList {
    /// What goes on of what waits, after a request by which so many packets left.
    fn going_after_ask(
        &self,
        alloc: Global,
        request: &Request,
        taken: u32,
    ) -> Result<Leavers, NoMemory>
        ensures { IfOk result (λ leavers.
            leavers.items ≡ telling.going_after_ask request.now taken self.now) }
    {
        match request {
            Request::Verdict {
                head: Some(Head { verdict, id }),
                mark,
                payload,
                priority,
                ..
            } => {
                if taken == 0 {
                    return Ok(Vec::new(alloc));
                }
                self.one_going(alloc, *id, *verdict, *mark, payload, *priority)
            }
            Request::Batch {
                head: Some(Head { verdict, .. }),
                mark,
                priority,
                ..
            } => self.first_going(alloc, *verdict, *mark, *priority, taken),
            _ => Ok(Vec::new(alloc)),
        }
    }

    /// What is found under an id goes on with the mark, the bytes and the priority that are given.
    fn one_going(
        &self,
        alloc: Global,
        id: u32,
        verdict: u32,
        mark: Option<u32>,
        payload: &Option<Bytes>,
        priority: Option<u32>,
    ) -> Result<Leavers, NoMemory>
        ensures { IfOk result (λ leavers. leavers.items
            ≡ telling.one_going verdict mark payload.now priority
            (lookup (is_id id) self.now)) }
    {
        let mut leavers = Vec::new(alloc);
        let Some(card) = self.get(id) else {
            return Ok(leavers);
        };
        let card = changed(card.share()?, mark, priority);
        push_decided(replaced(card, payload)?, verdict, &mut leavers)?;
        Ok(leavers)
    }

    /// So many of the oldest go on, each with the mark and the priority that are given.
    fn first_going(
        &self,
        alloc: Global,
        verdict: u32,
        mark: Option<u32>,
        priority: Option<u32>,
        count: u32,
    ) -> Result<Leavers, NoMemory>
        ensures { IfOk result (λ leavers.
            leavers.items ≡ telling.each_going verdict mark priority (take count self.now)) }
    {
        let mut leavers = Vec::new(alloc);
        let mut more = count;
        for (_, card) in self.iter() {
            if more == 0 {
                return Ok(leavers);
            }
            more -= 1;
            let card = changed(card.share()?, mark, priority);
            push_decided(card, verdict, &mut leavers)?;
        }
        Ok(leavers)
    }
}

/// A packet goes on as its verdict decides, unless it is destroyed.
fn push_decided(card: Card, verdict: u32, leavers: &mut Leavers) -> Result<(), NoMemory>
    ensures { OnOk result (leavers.new.items
        ≡ leavers.old.items ++ telling.going_by verdict card) }
{
    let decision = decision_of(verdict);
    if is_on(&decision) {
        leavers.push((card, decision))?;
    }
    Ok(())
}

/// Whether a packet goes on after this decision.
fn is_on(decision: &Decision) -> bool
    ensures { result ≡ telling.is_on decision.now }
{
    match decision {
        Decision::Drop => false,
        Decision::Accept => true,
        Decision::Repeat => true,
        Decision::Stop => true,
        Decision::Queue { .. } => true,
    }
}

/// What a verdict decides that isn't refused.
fn decision_of(verdict: u32) -> Decision
    ensures { result ≡ decision.decision_of verdict }
{
    match verdict % (VERDICT_MASK + 1) {
        DROP => Decision::Drop,
        ACCEPT => Decision::Accept,
        QUEUE => Decision::Queue {
            number: (verdict / QUEUE_NUMBER_PLACE) as u16,
            bypass: verdict / QUEUE_BYPASS % 2 == 1,
        },
        REPEAT => Decision::Repeat,
        _ => Decision::Stop,
    }
}

/// The packet with the mark and the priority that are given.
fn changed(mut card: Card, mark: Option<u32>, priority: Option<u32>) -> Card
    ensures { result ≡ edited card mark None priority }
{
    if let Some(given) = mark {
        card.mark = given;
    }
    if let Some(given) = priority {
        card.priority = given;
    }
    card
}

/// The packet with the bytes that are given.
fn replaced(mut card: Card, payload: &Option<Bytes>) -> Result<Card, NoMemory>
    ensures { IfOk result (λ after. after ≡ edited card None payload.now None) }
{
    if let Some(given) = payload {
        card.bytes = given.share()?;
    }
    Ok(card)
}
