//! What leaves in the step of an entry, told by the entry's reply.

ghost use Rattle.std.specs.Prelude.{◌≡◌, ◌++◌, ◌∷◌, [], OnOk};
ghost use Rattle.std.specs.Map.{lookup};
ghost use Rattle.queue_core.specs.Ids.{is_id};
ghost use Rattle.queue_replay.specs.Leaving as leaving;
ghost use Rattle.queue_replay.specs.Telling as telling;

use crate::standing::Standing;
use crate::waiting_list::WaitingList;
use histories::{Entry, Event, Reply};
use nfqa_msgs::{Head, Request};
use packet_entry::{Card, NoMemory};
use queue_core::Outcome;

/// Packets, each by its number and visit.
pub(crate) type Visits = Vec<(u32, u32)>;

/// Adds the packets that leave in an entry at a queue number, in order, as its reply tells them.
#[tactic(auto, using(crate::proofs::Departures::none_added, crate::proofs::Departures::none_asked))]
pub(crate) fn add_leaving(
    queue: &Option<Standing>,
    entry: &Entry,
    visits: &mut Visits,
) -> Result<(), NoMemory>
    ensures { OnOk result (visits.new.items ≡ visits.old.items
        ++ leaving.told_leaving entry.now.event entry.now.reply (telling.waiting_of queue.now)) }
{
    match (&entry.event, entry.reply) {
        (Event::Arrive { card, .. }, Reply::Arrived { outcome }) => add_arrival(
            card, outcome, visits,
        ),
        (Event::Ask { request, .. }, Reply::Answer { taken, .. }) => match queue {
            Some(bound) => bound.waiting.add_after_ask(request, taken, visits),
            None => Ok(()),
        },
        (Event::PortClosed { .. }, Reply::Flushed { taken }) => add_first(queue, taken, visits),
        (Event::DeviceDown { .. }, Reply::Flushed { taken }) => add_first(queue, taken, visits),
        _ => Ok(()),
    }
}

/// A packet arrives; it leaves at once, unless it is taken.
#[tactic(auto, using(crate::proofs::Departures::none_added))]
fn add_arrival(card: &Card, outcome: Outcome, visits: &mut Visits) -> Result<(), NoMemory>
    ensures { OnOk result (visits.new.items
        ≡ visits.old.items ++ leaving.leaving_at_arrival card.now outcome) }
{
    match outcome {
        Outcome::Taken { .. } => {}
        _ => visits.push((card.number, card.visit))?,
    }
    Ok(())
}

/// So many of the oldest of a queue number leave.
#[tactic(auto, using(crate::proofs::Departures::none_first))]
fn add_first(queue: &Option<Standing>, count: u32, visits: &mut Visits) -> Result<(), NoMemory>
    ensures { OnOk result (visits.new.items
        ≡ visits.old.items ++ leaving.first_leaving count (telling.waiting_of queue.now)) }
{
    match queue {
        Some(bound) => bound.waiting.add_oldest(count, visits),
        None => Ok(()),
    }
}

impl WaitingList {
    /// What leaves of what waits, after a request by which so many packets left.
    #[tactic(auto, using(crate::proofs::Departures::none_added))]
    fn add_after_ask(
        &self,
        request: &Request,
        taken: u32,
        visits: &mut Visits,
    ) -> Result<(), NoMemory>
        ensures { OnOk result (visits.new.items
            ≡ visits.old.items ++ leaving.leaving_after_ask request.now taken self.now) }
    {
        match request {
            Request::Config { .. } => self.add_oldest(taken, visits),
            Request::Verdict {
                head: Some(Head { id, .. }),
                ..
            } => {
                if taken == 0 {
                    return Ok(());
                }
                self.add_one(*id, visits)
            }
            Request::Verdict { head: None, .. } => Ok(()),
            Request::Batch { .. } => self.add_oldest(taken, visits),
        }
    }

    /// What is found under an id.
    #[tactic(auto, using(crate::proofs::Departures::none_added))]
    fn add_one(&self, id: u32, visits: &mut Visits) -> Result<(), NoMemory>
        ensures { OnOk result (visits.new.items
            ≡ visits.old.items ++ leaving.one_leaving (lookup (is_id id) self.now)) }
    {
        if let Some(card) = self.get(id) {
            visits.push((card.number, card.visit))?;
        }
        Ok(())
    }

    /// So many of the oldest.
    fn add_oldest(&self, count: u32, visits: &mut Visits) -> Result<(), NoMemory>
        ensures { OnOk result (visits.new.items
            ≡ visits.old.items ++ leaving.first_leaving count self.now) }
    {
        let mut more = count;
        for (_, card) in self.iter() {
            if more == 0 {
                return Ok(());
            }
            more -= 1;
            visits.push((card.number, card.visit))?;
        }
        Ok(())
    }
}
