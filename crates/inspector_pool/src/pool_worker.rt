//! One worker of a pool: it steals jobs and does them.
ghost use Rattle.std.specs.Prelude.{◌≡◌, [], All, OnOk};
ghost use Rattle.crossbeam_deque.specs.Handles.{view, IsPassOf, stealer_deque, stealer_flavor};
ghost use Rattle.inspector_pool.specs.Rule.{tally};
ghost use Rattle.inspector_pool.specs.Work.{IsAssignment, IsReady, HasWorked, IsAnswered};
ghost use Rattle.inspector_pool.specs.Work.{jobs_in, jobs_of};

use crate::assignment::{Answered, Assignment};
use crate::deque::{Take, Taker, Thief};
use crate::gate::JobGate;
use crossbeam_deque::Steal;
use packet_entry::NoMemory;
use std::alloc::Global;
use std::sync::Wait;
use std::thread;

/// After so many tries that took nothing a worker ends.
const TRIES: u32 = 1000;

/// One worker of a pool.
#[derive(Drop)]
pub(crate) struct PoolWorker {
    pub(crate) pass: Taker,
    /// The jobs that it did, in this order.
    pub(crate) answered: Vec<Answered>,
    /// Whether memory ran out in it.
    pub(crate) outcome: Result<(), NoMemory>,
}

impl PoolWorker {
    /// A worker that has done nothing.
    pub(crate) fn new(alloc: Global, pass: Taker) -> PoolWorker
        ensures pass { result.pass ≡ pass }
        ensures none { result.answered.items ≡ [] }
    {
        PoolWorker {
            pass,
            answered: Vec::new(alloc),
            outcome: Ok(()),
        }
    }

    /// Steals jobs and does them, until there is none or too many tries took nothing.
    pub(crate) fn work<J: JobGate, R: Wait>(
        &mut self,
        rt: &R,
        alloc: Global,
        thief: &Thief,
        assignment: &Assignment<'_>,
        gate: &J,
    )
        requires assignment { IsAssignment assignment.now }
        requires fifo { stealer_flavor thief.now ≡ 0 }
        requires ready { IsReady (stealer_deque thief.now) (jobs_in assignment.now) self.old }
        ensures { HasWorked (stealer_deque thief.now) assignment.now self.new }
    {
        self.outcome = steal_all(
            rt,
            alloc,
            thief,
            assignment,
            gate,
            &mut self.pass,
            &mut self.answered,
        );
    }
}

/// Steals jobs and does them, until there is none or too many tries took nothing. A job that was
/// taken when memory ran out is lost.
fn steal_all<J: JobGate, R: Wait>(
    rt: &R,
    alloc: Global,
    thief: &Thief,
    assignment: &Assignment<'_>,
    gate: &J,
    pass: &mut Taker,
    answered: &mut Vec<Answered>,
) -> Result<(), NoMemory>
    requires assignment { IsAssignment assignment.now }
    requires fifo { stealer_flavor thief.now ≡ 0 }
    requires pass { IsPassOf (stealer_deque thief.now) pass.old }
    requires view { view pass.old ≡ tally 1 (jobs_in assignment.now) [] }
    requires none { answered.old.items ≡ [] }
    ensures pass { IsPassOf (stealer_deque thief.now) pass.new }
    ensures took { OnOk result
        (view pass.new ≡ tally 1 (jobs_in assignment.now) (jobs_of answered.new.items)) }
    ensures each { OnOk result (All (IsAnswered assignment.now) answered.new.items) }
{
    let mut misses = 0;
    for _ in rt.forever() {
        if misses >= TRIES {
            break;
        }
        match thief.steal_as::<Take>(pass) {
            Steal::Success(job) => answered.push(assignment.answer(rt, alloc, gate, job)?)?,
            Steal::Empty => break,
            Steal::Retry => {
                misses += 1;
                thread::yield_now();
            }
        }
    }
    Ok(())
}
