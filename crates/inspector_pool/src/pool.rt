//! Answers by a pool of workers.
ghost use Rattle.std.specs.Prelude.{◌≡◌, ◌<◌, ◌≤◌, ◌+◌, ◌-◌, ◌++◌, ℕ, [], length, All, IfOk};
ghost use Rattle.std.specs.Thread.{IsSync};
ghost use Rattle.crossbeam_deque.specs.Handles.{worker_deque, worker_flavor, worker_view};
ghost use Rattle.crossbeam_deque.specs.Handles.{stealer_deque, stealer_flavor};
ghost use Rattle.script_lines.specs.Limits.{IsAsk};
ghost use Rattle.inspector_pool.specs.Numbers.{least_workers, most_workers, most_notices};
ghost use Rattle.inspector_pool.specs.Answers.{answers, times, HasEachJobOnce, HasNoOther};
ghost use Rattle.inspector_pool.specs.Rule.{all_parts, jobs, tally};
ghost use Rattle.inspector_pool.specs.Work.{IsAssignment, IsReady, HasWorked, IsAnswered};
ghost use Rattle.inspector_pool.specs.Work.{all_answers, jobs_in, jobs_of};

use crate::assignment::{Answered, Assignment};
use crate::deque::{Cut, Owner, Take, Thief, filled};
use crate::gate::JobGate;
use crate::lists::{AsksList, Notices, Shares};
use crate::pool_worker::PoolWorker;
use crate::tray;
use inspector_script::Script;
use packet_entry::NoMemory;
use std::alloc::Global;
use std::sync::Wait;
use std::thread;
use std::thread::Threads;

/// The least number of workers.
pub const MIN_WORKERS: u32 = 2;

/// The greatest number of workers.
pub const MAX_WORKERS: u32 = 16;

/// The most notices that a pool answers at a time.
pub const MAX_NOTICES: u32 = 64;

/// What a pool answered, and which of the jobs each worker did.
#[derive(Drop)]
pub struct PoolAnswers {
    /// What is asked for in answer to each notice, in the order of the notices.
    pub answers: AsksList,
    /// The numbers of the jobs that each worker did, and those that the caller did last.
    pub shares: Shares,
}

/// Answers these notices of the port at this place of the script, counted from 0, which counted so
/// many notices before. The k-th notice is job k, and is answered as the port's (`counted` + k)-th;
/// a sum above 4,294,967,295 stands for this number. The workers steal jobs, each in a thread of
/// its own where threads can be started, and the caller does those that are left.
pub fn pool_answers<J: JobGate, R: Threads + Wait + Sync>(
    rt: &R,
    alloc: Global,
    script: &Script,
    place: u32,
    counted: u32,
    notices: &Notices,
    workers: u32,
    gate: &J,
) -> Result<PoolAnswers, NoMemory>
    requires has_port { place < length script.now.ports }
    requires few { length notices.now ≤ most_notices }
    requires workers { (least_workers ≤ workers) × (workers ≤ most_workers) }
    ensures answers { IfOk result (λ r.
        r.answers ≡ answers script.now place counted notices.now) }
    ensures fit { IfOk result (λ r. All (All IsAsk) r.answers) }
    // A share for each worker, and the caller's.
    ensures shares { IfOk result (λ r. length r.shares ≡ workers + 1) }
    // Each job is in one of them, once, and nothing else is.
    ensures once { IfOk result (λ r. HasEachJobOnce (length notices.now) r.shares) }
    ensures no_other { IfOk result (λ r. HasNoOther (length notices.now) r.shares) }
{
    let assignment = Assignment {
        script,
        place,
        counted,
        notices,
    };
    let mut owner = filled(alloc, notices.len() as u32)?;
    let thief = owner.stealer()?;
    let mut hired = hire(alloc, &mut owner, workers)?;
    work_all(rt, alloc, &thief, &assignment, gate, hired.as_mut_slice());
    gather(rt, alloc, &assignment, gate, owner, hired)
}

/// So many workers, each with a pass.
fn hire(alloc: Global, owner: &mut Owner, workers: u32) -> Result<Vec<PoolWorker>, NoMemory>
    requires parts { (worker_view owner.old).parts ≡ all_parts }
    requires none { (worker_view owner.old).taken ≡ [] }
    requires workers { workers ≤ most_workers }
    ensures deque { worker_deque owner.new ≡ worker_deque owner.old }
    ensures flavor { worker_flavor owner.new ≡ worker_flavor owner.old }
    ensures left { IfOk result (λ hired.
        worker_view owner.new ≡ tally (all_parts - workers) (worker_view owner.old).put []) }
    ensures hired { IfOk result (λ hired. length hired.items ≡ workers) }
    ensures ready { IfOk result (λ hired.
        All (IsReady (worker_deque owner.old) (worker_view owner.old).put) hired.items) }
{
    let mut hired = Vec::new(alloc);
    for i in 0..workers {
        hired.push(PoolWorker::new(alloc, owner.another::<Cut>()))?;
    }
    Ok(hired)
}

/// Lets all workers work, each in a thread of its own where threads can be started.
fn work_all<J: JobGate, R: Threads + Wait + Sync>(
    rt: &R,
    alloc: Global,
    thief: &Thief,
    assignment: &Assignment<'_>,
    gate: &J,
    workers: &mut [PoolWorker],
)
    requires assignment { IsAssignment assignment.now }
    requires fifo { stealer_flavor thief.now ≡ 0 }
    requires some { 0 < length workers.old }
    requires ready { All (IsReady (stealer_deque thief.now) (jobs_in assignment.now)) workers.old }
    ensures same { length workers.new ≡ length workers.old }
    ensures worked { All (HasWorked (stealer_deque thief.now) assignment.now) workers.new }
{
    let threads = workers.len();
    thread::for_each_mut(
        rt,
        workers,
        threads,
        &|_at: usize, worker: &mut PoolWorker|
            requires { IsSync J.row × IsAssignment assignment.now
                × (stealer_flavor thief.now ≡ 0)
                × IsReady (stealer_deque thief.now) (jobs_in assignment.now) worker.now }
            ensures { HasWorked (stealer_deque thief.entry.now) assignment.entry.now
                worker.exit.now }
        { worker.work(rt, alloc, thief, assignment, gate) },
    );
}

/// Joins the workers' passes, does what is left, and puts all answers in order.
fn gather<J: JobGate, R: Wait>(
    rt: &R,
    alloc: Global,
    assignment: &Assignment<'_>,
    gate: &J,
    mut owner: Owner,
    workers: Vec<PoolWorker>,
) -> Result<PoolAnswers, NoMemory>
    requires assignment { IsAssignment assignment.now }
    requires fifo { worker_flavor owner ≡ 0 }
    requires parts { (worker_view owner).parts + length workers.items ≡ all_parts }
    requires some { 0 < (worker_view owner).parts }
    requires put { (worker_view owner).put ≡ jobs_in assignment.now }
    requires none { (worker_view owner).taken ≡ [] }
    requires worked { All (HasWorked (worker_deque owner) assignment.now) workers.items }
    ensures answers { IfOk result (λ r. r.answers ≡ all_answers assignment.now) }
    ensures fit { IfOk result (λ r. All (All IsAsk) r.answers) }
    ensures shares { IfOk result (λ r. length r.shares ≡ length workers.items + 1) }
    ensures once { IfOk result (λ r. HasEachJobOnce (jobs_in assignment.now) r.shares) }
    ensures no_other { IfOk result (λ r. HasNoOther (jobs_in assignment.now) r.shares) }
{
    let mut tray = tray::blank(alloc, assignment.notices.len())?;
    let mut shares = Vec::new(alloc);
    for worker in workers {
        let PoolWorker {
            pass,
            answered,
            outcome,
        } = worker;
        outcome?;
        owner.absorb::<Cut>(pass);
        let share = tray::put(alloc, &mut tray, answered)?;
        shares.push(share)?;
    }
    let rest = answer_rest(rt, alloc, assignment, gate, owner)?;
    let share = tray::put(alloc, &mut tray, rest)?;
    shares.push(share)?;
    Ok(PoolAnswers {
        answers: AsksList::from_vec(tray),
        shares: Shares::from_vec(shares),
    })
}

/// Does the jobs that are left.
fn answer_rest<J: JobGate, R: Wait>(
    rt: &R,
    alloc: Global,
    assignment: &Assignment<'_>,
    gate: &J,
    mut owner: Owner,
) -> Result<Vec<Answered>, NoMemory>
    requires assignment { IsAssignment assignment.now }
    requires fifo { worker_flavor owner ≡ 0 }
    requires parts { (worker_view owner).parts ≡ all_parts }
    requires put { (worker_view owner).put ≡ jobs_in assignment.now }
    ensures each { IfOk result (λ rest. All (IsAnswered assignment.now) rest.items) }
    ensures once { IfOk result (λ rest. (job : ℕ) →
        times job ((worker_view owner).taken ++ jobs_of rest.items)
        ≡ times job (jobs (jobs_in assignment.now))) }
{
    let mut rest = Vec::new(alloc);
    for _ in rt.forever() {
        match owner.pop_as::<Take>() {
            Some(job) => rest.push(assignment.answer(rt, alloc, gate, job)?)?,
            None => return Ok(rest),
        }
    }
    unreachable!()
}
