//! A pool of workers, hired for a batch and at a desk: worked runs, a gate that is called within
//! each job, and two jobs at once.

ghost use Rattle.std.specs.Prelude.{◌<◌, ◌≤◌, length, IfOk};
ghost use Rattle.std.specs.Thread.{IsSync};

use histories::AskWords;
use inspector_pool::{AsksList, Desk, JobGate, Notices, PoolAnswers, Shares, pool_answers};
use inspector_script::{Script, read_script};
use nfqa_msgs::{Head, Notice, Request};
use packet_entry::{Bytes, NoMemory};
use script_lines::{Ask, Asks};
use std::alloc::Global;
use std::sync::Wait;
use std::sync::atomic::{AtomicU32, Ordering};
use std::test::Fail;
use std::thread::{Threads, join_mut};

/// So many notices of queue 5, whose ids count from 1.
fn notices(alloc: Global, n: u32) -> Result<Notices, NoMemory>
    requires { n ≤ 64 }
    ensures { IfOk result (λ all. length all ≤ 64) }
{
    let mut all = Vec::new(alloc);
    for before in 0..n {
        all.push(Notice {
            queue: 5,
            id: before + 1,
            protocol: 0x0800,
            mark: 0,
            priority: 0,
            length: 20,
            payload: Bytes::new(alloc),
        })?;
    }
    Ok(Notices::from_vec(all))
}

/// Every second notice is dropped.
fn every_second(alloc: Global) -> Result<Script, Fail>
    ensures { IfOk result (λ s. 0 < length s.ports) }
{
    match read_script(alloc, b"port 7\non every 2 do verdict this drop this\n") {
        Ok(script) => Ok(script),
        Err(fault) => Err(Fail::new(fault)),
    }
}

/// Counts the jobs within which it was called, and adds up their numbers.
#[derive(Drop)]
struct Counting {
    jobs: AtomicU32,
    sum: AtomicU32,
}

impl JobGate for Counting {
    fn inside<R: Wait>(&self, _rt: &R, job: u32) {
        self.jobs.fetch_add(1, Ordering::SeqCst);
        self.sum.fetch_add(job, Ordering::SeqCst);
    }
}

/// The queue, the verdict and the id of an answer's first ask.
fn verdict_in(asks: &Asks) -> Option<(u16, u32, u32)> {
    match asks.get(0) {
        Some(
            Ask::Words {
                words: AskWords::Plain {
                    request: Request::Verdict {
                        queue,
                        head: Some(Head { verdict, id }),
                        ..
                    },
                },
            },
        ) => Some((*queue, *verdict, *id)),
        _ => None,
    }
}

/// How many jobs all shares have, and their sum.
fn jobs_in(shares: &Shares) -> (u32, u32) {
    let (mut jobs, mut sum) = (0u32, 0u32);
    for share in shares {
        for job in share {
            jobs = jobs.wrapping_add(1);
            sum = sum.wrapping_add(*job);
        }
    }
    (jobs, sum)
}

/// How many were counted before, how many notices and workers there are, and the sum of the jobs'
/// numbers.
const RUNS: [(u32, u32, u32, u32); 4] = [
    (1, 3, 2, 6),
    (1, 0, 2, 0),
    (0, 64, 16, 2080),
    (5, 1, 3, 1),
];

/// Whether these are answers to so many notices, of which every second is dropped.
fn are_every_second(answers: &AsksList, counted: u32, many: u32) -> bool {
    let mut id = 0u32;
    for asks in answers {
        id = id.wrapping_add(1);
        let is_second = counted.wrapping_add(id) % 2 == 0;
        if is_second && (asks.len() != 1 || verdict_in(asks) != Some((5, 0, id))) {
            return false;
        }
        if !is_second && !asks.is_empty() {
            return false;
        }
    }
    id == many
}

#[test]
fn every_second_notice_is_answered(rt: HostRuntime) -> Result<(), Fail> {
    let alloc = rt.alloc();
    let script = every_second(alloc)?;
    for (counted, many, workers, sum) in RUNS {
        if many > 64 || workers < 2 || workers > 16 {
            return Err("no such run".into());
        }
        let all = notices(alloc, many)?;
        let gate = Counting {
            jobs: AtomicU32::new(0),
            sum: AtomicU32::new(0),
        };
        let done = pool_answers(&rt, alloc, &script, 0, counted, &all, workers, &gate)?;
        let PoolAnswers { answers, shares } = done;
        assert!(rt; are_every_second(&answers, counted, many));
        assert_eq!(rt; shares.len(), workers as usize + 1);
        assert_eq!(rt; jobs_in(&shares), (many, sum));
        assert_eq!(rt; gate.jobs.load(Ordering::SeqCst), many);
        assert_eq!(rt; gate.sum.load(Ordering::SeqCst), sum);
    }
    Ok(())
}

/// Holds job 1 until job 2 is inside beside it.
#[derive(Drop)]
struct Meeting {
    first: AtomicU32,
    met: AtomicU32,
}

impl JobGate for Meeting {
    fn inside<R: Wait>(&self, _rt: &R, job: u32) {
        if job == 2 && self.first.load(Ordering::SeqCst) == 1 {
            self.met.store(1, Ordering::SeqCst);
        }
        if job == 1 {
            self.first.store(1, Ordering::SeqCst);
            for _ in 0..10_000_000u32 {
                if self.met.load(Ordering::SeqCst) == 1 {
                    break;
                }
            }
            self.first.store(0, Ordering::SeqCst);
        }
    }
}

/// In one of at most 20 tries two workers are at it together.
#[test]
fn two_jobs_are_under_way_at_once(rt: HostRuntime) -> Result<(), Fail> {
    let script = every_second(rt.alloc())?;
    let all = notices(rt.alloc(), 2)?;
    for _ in 0..20u8 {
        let gate = Meeting {
            first: AtomicU32::new(0),
            met: AtomicU32::new(0),
        };
        pool_answers(&rt, rt.alloc(), &script, 0, 0, &all, 2, &gate)?;
        if gate.met.load(Ordering::SeqCst) == 1 {
            return Ok(());
        }
    }
    Err("no two jobs were under way at once".into())
}

/// The answers to these notices by a desk at which so many workers serve, who may come late.
fn answers_at<R: Threads + Wait + Sync>(
    rt: &R,
    desk: &Desk<'_, Counting>,
    counted: u32,
    all: &Notices,
    workers: u32,
) -> Result<AsksList, NoMemory>
    requires few { length all.now ≤ 64 }
    requires some { 1 ≤ workers }
    requires not_many { workers ≤ 16 }
{
    let first = desk.laid();
    let mut laid = 0u32;
    for notice in all {
        let counted = counted.saturating_add(laid);
        laid = laid.wrapping_add(1);
        // The third lies there as another one.
        if laid != 3 {
            desk.lay(counted, laid, notice);
        } else {
            desk.lay(counted.wrapping_add(1), laid, notice);
        }
    }
    let ((), answers) = join_mut(
        rt,
        &mut ||
            requires { IsSync R.row × (1 ≤ workers) × (workers ≤ 16) }
        { desk.staff(rt, workers) },
        &mut ||
            requires { length all.now ≤ 64 }
        {
            let answers = desk.answers(rt, first, counted, all);
            desk.close();
            answers
        },
    );
    answers
}

/// A desk answers as a pool does that is hired for the batch, twice in a row.
#[test]
fn a_desk_answers_every_second_notice(rt: HostRuntime) -> Result<(), Fail> {
    let alloc = rt.alloc();
    let script = every_second(alloc)?;
    for (counted, many, workers, _sum) in RUNS {
        if many > 64 || workers < 1 || workers > 16 {
            return Err("no such run".into());
        }
        let gate = Counting {
            jobs: AtomicU32::new(0),
            sum: AtomicU32::new(0),
        };
        let all = notices(alloc, many)?;
        let desk = Desk::new(alloc, &script, 0, &gate)?;
        for _batch in 0..2u8 {
            let answers = answers_at(&rt, &desk, counted, &all, workers)?;
            assert!(rt; are_every_second(&answers, counted, many));
        }
        assert!(rt; gate.jobs.load(Ordering::SeqCst) >= many.wrapping_mul(2));
    }
    Ok(())
}
