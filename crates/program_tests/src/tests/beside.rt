//! What no clause says: that turns, feeders and workers are at it beside each other, and that all
//! places are used. A gate holds one of them until another is inside.

use super::{RULES, SCRIPT, capture_of, done, host, words};
use commands::live_pools;
use inspector_pool::JobGate;
use plane::{Gate, OpenGate};
use std::alloc::Global;
use std::process::Abort;
use std::sync::Wait;
use std::sync::atomic::{AtomicU64, Ordering};
use std::test::Fail;
use std::thread::Threads;

/// How often a gate looks whether what it waits for has come, and how often a run is tried.
const LOOKS: u32 = 100_000_000;

const TRIES: u8 = 20;

/// Waits until this is 1, for so many looks at most.
fn wait_for(word: &AtomicU64) {
    for _ in 0..LOOKS {
        if word.load(Ordering::SeqCst) == 1 {
            break;
        }
    }
}

/// A gate that holds the third turn at place 0 until a message was answered at place 1 whose turn
/// began meanwhile. That turn is the arrival of a packet: two messages open its queue before.
#[derive(Drop)]
struct Beside {
    turns_at_0: AtomicU64,
    holds: AtomicU64,
    began: AtomicU64,
    answered: AtomicU64,
}

impl Gate for Beside {
    fn inside<R: Wait>(&self, _rt: &R, place: u8) {
        if place == 1 && self.holds.load(Ordering::SeqCst) == 1 {
            self.began.store(1, Ordering::SeqCst);
        }
        if place == 0 && self.turns_at_0.fetch_add(1, Ordering::SeqCst) == 2 {
            self.holds.store(1, Ordering::SeqCst);
            wait_for(&self.answered);
            self.holds.store(0, Ordering::SeqCst);
        }
    }

    fn answered(&self, place: u8) {
        if place == 1
            && self.holds.load(Ordering::SeqCst) == 1
            && self.began.load(Ordering::SeqCst) == 1
        {
            self.answered.store(1, Ordering::SeqCst);
        }
    }
}

/// Turns at two places are open at once. Frame 1 goes to queue 1, whose port answers it by eight
/// messages, and frame 2 to queue 0. In one of the runs a message is answered at place 1 while the
/// turn of frame 2 at place 0 is held.
#[test]
fn threads_run_beside_each_other(rt: HostRuntime) -> Result<(), Fail> {
    const PORTS: &str = "port 7\nopen config 0 bind\nopen config 0 params packet 0\n\
        on any do verdict this accept this\n\
        port 8\nopen config 1 bind params packet 0\n\
        on any do verdict this accept this ; config 1 maxlen 8 ; config 1 maxlen 7 ; \
        config 1 maxlen 6 ; config 1 maxlen 5 ; config 1 maxlen 4 ; config 1 maxlen 3 ; \
        config 1 maxlen 2\n";
    const RULES_BY_PROTOCOL: &str = "*filter\n-A FORWARD -p tcp -j NFQUEUE --queue-num 1\n\
        -A FORWARD -p udp -j NFQUEUE --queue-num 0\nCOMMIT\n";
    let alloc = rt.alloc();
    let input = capture_of(alloc, &[6, 17])?;
    for _ in 0..TRIES {
        let mut host = host(alloc, RULES_BY_PROTOCOL, PORTS, &input)?;
        let gate = Beside {
            turns_at_0: AtomicU64::new(0),
            holds: AtomicU64::new(0),
            began: AtomicU64::new(0),
            answered: AtomicU64::new(0),
        };
        assert_eq!(rt;
            done(&rt, alloc, &mut host, &gate, "live r s c o l j 2")?,
            0
        );
        if gate.answered.load(Ordering::SeqCst) == 1 {
            return Ok(());
        }
    }
    Err("no message was answered while a turn was held at the other place".into())
}

/// A gate that holds the third turn at each place until those at all of them have begun. That turn
/// is the arrival of a packet: two messages open the place's queue before.
#[derive(Drop)]
struct ThirdTurns {
    /// How many turns there were at each place.
    turns: Vec<AtomicU64>,
    /// How many are held.
    held: AtomicU64,
    met: AtomicU64,
}

impl Gate for ThirdTurns {
    fn inside<R: Wait>(&self, _rt: &R, place: u8) {
        let Some(turns) = self.turns.get(usize::from(place)) else {
            return;
        };
        if turns.fetch_add(1, Ordering::SeqCst) != 2 {
            return;
        }
        let held = self.held.fetch_add(1, Ordering::SeqCst).wrapping_add(1);
        if usize::try_from(held) == Ok(self.turns.len()) {
            self.met.store(1, Ordering::SeqCst);
        }
        wait_for(&self.met);
        self.held.fetch_sub(1, Ordering::SeqCst);
    }

    fn answered(&self, _place: u8) {}
}

/// So many feeders feed one frame each, each to a queue at a place of its own. In one of the runs
/// all are at it together.
fn check_feeders<R: Threads + Wait + Sync + Abort>(
    rt: &R,
    alloc: Global,
    feeders: u8,
) -> Result<(), Fail> {
    let last = feeders.wrapping_sub(1);
    let mut rules = String::from_str(alloc, "*filter\n")?;
    writeln!(
        rules,
        "-A FORWARD -j NFQUEUE --queue-balance 0:{last} --queue-cpu-fanout"
    )?;
    rules.push_str("COMMIT\n")?;
    let mut script = String::from_str(alloc, "port 7\non any do verdict this accept this\n")?;
    for queue in 0..feeders {
        writeln!(script, "open config {queue} bind")?;
        writeln!(script, "open config {queue} params packet 0")?;
    }
    let mut line = String::new(alloc);
    write!(line, "live r s c o l j {feeders} {feeders}")?;
    let frames = [6; 16];
    let input = capture_of(alloc, frames.get(..usize::from(feeders)).unwrap_or(&[]))?;
    for _ in 0..TRIES {
        let mut host = host(alloc, &rules, &script, &input)?;
        let mut turns = Vec::new(alloc);
        for _ in 0..feeders {
            turns.push(AtomicU64::new(0))?;
        }
        let gate = ThirdTurns {
            turns,
            held: AtomicU64::new(0),
            met: AtomicU64::new(0),
        };
        assert_eq!(rt; done(rt, alloc, &mut host, &gate, &line)?, 0);
        if gate.met.load(Ordering::SeqCst) == 1 {
            return Ok(());
        }
    }
    Err("no frame was fed while all others were".into())
}

#[test]
fn feeders_feed_beside_each_other(rt: HostRuntime) -> Result<(), Fail> {
    check_feeders(&rt, rt.alloc(), 2)?;
    check_feeders(&rt, rt.alloc(), 16)
}

/// A gate that counts the turns at place 63.
#[derive(Drop)]
struct Last {
    turns: AtomicU64,
}

impl Gate for Last {
    fn inside<R: Wait>(&self, _rt: &R, place: u8) {
        if place == 63 {
            self.turns.fetch_add(1, Ordering::SeqCst);
        }
    }

    fn answered(&self, _place: u8) {}
}

/// Queue 63 stands at the last of 64 places: there are the turns of its opening, of each of three
/// packets, and of each verdict.
#[test]
fn the_last_of_64_places_is_used(rt: HostRuntime) -> Result<(), Fail> {
    const RULES_63: &str = "*filter\n-A FORWARD -j NFQUEUE --queue-num 63\nCOMMIT\n";
    const PORT: &str = "port 7\nopen config 63 bind params packet 0\n\
        on any do verdict this accept this\n";
    let alloc = rt.alloc();
    let mut host = host(alloc, RULES_63, PORT, &capture_of(alloc, &[6, 6, 6])?)?;
    let gate = Last {
        turns: AtomicU64::new(0),
    };
    assert_eq!(rt;
        done(&rt, alloc, &mut host, &gate, "live r s c o l j 64")?,
        0
    );
    assert_eq!(rt; gate.turns.load(Ordering::SeqCst), 7);
    Ok(())
}

/// A gate that holds the first job of a batch until the second is inside.
#[derive(Drop)]
struct TwoJobs {
    holds: AtomicU64,
    beside: AtomicU64,
}

impl JobGate for TwoJobs {
    fn inside<R: Wait>(&self, _rt: &R, job: u32) {
        if job == 1 {
            self.holds.store(1, Ordering::SeqCst);
            wait_for(&self.beside);
            self.holds.store(0, Ordering::SeqCst);
        }
        if job == 2 && self.holds.load(Ordering::SeqCst) == 1 {
            self.beside.store(1, Ordering::SeqCst);
        }
    }
}

/// A run uses its pool: in one of the runs two jobs of one batch are at it together. Where no
/// thread can be made, or the pool takes nothing, the port answers all alone.
#[test]
fn two_workers_of_a_pool_answer_beside_each_other(rt: HostRuntime) -> Result<(), Fail> {
    let alloc = rt.alloc();
    let input = capture_of(alloc, &[6; 64])?;
    for _ in 0..TRIES {
        let mut host = host(alloc, RULES, SCRIPT, &input)?;
        let words = words(alloc, "live r s c o l j 1 1 2")?;
        let jobs = TwoJobs {
            holds: AtomicU64::new(0),
            beside: AtomicU64::new(0),
        };
        let status = live_pools(&rt, alloc, &words, &mut host, &OpenGate, &jobs);
        assert_eq!(rt; status, 0);
        if jobs.beside.load(Ordering::SeqCst) == 1 {
            return Ok(());
        }
    }
    Err("no two jobs of a batch were at it together".into())
}
