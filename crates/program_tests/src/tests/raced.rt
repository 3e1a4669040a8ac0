//! Runs of `live` in which threads come in any order. A run with one feeder and no pool passes its
//! audit; of each it is known how many packets are let go.

use super::{HEADER, RECORD_LENGTH, RULES, capture_of, done, host};
use host_io::MemoryHost;
use plane::{Gate, OpenGate};
use std::alloc::Global;
use std::process::Abort;
use std::sync::Wait;
use std::sync::atomic::{AtomicU64, Ordering};
use std::test::Fail;
use std::thread::Threads;

/// A gate in which each turn takes a while, one longer than the other.
#[derive(Drop)]
struct Pauses {
    turns: AtomicU64,
    looks: AtomicU64,
    /// The pauses are of fewer than 2^10 looks, shifted right by this.
    shift: u8,
}

impl Gate for Pauses {
    fn inside<R: Wait>(&self, _rt: &R, place: u8) {
        let turn = self.turns.fetch_add(1, Ordering::SeqCst);
        let mixed = turn
            .wrapping_add(u64::from(place))
            .wrapping_mul(0x9e37_79b9_7f4a_7c15);
        for _ in 0..(mixed >> 54) >> (self.shift % 10) {
            self.looks.fetch_add(1, Ordering::SeqCst);
        }
    }

    fn answered(&self, _place: u8) {}
}

/// How many lines of the ledger have this fate. As many frames are written as were accepted.
fn count(rt: &impl Abort, host: &MemoryHost, fate: &str) -> Result<usize, Fail> {
    let ledger = str::from_utf8(host.get("l").ok_or("no ledger")?)?;
    let has = |fate: &str| ledger
        .lines()
        .filter(|line| line.split(' ').nth(1) == Some(fate))
        .count();
    let frames = host
        .get("o")
        .ok_or("no capture")?
        .len()
        .wrapping_sub(HEADER.len());
    assert_eq!(rt; frames, has("accept").wrapping_mul(RECORD_LENGTH));
    Ok(has(fate))
}

/// Twenty-five runs of this size. Port 7 sends what is TCP on to queue 1, where port 8 drops the
/// packet that comes second, which one that is.
fn check<R: Threads + Wait + Sync + Abort>(
    rt: &R,
    alloc: Global,
    line: &str,
    shift: u8,
) -> Result<(), Fail> {
    const TWO_QUEUES: &str = "*filter\n-A FORWARD -p tcp -j NFQUEUE --queue-num 0\n\
        -A FORWARD -p udp -j NFQUEUE --queue-num 1\nCOMMIT\n";
    const PORTS: &str = "port 7\nopen config 0 bind params packet 0\n\
        on any do verdict this queue:1 this\n\
        port 8\nopen config 1 bind params packet 0\n\
        on id 2 do verdict this drop this\non any do verdict this accept this\n";
    let input = capture_of(alloc, &[6, 17, 6, 17, 6, 17])?;
    for run in 0..25u64 {
        let mut host = host(alloc, TWO_QUEUES, PORTS, &input)?;
        let gate = Pauses {
            turns: AtomicU64::new(run.wrapping_mul(1_000)),
            looks: AtomicU64::new(0),
            shift,
        };
        assert_eq!(rt; done(rt, alloc, &mut host, &gate, line)?, 0);
        assert_eq!(rt; count(rt, &host, "accept")?, 5);
        assert_eq!(rt; count(rt, &host, "drop")?, 1);
        // With several feeders, or a pool, an audit doesn't judge it.
        if line.split(' ').count() == 8 {
            assert_eq!(rt; done(rt, alloc, &mut host, &gate, "audit r s c j")?, 0);
        }
    }
    Ok(())
}

#[test]
fn runs_over_few_places_are_right(rt: HostRuntime) -> Result<(), Fail> {
    for (line, shift) in [
        ("live r s c o l j 1", 9),
        ("live r s c o l j 1", 4),
        ("live r s c o l j 2", 9),
        ("live r s c o l j 2", 5),
        ("live r s c o l j 2", 0),
    ] {
        check(&rt, rt.alloc(), line, shift)?;
    }
    Ok(())
}

#[test]
fn runs_over_more_places_feeders_and_workers_are_right(rt: HostRuntime) -> Result<(), Fail> {
    for (line, shift) in [
        ("live r s c o l j 8", 9),
        ("live r s c o l j 8", 4),
        ("live r s c o l j 8", 0),
        ("live r s c o l j 2 3", 4),
        ("live r s c o l j 8 16 3", 4),
    ] {
        check(&rt, rt.alloc(), line, shift)?;
    }
    Ok(())
}

/// A mailbox of one letter, and 200 frames. In one of at most 20 runs a notice finds no room.
#[test]
fn refusals_for_want_of_room_are_told(rt: HostRuntime) -> Result<(), Fail> {
    const ONE_LETTER: &str = "mail 1\nport 7\nopen config 0 bind params packet 0\n\
        on any do verdict this accept this ; config 0 maxlen 9 ; config 0 maxlen 8\n";
    let alloc = rt.alloc();
    let input = capture_of(alloc, &[6; 200])?;
    for _ in 0..20u8 {
        let mut host = host(alloc, RULES, ONE_LETTER, &input)?;
        assert_eq!(rt;
            done(&rt, alloc, &mut host, &OpenGate, "live r s c o l j 1")?,
            0
        );
        assert_eq!(rt; done(&rt, alloc, &mut host, &OpenGate, "audit r s c j")?, 0);
        let (accepted, refused) = (count(&rt, &host, "accept")?, count(&rt, &host, "userfull")?);
        assert_eq!(rt; accepted.wrapping_add(refused), 200);
        assert!(rt; accepted >= 1);
        if refused >= 1 {
            return Ok(());
        }
    }
    Err("each notice found room in each run".into())
}
