//! Runs with threads, over one place and over many. What happened is compared by number, where no
//! order of threads changes it.

use super::{are_small, capture, script_of};
use histories::Histories;
use hook_chain::{Tables, read_tables};
use inspector_pool::OpenJobGate;
use nfq_live::{open_plane, run_feeders, run_pools, run_workers};
use plane::OpenGate;
use std::alloc::Global;
use std::sync::Wait;
use std::test::Fail;
use std::thread::Threads;

/// Every packet is queued at queue 0.
const ONE_QUEUE: &[u8] = b"*filter\n-A FORWARD -j NFQUEUE --queue-num 0\nCOMMIT\n";

/// A packet goes to the queue of its feeder, among two.
const BY_TWO: &[u8] =
    b"*filter\n-A FORWARD -j NFQUEUE --queue-balance 0:1 --queue-cpu-fanout\nCOMMIT\n";

/// Two requests, and a verdict for each packet.
const ANSWERED: &[u8] = b"port 7\nopen config 0 bind\nopen config 0 params packet 0
on id 2 do verdict this drop this\non any do verdict this accept this\n";

/// Packets wait until a device goes down after the second frame.
const UNANSWERED: &[u8] = b"down 1 after 2\nport 7\nopen config 0 bind params packet 0\n";

/// A packet comes back until its last visit.
const REPEATED: &[u8] = b"port 7\nopen config 0 bind\nopen config 0 params packet 0
on any do verdict this repeat this\n";

/// A second port asks, by the bytes of a message, for the first one's queue, and at the end for a
/// batch of it; by then the first one has unbound it, and closed.
const CLOSED: &[u8] = b"port 7\nopen config 0 bind params packet 0\nend config 0 unbind\nend close
port 8\nopen raw 1c0000000203050001000000080000000000000008000100010000001c00
end batch 0 accept 3\n";

/// Two requests, a queue each, and a verdict for each packet; a device goes down after frames of
/// two feeders.
const TWO_QUEUES: &[u8] = b"down 5 after 3\ndown 6 after 4\nport 7
open config 0 bind params packet 0\nopen config 1 bind params packet 0
on any do verdict this accept this\n";

/// What is run: a script, so many packets, rules, places, feeders, and workers behind each port.
type Run = (&'static [u8], u8, &'static [u8], u8, u32, u32);

fn tables(alloc: Global, text: &[u8]) -> Result<Tables, Fail> {
    if text.len() >= 1000 {
        return Err(Fail::new("long rules"));
    }
    match read_tables(alloc, text) {
        Ok(tables) => Ok(tables),
        Err(_) => Err(Fail::new("rules")),
    }
}

/// How many entries a run has, and how many things its ports did.
fn counts_in(histories: &Histories) -> (usize, usize) {
    let mut done: usize = 0;
    for log in &histories.logs {
        done = done.saturating_add(log.dids.len());
    }
    (histories.entries.len(), done)
}

/// These of a run.
fn counts<R: Threads + Wait + Sync>(
    rt: &R,
    alloc: Global,
    run: Run,
) -> Result<(usize, usize), Fail> {
    let (text, packets, rules, places, feeders, pool) = run;
    let capture = capture(alloc, packets, 0)?;
    let script = script_of(alloc, text)?;
    if !are_small(&capture.frames)
        || places < 1
        || places > 64
        || feeders < 1
        || feeders > 16
        || pool < 1
        || pool > 16
    {
        return Err(Fail::new("no such run"));
    }
    let tables = tables(alloc, rules)?.with_feeders(feeders);
    let opened = open_plane(alloc, places, &script, tables)?;
    let (gate, jobs) = (&OpenGate, &OpenJobGate);
    let histories = if pool > 1 {
        run_pools(
            rt, alloc, opened, &script, &capture, feeders, pool, gate, jobs,
        )?
    } else if feeders > 1 {
        run_feeders(rt, alloc, opened, &script, &capture, feeders, gate)?
    } else {
        run_workers(rt, alloc, opened, &script, &capture, gate)?
    };
    Ok(counts_in(&histories))
}

#[test]
fn runs_go_as_far_as_the_script_says(rt: HostRuntime) -> Result<(), Fail> {
    // The runs, how many entries each has, and how many things its ports did.
    const RUNS: [(Run, (usize, usize)); 7] = [
        // Two requests, and an arrival and a verdict for each packet.
        ((ANSWERED, 200, ONE_QUEUE, 1, 1, 1), (402, 402)),
        // Two devices more, at each of two queues.
        ((TWO_QUEUES, 200, BY_TWO, 64, 2, 1), (406, 402)),
        ((TWO_QUEUES, 200, BY_TWO, 2, 2, 4), (406, 402)),
        // One request, three arrivals, and the device.
        ((UNANSWERED, 3, ONE_QUEUE, 2, 1, 1), (5, 4)),
        // Two requests, 32 visits with a verdict each, and the 33rd.
        ((REPEATED, 1, ONE_QUEUE, 8, 1, 1), (67, 66)),
        // The bind, the other port's bind, an arrival, the unbind, and the batch for no queue.
        ((CLOSED, 1, ONE_QUEUE, 1, 1, 1), (5, 6)),
        ((CLOSED, 1, ONE_QUEUE, 64, 1, 2), (5, 6)),
    ];
    for (run, wanted) in RUNS {
        let counts = counts(&rt, rt.alloc(), run)?;
        assert_eq!(rt; counts, wanted);
    }
    Ok(())
}
