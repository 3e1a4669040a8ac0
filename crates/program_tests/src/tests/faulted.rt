//! Each command with a fault at each call of the host in turn. At status 2 each output is as it
//! was; at 3 the outputs before the one that couldn't be written are whole, and those behind it are
//! as they were.

use super::{RULES, SCRIPT, capture_of, done, host, words};
use commands::{live, play};
use host_io::MemoryHost;
use plane::OpenGate;
use std::alloc::Global;
use std::process::Abort;
use std::sync::Wait;
use std::test::Fail;
use std::thread::Threads;

/// What an output held before the command.
const BEFORE: &[u8] = b"before";

/// More calls of the host than any command here makes.
const CALLS: u64 = 200;

/// What is queued is destroyed as its queue is unbound, and nothing is released.
const UNBOUND: &str = "port 7\nopen config 0 bind params packet 0\nend config 0 unbind\n";

/// The journal of the run by the rules and the script above over three packets.
const JOURNAL: &str = "nfq-journal 2
M 0 7 1 config 0 cmd 1 = 0 0
M 0 7 2 config 0 params 2 0 = 0 0
A 0 1 1 1 n y 0 0 1 0 2048 - 4500001400010000400600000a0000010a000002 taken:1
M 0 7 3 verdict 0 1 1 = 0 1
A 0 2 1 1 n y 0 0 2 0 2048 - 4500001400020000400600000a0000010a000002 taken:2
M 0 7 4 verdict 0 0 2 = 0 1
A 0 3 1 1 n y 0 0 3 0 2048 - 4500001400030000400600000a0000010a000002 taken:3
M 0 7 5 verdict 0 1 3 = 0 1
P 7
S 1 config 0 cmd 1 = 0
S 2 config 0 params 2 0 = 0
R 0 1 1
S 3 verdict 0 1 1 = -
R 0 2 1
S 4 verdict 0 0 2 = -
R 0 3 1
S 5 verdict 0 1 3 = -
end
";

/// A script, a command, and its outputs in the order of their writing.
type Row = (&'static str, &'static str, &'static [&'static str]);

/// Of the runs with threads no thread can change what is written.
const ROWS: [Row; 9] = [
    (SCRIPT, "play r s c o l j", &["o", "l", "j"]),
    (SCRIPT, "list r s c o", &["o"]),
    (SCRIPT, "audit r s c told", &[]),
    (SCRIPT, "migrate told o", &["o"]),
    (SCRIPT, "gen 7 3 o l j", &["o", "l", "j"]),
    (SCRIPT, "trial 7 3", &["-"]),
    (UNBOUND, "play r s c o l j", &["o", "l", "j"]),
    (UNBOUND, "live r s c o l j 2", &["o", "l", "j"]),
    (
        "port 7\nend close\n",
        "live r s c o l j 1 1 2",
        &["o", "l", "j"],
    ),
];

/// The host of a run, with a journal too, and something in each output.
fn filled(alloc: Global, script: &str, outputs: &[&str]) -> Result<MemoryHost, Fail> {
    let mut host = host(alloc, RULES, script, &capture_of(alloc, &[6, 6, 6])?)?;
    host.put(alloc, "told", JOURNAL.as_bytes())?;
    for name in outputs {
        host.put(alloc, name, BEFORE)?;
    }
    Ok(host)
}

/// The outputs are as a command with this status leaves them.
fn stand(rt: &impl Abort, host: &MemoryHost, whole: &MemoryHost, outputs: &[&str], status: u8) {
    let mut count = 0usize;
    for name in outputs {
        if host.get(name) != whole.get(name) {
            break;
        }
        count = count.wrapping_add(1);
    }
    let untouched = match status {
        0 => outputs.len(),
        2 => 0,
        3 => count.wrapping_add(1),
        _ => usize::MAX,
    };
    assert!(rt; status != 0 || count == outputs.len());
    assert!(rt; untouched != usize::MAX, "another status");
    for name in outputs.get(untouched..).unwrap_or(&[]) {
        assert!(rt; host.get(name) == Some(BEFORE));
    }
}

/// What a call of the host does at a fault.
#[derive(Clone, Copy)]
enum Fault {
    Fails,
    TakesNothing,
}

/// The status of a command whose n-th call of the host has this fault. Nothing is printed but what
/// is an output, and the inputs stay.
fn with_fault<R: Threads + Wait + Sync + Abort>(
    rt: &R,
    alloc: Global,
    (script, line, outputs): Row,
    whole: &MemoryHost,
    (fault, n): (Fault, u64),
) -> Result<u8, Fail> {
    let mut host = filled(alloc, script, outputs)?;
    match fault {
        Fault::Fails => host.fail_call(n)?,
        Fault::TakesNothing => host.short_call(n)?,
    }
    let status = done(rt, alloc, &mut host, &OpenGate, line)?;
    stand(rt, &host, whole, outputs, status);
    for name in ["r", "s", "c", "told"] {
        assert!(rt; host.get(name) == whole.get(name));
    }
    assert!(rt; outputs.first() == Some(&"-") || host.get("-").is_none());
    Ok(status)
}

/// Each call of the host fails in turn, up to the first number with which all is well: before that
/// the status is 2 or 3. A call that takes nothing has a fault exactly where it is a write.
fn check<R: Threads + Wait + Sync + Abort>(rt: &R, alloc: Global, row: Row) -> Result<(), Fail> {
    let (script, line, outputs) = row;
    let mut whole = filled(alloc, script, outputs)?;
    assert_eq!(rt; done(rt, alloc, &mut whole, &OpenGate, line)?, 0);
    let mut faults = 0u64;
    for n in 1..CALLS {
        let failed = with_fault(rt, alloc, row, &whole, (Fault::Fails, n))?;
        let short = with_fault(rt, alloc, row, &whole, (Fault::TakesNothing, n))?;
        assert_eq!(rt; short, if failed == 3 { 3 } else { 0 });
        if failed == 0 {
            break;
        }
        faults = n;
    }
    // Each output takes a write or more.
    assert!(rt; faults >= u64::try_from(outputs.len()).unwrap_or(u64::MAX));
    assert!(rt; faults < CALLS - 1);
    Ok(())
}

#[test]
fn a_fault_at_each_call_leaves_whole_and_untouched_outputs(rt: HostRuntime) -> Result<(), Fail> {
    for &row in &ROWS {
        check(&rt, rt.alloc(), row)?;
    }
    Ok(())
}

const USAGE: &str = "usage: play RULES SCRIPT IN OUT LEDGER JOURNAL | \
    live RULES SCRIPT IN OUT LEDGER JOURNAL PLACES [FEEDERS [POOL]] | list RULES SCRIPT IN OUT | \
    gen NUMBER COUNT RULES SCRIPT IN | trial NUMBER COUNT | migrate OLD NEW | \
    audit RULES SCRIPT IN JOURNAL\n";

/// Words that are no command of the call print how all are used.
#[test]
fn other_words_are_no_command(rt: HostRuntime) -> Result<(), Fail> {
    const LINES: [&str; 9] = [
        "play r s c o o j",
        "live r s c o l j",
        "live r s c o l j 0",
        "live r s c o l j 65",
        "live r s c o l j 01",
        "live r s c o l j 1 17",
        "live r s c o l j 1 1 17",
        "live r s c o l j 1 1 1 1",
        "play r s c o l j 1",
    ];
    let alloc = rt.alloc();
    for line in &LINES {
        for is_live in [false, true] {
            let mut host = host(alloc, RULES, SCRIPT, b"")?;
            let words = words(alloc, line)?;
            let status = if is_live {
                live(&rt, alloc, &words, &mut host, &OpenGate)
            } else {
                play(alloc, &words, &mut host)
            };
            assert_eq!(rt; status, 1);
            assert!(rt; host.get("-") == Some(USAGE.as_bytes()));
            assert!(rt; host.get("o").is_none());
        }
    }
    Ok(())
}

/// That a refusal can't be printed changes no status. The rules take two reads.
#[test]
fn a_refusal_that_is_not_printed_stays(rt: HostRuntime) -> Result<(), Fail> {
    let alloc = rt.alloc();
    let mut host = host(alloc, "x", SCRIPT, b"")?;
    host.fail_call(3)?;
    assert_eq!(rt;
        done(&rt, alloc, &mut host, &OpenGate, "play r s c o l j")?,
        5
    );
    assert!(rt; host.get("o").is_none());
    Ok(())
}
