//! Journals of which all parts hold, and whether all their events have one order.

use super::{capture_of, cut, frame, histories, line_found, script, tables};
use packet_entry::NoMemory;
use pcap_io::Capture;
use std::alloc::Global;
use std::test::Fail;

/// TCP goes to queue 0, UDP to queue 1.
const RULES: &[u8] = b"*filter
-A FORWARD -p tcp -j NFQUEUE --queue-num 0
-A FORWARD -p udp -j NFQUEUE --queue-num 1
COMMIT
";

/// Lines with names: what ports 7 and 8 ask first, and what is said of it; packets of TCP (`tcp1`
/// to `tcp3`) and of UDP (`udp2`) that come first, and again; a verdict that sends a packet on; and
/// what the ports ask of queues 2 and 3, which are absent.
pub(super) const LINES: [(&str, &str); 16] = [
    ("open4", "M 0 7 1 config 0 cmd 1 params 2 4 = 0 0"),
    ("open", "M 0 7 1 config 0 cmd 1 params 2 0 = 0 0"),
    ("said", "S 1 config 0 cmd 1 params 2 0 = 0"),
    ("open8", "M 1 8 1 config 1 cmd 1 params 2 0 = 0 0"),
    ("said8", "S 1 config 1 cmd 1 params 2 0 = 0"),
    (
        "tcp1",
        "A 0 1 1 1 n y 0 0 1 0 2048 - 4500001400000000400600000000000000000000 taken:1",
    ),
    (
        "tcp2",
        "A 0 2 1 1 n y 0 0 2 0 2048 - 4500001400000000400600000000000000000000 taken:2",
    ),
    (
        "tcp3",
        "A 0 3 1 1 n y 0 0 3 0 2048 - 4500001400000000400600000000000000000000 taken:3",
    ),
    (
        "udp2",
        "A 1 2 1 1 n y 0 0 2 0 2048 - 4500001400000000401100000000000000000000 taken:1",
    ),
    (
        "tcp1again",
        "A 1 1 2 1 n y 0 0 1 0 2048 - 4500001400000000400600000000000000000000 taken:2",
    ),
    (
        "udp2again",
        "A 0 2 2 1 n y 0 0 2 0 2048 - 4500001400000000401100000000000000000000 taken:2",
    ),
    ("tcp1goes", "M 0 7 2 verdict 0 65539 1 = 0 1"),
    ("asks72", "M 2 7 2 config 2 params 2 0 = 19 0"),
    ("asks82", "M 2 8 3 config 2 params 2 0 = 19 0"),
    ("asks73", "M 3 7 3 config 3 params 2 0 = 19 0"),
    ("asks83", "M 3 8 2 config 3 params 2 0 = 19 0"),
];

/// Runs by name: the frames, `t` one of TCP and `u` one of UDP; a script; and a journal.
const RUNS: [(&str, &str, &str, &str); 7] = [
    // Each packet is told by its first four bytes, which don't show its protocol, and is accepted.
    (
        "accepts",
        "ttt",
        ANSWERS,
        "open4/tcp1/M 0 7 2 verdict 0 1 1 = 0 1/tcp2/M 0 7 3 verdict 0 1 2 = 0 1/tcp3/\
M 0 7 4 verdict 0 1 3 = 0 1/P 7/S 1 config 0 cmd 1 params 2 4 = 0/R 0 1 1/S 2 verdict 0 1 1 = -/\
R 0 2 1/S 3 verdict 0 1 2 = -/R 0 3 1/S 4 verdict 0 1 3 = -",
    ),
    // The answer to the first packet stands before it. So each is told as a whole, and dropped.
    (
        "drops",
        "ttt",
        ANSWERS,
        "open4/whole/tcp1/M 0 7 3 verdict 0 0 1 = 0 1/tcp2/M 0 7 4 config 0 params 2 0 = 0 0/\
M 0 7 5 verdict 0 0 2 = 0 1/tcp3/M 0 7 6 config 0 params 2 0 = 0 0/M 0 7 7 verdict 0 0 3 = 0 1/\
P 7/S 1 config 0 cmd 1 params 2 4 = 0/R 0 1 1/s2/S 3 verdict 0 0 1 = -/\
R 0 2 1/S 4 config 0 params 2 0 = 0/S 5 verdict 0 0 2 = -/\
R 0 3 1/S 6 config 0 params 2 0 = 0/S 7 verdict 0 0 3 = -",
    ),
    // Port 7 sends the first packet on to queue 1, and port 8 the second one to queue 0.
    (
        "crossing",
        "tu",
        "port 7/open config 0 bind params packet 0/on id 1 do verdict this queue:1 this/\
port 8/open config 1 bind params packet 0/on id 1 do verdict this queue:0 this",
        "open/tcp1/tcp1goes/udp2again/open8/udp2/tcp1again/M 1 8 2 verdict 1 3 1 = 0 1/\
P 7/said/R 0 1 1/S 2 verdict 0 65539 1 = -/R 0 2 2/\
P 8/said8/R 1 2 1/S 2 verdict 1 3 1 = -/R 1 1 2",
    ),
    // In answer to a packet port 7 asks of queue 2, then of queue 3; port 8 the other way round.
    (
        "requests",
        "tu",
        "port 7/open config 0 bind params packet 0/\
on any do config 2 params packet 0 ; config 3 params packet 0/\
port 8/open config 1 bind params packet 0/\
on any do config 3 params packet 0 ; config 2 params packet 0",
        "open/tcp1/open8/udp2/asks72/asks82/asks73/asks83/\
P 7/said/R 0 1 1/S 2 config 2 params 2 0 = 19/S 3 config 3 params 2 0 = 19/\
P 8/said8/R 1 2 1/S 2 config 3 params 2 0 = 19/S 3 config 2 params 2 0 = 19",
    ),
    // The packet's second visit is answered before its first, by which it is sent there.
    (
        "returns",
        "t",
        "port 7/open config 0 bind params packet 0/open config 1 bind params packet 0/\
on queue 0 do verdict this queue:1 this/on any do verdict this accept this",
        "open/tcp1/M 0 7 4 verdict 0 65539 1 = 0 1/M 1 7 2 config 1 cmd 1 params 2 0 = 0 0/\
A 1 1 2 1 n y 0 0 1 0 2048 - 4500001400000000400600000000000000000000 taken:1/\
M 1 7 3 verdict 1 1 1 = 0 1/\
P 7/said/S 2 config 1 cmd 1 params 2 0 = 0/R 1 1 2/S 3 verdict 1 1 1 = -/\
R 0 1 1/S 4 verdict 0 65539 1 = -",
    ),
    // Port 7 closes at queue 2. Then port 8 binds that queue, and sends a packet by way of it to
    // queue 3, where port 7 receives it.
    (
        "closes",
        "t",
        "port 7/open config 2 bind/open config 3 bind params packet 0/end close/\
port 8/open config 0 bind params packet 0/\
on queue 0 do config 2 bind params packet 0 ; verdict this queue:2 this/\
on queue 2 do verdict this queue:3 this",
        "M 0 8 1 config 0 cmd 1 params 2 0 = 0 0/tcp1/M 0 8 3 verdict 0 131075 1 = 0 1/\
M 2 7 1 config 2 cmd 1 = 0 0/C 2 7 0/M 2 8 2 config 2 cmd 1 params 2 0 = 0 0/\
A 2 1 2 1 n y 0 0 1 0 2048 - 4500001400000000400600000000000000000000 taken:1/\
M 2 8 4 verdict 2 196611 1 = 0 1/M 3 7 2 config 3 cmd 1 params 2 0 = 0 0/\
A 3 1 3 1 n y 0 0 1 0 2048 - 4500001400000000400600000000000000000000 taken:1/C 3 7 1/\
P 7/S 1 config 2 cmd 1 = 0/S 2 config 3 cmd 1 params 2 0 = 0/R 3 1 3/X/\
P 8/said/R 0 1 1/S 2 config 2 cmd 1 params 2 0 = 0/S 3 verdict 0 131075 1 = -/\
R 2 1 2/S 4 verdict 2 196611 1 = -",
    ),
    // Port 7 asks of queue 3 and closes, at queue 2 too, where port 8 asks at its end.
    (
        "ends",
        "t",
        "port 7/open config 2 bind/open config 0 bind params packet 0/\
on any do config 3 params packet 0/end close/\
port 8/end config 2 params packet 0/end config 3 params packet 0",
        "M 0 7 2 config 0 cmd 1 params 2 0 = 0 0/tcp1/C 0 7 1/\
M 2 7 1 config 2 cmd 1 = 0 0/C 2 7 0/M 2 8 1 config 2 params 2 0 = 19 0/\
asks73/asks83/\
P 7/S 1 config 2 cmd 1 = 0/S 2 config 0 cmd 1 params 2 0 = 0/R 0 1 1/\
S 3 config 3 params 2 0 = 19/X/\
P 8/S 1 config 2 params 2 0 = 19/S 2 config 3 params 2 0 = 19",
    ),
];

/// The answer makes notices of all that comes later show the protocol.
const ANSWERS: &str = "port 7/open config 0 bind params packet 4/\
on proto 6 do config 0 params packet 0 ; verdict this drop this/\
on any do verdict this accept this";

/// A run and changes of its journal, and the line that is printed.
pub(super) const ROWS: &str = "\
accepts| => \n\
drops| => audit: makers i
drops|whole>tcp1,tcp1>whole => audit: makers a
crossing| => \n\
crossing|tcp1goes>udp2again,udp2again>tcp1goes => audit: makers i
requests| => \n\
requests|asks73>asks83,asks83>asks73 => \n\
requests|asks72>asks82,asks82>asks72 => audit: makers i
returns| => audit: makers i
closes| => audit: makers i
ends| => \n\
ends|asks73>asks83,asks83>asks73 => audit: makers i";

/// A frame for each letter: an IPv4 header alone, whose protocol is TCP or else UDP.
fn capture(alloc: Global, letters: &str) -> Result<Capture, NoMemory> {
    let mut frames = Vec::new(alloc);
    let mut seconds: u32 = 0;
    for letter in letters.as_bytes() {
        seconds = seconds.wrapping_add(1);
        let protocol = if *letter == b't' { 6 } else { 17 };
        let mut header = [0; 20];
        header[0] = 0x45;
        header[3] = 20;
        header[8] = 64;
        header[9] = protocol;
        frames.push(frame(alloc, seconds, &header)?)?;
    }
    Ok(capture_of(frames))
}

/// A run and changes of its journal: the line that is printed of what is found.
pub(super) fn found(alloc: Global, row: &str) -> Result<String, Fail> {
    let (name, changes) = cut(row)?;
    for &(run, frames, text, lines) in &RUNS {
        if run == name {
            let (script, histories) = (script(alloc, text)?, histories(alloc, lines, changes)?);
            let (tables, capture) = (tables(alloc, RULES)?, capture(alloc, frames)?);
            return line_found(alloc, &tables, &capture, &script, &histories);
        }
    }
    Err(Fail::new("an unknown run"))
}
