//! The run of a script that has most kinds of lines.

ghost use Rattle.std.specs.Prelude.{◌≤◌, All, IsTrue, length};
ghost use Rattle.packet_entry.specs.Numbers.{longest_packet};

use super::{ONE_RULE, journal_of, packet_bytes};
use histories::Histories;
use hook_chain::read_tables;
use inspector_script::read_script;
use packet_entry::{Bytes, MAX_FRAME, NoMemory};
use pcap_io::{Capture, Frame, Frames};
use solo_run::solo;
use std::alloc::Global;
use std::test::Fail;

/// Link type of raw IP.
const RAW: u32 = 101;

/// Notices are answered behind the second frame and the last. Port 8 asks for the queue of port 7
/// by the bytes of a message, with two more behind it; that of port 9 is bound to the end.
const SCRIPT: &[u8] = b"pace 2
down 1 after 3
port 7
open config 0 bind params packet 0
on id 1 do batch this accept this ; verdict 0 accept 9
on id 2 do verdict this drop this
end config 0 unbind
end close
port 8
open raw 1c0000000203050001000000080000000000000008000100010000001c00
end batch 0 accept 3
port 9
open config 3 bind
end close
";

/// What then happens to three packets.
const JOURNAL: &str = "nfq-journal 2
M 0 7 1 config 0 cmd 1 params 2 0 = 0 0
M 0 8 1 config 0 cmd 1 = 1 0
A 0 1 1 1 n y 0 0 1 0 2048 - 4500001400010000400600000a0000010a000002 taken:1
A 0 2 1 1 n y 0 0 2 0 2048 - 4500001400020000400600000a0000010a000002 taken:2
M 0 7 2 batch 0 1 1 = 0 1
M 0 7 3 verdict 0 1 9 = 2 0
M 0 7 4 verdict 0 0 2 = 0 1
A 0 3 1 1 n y 0 0 3 0 2048 - 4500001400030000400600000a0000010a000002 taken:3
D 0 1 1
M 0 7 5 config 0 cmd 2 = 0 0
M 0 8 2 batch 0 1 3 = 19 0
M 3 9 1 config 3 cmd 1 = 0 0
D 3 1 0
C 3 9 0
P 7
S 1 config 0 cmd 1 params 2 0 = 0
R 0 1 1
S 2 batch 0 1 1 = -
S 3 verdict 0 1 9 = 2
R 0 2 1
S 4 verdict 0 0 2 = -
R 0 3 1
S 5 config 0 cmd 2 = 0
X
P 8
S 1 config 0 cmd 1 = 1
S 2 batch 0 1 3 = 19
P 9
S 1 config 3 cmd 1 = 0
X
end
";

/// A capture of three packets, a second apart.
fn capture(alloc: Global) -> Result<Capture, NoMemory> {
    let mut frames = Vec::new(alloc);
    for number in 1..4u8 {
        frames.push(Frame {
            seconds: u32::from(number),
            fraction: 0,
            original: 20,
            bytes: Bytes::copy(alloc, &packet_bytes(number))?,
        })?;
    }
    Ok(Capture {
        big: false,
        nanos: false,
        zone: 0,
        sigfigs: 0,
        snap: 65_535,
        link: RAW,
        frames: Frames::from_vec(frames),
    })
}

/// Whether each frame is short enough for a run.
fn are_short(frames: &Frames) -> bool
    ensures { IsTrue result → All (λ f. length f.bytes ≤ longest_packet) frames.now }
{
    for frame in frames {
        if frame.bytes.len() > MAX_FRAME {
            return false;
        }
    }
    true
}

/// The histories of the run.
fn histories(alloc: Global) -> Result<Histories, Fail> {
    let capture = capture(alloc)?;
    if capture.frames.len() > 1000 || !are_short(&capture.frames) {
        return Err(Fail::new("frames"));
    }
    let (Ok(tables), Ok(script)) = (read_tables(alloc, ONE_RULE), read_script(alloc, SCRIPT)) else {
        return Err(Fail::new("the rules or the script aren't read"));
    };
    Ok(solo(alloc, &script, tables, &capture)?)
}

#[test]
fn a_script_is_run(rt: HostRuntime) -> Result<(), Fail> {
    let histories = histories(rt.alloc())?;
    let journal = journal_of(rt.alloc(), &histories)?;
    assert_eq!(rt; journal.as_slice(), JOURNAL.as_bytes());
    Ok(())
}
