//! Runs of the commands over hosts in memory, with faults, gates and threads. What a run on given
//! files writes is shown by the examples.

mod beside;
mod faulted;
mod raced;

use commands::{live, play};
use host_io::MemoryHost;
use plane::Gate;
use std::alloc::{AllocError, Global};
use std::sync::Wait;
use std::test::Fail;
use std::thread::Threads;

/// One table with one rule, which queues every packet at queue 0.
const RULES: &str = "*filter\n-A FORWARD -j NFQUEUE --queue-num 0\nCOMMIT\n";

/// The second packet is dropped, every other one accepted.
const SCRIPT: &str = "port 7\nopen config 0 bind\nopen config 0 params packet 0\n\
    on id 2 do verdict this drop this\non any do verdict this accept this\n";

/// The header of a capture: little-endian, microseconds, version 2.4, no snap length, raw IP.
const HEADER: [u8; 24] = [
    0xd4, 0xc3, 0xb2, 0xa1, 2, 0, 4, 0, 0, 0, 0, 0, 0, 0, 0, 0, 0, 0, 0, 0, 101, 0, 0, 0,
];

/// The bytes of a record of the captures here, with its frame of 20.
const RECORD_LENGTH: usize = 36;

/// A capture of packets of these protocols, from 10.0.0.1 to 10.0.0.2, packet `n` at second `n`.
fn capture_of(alloc: Global, protocols: &[u8]) -> Result<Vec<u8>, AllocError> {
    let mut bytes = Vec::from_slice(alloc, &HEADER)?;
    let mut n = 0u8;
    for protocol in protocols {
        n = n.wrapping_add(1);
        bytes.extend_from_slice(&[
            n, 0, 0, 0, 0, 0, 0, 0, 20, 0, 0, 0, 20, 0, 0, 0, 0x45, 0, 0, 0x14, 0, n, 0, 0, 0x40,
            *protocol, 0, 0, 10, 0, 0, 1, 10, 0, 0, 2,
        ])?;
    }
    Ok(bytes)
}

/// A host with the three inputs under the names `r`, `s` and `c`, and room for the outputs `o`, `l`
/// and `j` and for what is printed.
fn host(alloc: Global, rules: &str, script: &str, input: &[u8]) -> Result<MemoryHost, Fail> {
    let mut host = MemoryHost::new(alloc);
    host.put(alloc, "r", rules.as_bytes())?;
    host.put(alloc, "s", script.as_bytes())?;
    host.put(alloc, "c", input)?;
    for name in ["o", "l", "j", "-"] {
        host.room(alloc, name, 1_000_000)?;
    }
    Ok(host)
}

/// The words of a line, as a command's arguments.
fn words(alloc: Global, line: &str) -> Result<Vec<String>, AllocError> {
    let mut all = Vec::new(alloc);
    for word in line.split(' ') {
        all.push(String::from_str(alloc, word)?)?;
    }
    Ok(all)
}

/// The status of the command that this line is.
fn done<R: Threads + Wait + Sync, G: Gate>(
    rt: &R,
    alloc: Global,
    host: &mut MemoryHost,
    gate: &G,
    line: &str,
) -> Result<u8, AllocError> {
    let words = words(alloc, line)?;
    if line.starts_with("live ") {
        return Ok(live(rt, alloc, &words, host, gate));
    }
    Ok(play(alloc, &words, host))
}
