//! Inputs that are refused, what is printed, faults of the host, and a file of several parts.

use command_line::Inputs;
use host_io::MemoryHost;
use run_files::{CaptureFile, Stop, print_usage, read_inputs};
use std::alloc::{AllocError, Global};
use std::test::Fail;

/// The names of the inputs.
const INPUTS: Inputs<'static> = Inputs {
    rules: "r",
    script: "s",
    capture: "c",
};

/// One table with one rule, which queues every packet at queue 0.
const RULES: &str = "*filter/-A FORWARD -j NFQUEUE --queue-num 0/COMMIT";

/// The header of a capture: little-endian, microseconds, version 2.4, no snap length, raw IP.
const HEADER: [u8; 24] = [
    0xd4, 0xc3, 0xb2, 0xa1, 2, 0, 4, 0, 0, 0, 0, 0, 0, 0, 0, 0, 0, 0, 0, 0, 101, 0, 0, 0,
];

/// A record of a packet of 20 bytes from 10.0.0.1 to 10.0.0.2.
const RECORD: [u8; 36] = [
    1, 0, 0, 0, 0, 0, 0, 0, 20, 0, 0, 0, 20, 0, 0, 0, 0x45, 0, 0, 0x14, 0, 1, 0, 0, 0x40, 6, 0, 0,
    10, 0, 0, 1, 10, 0, 0, 2,
];

/// A capture of so many of these records.
fn capture(alloc: Global, records: u32) -> Result<Vec<u8>, AllocError> {
    let mut bytes = Vec::from_slice(alloc, &HEADER)?;
    for _ in 0..records {
        bytes.extend_from_slice(&RECORD)?;
    }
    Ok(bytes)
}

/// A host with these inputs, of whose texts `/` ends the lines.
fn host(alloc: Global, rules: &str, script: &str, input: &[u8]) -> Result<MemoryHost, Fail> {
    let mut host = MemoryHost::new(alloc);
    host.put(alloc, "r", rules.replace(alloc, "/", "\n")?.as_bytes())?;
    host.put(alloc, "s", script.replace(alloc, "/", "\n")?.as_bytes())?;
    host.put(alloc, "c", input)?;
    Ok(host)
}

/// Rules, script, how many bytes of a capture of three packets are there, which of them is another,
/// and the status with the line that is printed. The third byte of the first record's length makes
/// it 4 * 65,536 + 20.
const REFUSED: &str = "\
*filter/x/COMMIT|port 7|132||5 rules refused: line 2
*filter|port 7|132||5 rules refused: line 2
*filter/-A FORWARD -j NFQUEUE --queue-balance 0:65535/COMMIT|port 7|132||5 rules refused: line 2
x|x|0||5 rules refused: line 1
|mail 5|132||6 script refused: line 2
|port 7/end close/end batch 0 accept 1|132||6 script refused: line 3
|port 7/on any do verdict this accept this ; raw|0||6 script refused: line 2
|port 7|80||4 capture refused: record 2 at byte 60 is cut
|port 7|23||4 capture refused: record 0 at byte 0 is cut
|port 7|3||4 capture refused: no pcap magic
|port 7|0||4 capture refused: no pcap magic
|port 7|132|0:0|4 capture refused: no pcap magic
|port 7|132|4:3|4 capture refused: version
|port 7|132|20:113|4 capture refused: link type 113
|port 7|132|34:4|4 capture refused: record 1 has 262164 bytes
|port 7|132|0:10,1:13,2:13,3:10|4 capture refused: pcapng";

/// The next column of a row.
fn cut(row: &str) -> Result<(&str, &str), Fail> {
    Ok(row.split_once('|').ok_or("a row without a bar")?)
}

/// The first bytes of a capture of three packets, some of them changed.
fn input(alloc: Global, length: &str, changes: &str) -> Result<Vec<u8>, Fail> {
    let mut bytes = capture(alloc, 3)?;
    bytes.truncate(length.parse()?);
    for change in changes.split(',') {
        if let Some((at, byte)) = change.split_once(':') {
            *bytes.get_mut(at.parse()?).ok_or("too short")? = byte.parse()?;
        }
    }
    Ok(bytes)
}

/// The status and the line with which inputs are refused.
fn refusal(alloc: Global, row: &str) -> Result<String, Fail> {
    let (rules, row) = cut(row)?;
    let (script, row) = cut(row)?;
    let (length, changes) = cut(row)?;
    let input = input(alloc, length, changes)?;
    let mut host = host(alloc, rules, script, input.as_slice())?;
    let made = read_inputs(alloc, &INPUTS, &mut host);
    match made {
        Err(Stop::Refused { why }) => {
            let line = why.line(alloc)?;
            Ok(format!(in alloc; "{} {line}", why.status())?)
        }
        _ => Err(Fail::new("not refused")),
    }
}

#[test]
fn refused_inputs_have_their_line(rt: HostRuntime) -> Result<(), Fail> {
    for row in REFUSED.lines() {
        let (row, wanted) = row.rsplit_once('|').ok_or("a row without a bar")?;
        let said = refusal(rt.alloc(), row)?;
        assert_eq!(rt; said.as_str().strip_suffix("\n"), Some(wanted), "{row}");
    }
    Ok(())
}

/// Each input takes two reads.
#[test]
fn a_read_that_fails_stops_it(rt: HostRuntime) -> Result<(), Fail> {
    let alloc = rt.alloc();
    let input = capture(alloc, 1)?;
    for call in 1..=6u64 {
        let mut host = host(alloc, RULES, "port 7", input.as_slice())?;
        host.fail_call(call)?;
        let made = read_inputs(alloc, &INPUTS, &mut host);
        assert!(rt; matches!(&made, Err(Stop::ReadFault)), "call {call}");
    }
    Ok(())
}

/// What is read of a capture of 2,000 packets, which is more than one part.
fn long_file(alloc: Global, host: &mut MemoryHost) -> Result<CaptureFile, Fail> {
    match read_inputs(alloc, &INPUTS, host) {
        Ok(made) => Ok(CaptureFile::new(alloc, made.capture)?),
        Err(_) => Err(Fail::new("refused")),
    }
}

#[test]
fn files_and_lines_are_written(rt: HostRuntime) -> Result<(), Fail> {
    const USAGE: &str = "usage: play RULES SCRIPT IN OUT LEDGER JOURNAL | live RULES SCRIPT IN OUT \
        LEDGER JOURNAL PLACES [FEEDERS [POOL]] | list RULES SCRIPT IN OUT | \
        gen NUMBER COUNT RULES SCRIPT IN | trial NUMBER COUNT | migrate OLD NEW | audit RULES SCRIPT IN JOURNAL\n";
    let alloc = rt.alloc();
    let input = capture(alloc, 2_000)?;
    let mut host = host(alloc, RULES, "port 7", input.as_slice())?;
    host.room(alloc, "o", 100_000)?;
    host.room(alloc, "-", 270)?;
    let file = long_file(alloc, &mut host)?;
    assert!(rt; file.write(&mut host, "o").is_ok());
    assert!(rt; host.get("o") == Some(input.as_slice()));
    print_usage(&mut host);
    assert!(rt; host.get("-") == Some(USAGE.as_bytes()));
    Ok(())
}
