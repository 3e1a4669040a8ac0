//! Journals that are read and written again, and texts that are refused.

use histories::Histories;
use journal_reading::{JournalFault, read_either_journal, read_journal, read_old_journal};
use journals::{
    append_did, append_ending, append_entry, append_heading, append_port, did_room, entry_room,
    journal_text, port_room,
};
use packet_entry::NoMemory;
use std::alloc::Global;
use std::test::Fail;

/// The journal of a port that accepts the first and the third of three packets, and drops the
/// second.
const WORKED: &str = "nfq-journal 2
M 0 7 1 config 0 cmd 1 = 0 0
M 0 7 2 config 0 params 2 0 = 0 0
A 0 1 1 1 n y 0 0 1 0 2048 - 4500001400010000400600000a0000010a000002 taken:1
M 0 7 3 verdict 0 1 1 = 0 1
A 0 2 1 1 n y 0 0 2 0 2048 - 4500001400020000400600000a0000010a000002 taken:2
M 0 7 4 verdict 0 0 2 = 0 1
A 0 3 1 1 n y 0 0 3 0 2048 - 4500001400030000400600000a0000010a000002 taken:3
M 0 7 5 verdict 0 1 3 = 0 1
P 7
S 1 config 0 cmd 1 = 0
S 2 config 0 params 2 0 = 0
R 0 1 1
S 3 verdict 0 1 1 = -
R 0 2 1
S 4 verdict 0 0 2 = -
R 0 3 1
S 5 verdict 0 1 3 = -
end
";

/// The journal of a run in which no packet came.
const NO_PACKETS: &str = "nfq-journal 2
M 0 7 1 config 0 cmd 1 = 0 0
M 0 7 2 config 0 params 2 0 = 0 0
P 7
S 1 config 0 cmd 1 = 0
S 2 config 0 params 2 0 = 0
end
";

/// A journal with each kind of line, and of what stands in it.
const EACH_KIND: &str = "nfq-journal 2
A 0 3 2 1 y n 4 7 5 6 2048 ab01 - taken:4294967295
A 0 1 1 1 n y 0 0 1 0 34525 - 6000 overflow
A 0 1 1 1 n y 0 0 1 0 2048 - 45 overflow-open
A 0 1 1 1 n n 0 0 1 0 2048 - 45 userfull:3
A 0 1 1 1 n n 0 0 1 0 2048 - 45 userfull-open:7
A 0 1 1 1 n y 0 0 1 0 2048 - 45 noqueue
A 0 1 1 1 y y 0 0 1 0 2048 - 45 bypassed
A 0 1 1 1 n y 0 0 1 0 2048 - 45 copynone
A 0 4294967295 4294967295 65535 n y 4294967295 4294967295 9 999999 65535 00ff - loop
M 2 7 12 config 2 cmd 1 params 2 64 maxlen 3 flags 4 mask 5 = 16 0
M 2 4294967295 4294967295 config 2 = 65535 4294967295
M 2 7 12 verdict 2 4 8 mark 9 payload 0f priority 3 = 0 1
M 2 7 12 verdict 2 - payload - = 22 0
M 2 7 12 batch 2 1 8 mark 9 priority 4294967295 = 0 3
M 2 7 12 batch 2 - = 22 0
C 65535 7 3
D 65535 2 4294967295
P 7
S 1 config 2 cmd 255 params 255 4294967295 maxlen 0 flags 0 mask 0 = 0
R 2 3 4
S 2 raw 10ff = 22
S 3 raw - = -
S 4 verdict 2 4 8 mark 9 payload 0f priority 3 = 65535
S 5 batch 2 1 8 mark 5 priority 6 = -
X
P 8
end
";

/// A journal of version 1, and of version 2 with the same histories.
const OLD: &str = "nfq-journal 1
A 0 1 1 1 n y 3 1 0 2048 - 45 taken:1
M 0 7 3 verdict 0 1 1 mark 4 payload 46 = 0 1
P 7
S 3 batch 0 1 1 mark 4 = -
end
";

const NEW: &str = "nfq-journal 2
A 0 1 1 1 n y 3 0 1 0 2048 - 45 taken:1
M 0 7 3 verdict 0 1 1 mark 4 payload 46 = 0 1
P 7
S 3 batch 0 1 1 mark 4 = -
end
";

/// What is read: journals of today, of version 1, or of either.
#[derive(Clone, Copy)]
enum Reading {
    Today,
    Old,
    Either,
}

/// What a text is read as. The longest text of the tests has 1.2 MB.
fn read(alloc: Global, reading: Reading, text: &[u8]) -> Result<Histories, JournalFault> {
    if text.len() > 4_000_000 {
        return Err(JournalFault::NoMemory);
    }
    match reading {
        Reading::Today => read_journal(alloc, text),
        Reading::Old => read_old_journal(alloc, text),
        Reading::Either => read_either_journal(alloc, text),
    }
}

/// The journal of histories, line by line.
fn push_lines(histories: &Histories, out: &mut Vec<u8>) -> Result<(), NoMemory> {
    append_heading(out)?;
    for entry in &histories.entries {
        out.reserve(entry_room(entry).ok_or(NoMemory)?)?;
        append_entry(entry, out)?;
    }
    for log in &histories.logs {
        out.reserve(port_room(log.port))?;
        append_port(log.port, out)?;
        for did in &log.dids {
            out.reserve(did_room(did).ok_or(NoMemory)?)?;
            append_did(did, out)?;
        }
    }
    append_ending(out)?;
    Ok(())
}

/// What is written of what a text is read as: whole, behind a byte that was there, and once more
/// line by line.
fn told_again(alloc: Global, reading: Reading, text: &str) -> Result<(Vec<u8>, Vec<u8>), Fail> {
    let (mut whole, mut lines) = (Vec::new(alloc), Vec::new(alloc));
    whole.push(b'>')?;
    match read(alloc, reading, text.as_bytes()) {
        Ok(histories) => {
            journal_text(alloc, &histories, &mut whole)?;
            push_lines(&histories, &mut lines)?;
        }
        Err(fault) => return Err(Fail::new(fault)),
    }
    Ok((whole, lines))
}

/// The journal of a port that sent 150 messages of 4,096 bytes each: more than 1 MiB.
fn long_journal(alloc: Global) -> Result<String, Fail> {
    let mut text = String::from_str(alloc, "nfq-journal 2\nP 7\n")?;
    for call in 1..151u32 {
        text.push_str(format!(in alloc; "S {call} raw ")?.as_str())?;
        for _ in 0..4_096u32 {
            text.push_str("5a")?;
        }
        text.push_str(" = -\n")?;
    }
    text.push_str("end\n")?;
    Ok(text)
}

#[test]
fn journals_are_read_and_written_again(rt: HostRuntime) -> Result<(), Fail> {
    let alloc = rt.alloc();
    let long = long_journal(alloc)?;
    let rows: [(Reading, &str, &str); 7] = [
        (Reading::Today, WORKED, WORKED),
        (Reading::Today, NO_PACKETS, NO_PACKETS),
        (Reading::Today, EACH_KIND, EACH_KIND),
        (Reading::Today, long.as_str(), long.as_str()),
        (Reading::Old, OLD, NEW),
        (Reading::Either, OLD, NEW),
        (Reading::Either, EACH_KIND, EACH_KIND),
    ];
    for (reading, text, wanted) in &rows {
        let (whole, lines) = told_again(alloc, *reading, text)?;
        assert!(rt; whole.as_slice().strip_prefix(b">") == Some(wanted.as_bytes()));
        assert!(rt; lines.as_slice() == wanted.as_bytes());
    }
    Ok(())
}

/// How a text is answered: 0 where it is read, the line where one is refused, and else the largest
/// number.
fn refused_line(alloc: Global, reading: Reading, text: &[u8]) -> u32 {
    match read(alloc, reading, text) {
        Ok(_histories) => 0,
        Err(JournalFault::Bad { line }) => line,
        Err(JournalFault::NoMemory) => u32::MAX,
    }
}

/// The worked journal with another text in place of this line. There `~` stands for a line feed,
/// `^` for a carriage return and `_` for a blank.
fn changed(alloc: Global, number: u32, text: &str) -> Result<String, Fail> {
    let mut journal = String::new(alloc);
    let mut place = 0u32;
    for line in WORKED.lines() {
        place = place.wrapping_add(1);
        if place == number {
            let text = text.replace(alloc, "~", "\n")?.replace(alloc, "^", "\r")?;
            journal.push_str(text.replace(alloc, "_", " ")?.as_str())?;
        } else {
            journal.push_str(line)?;
        }
        journal.push('\n')?;
    }
    Ok(journal)
}

/// The line that is refused, 0 where the text is read; the line of the worked journal that is
/// changed; what stands there.
const CHANGES: &str = "\
1|1|
1|1|nfq-journal 1
1|1|nfq-journal 3
1|1|nfq-journal  2
1|1|_nfq-journal 2
1|1|nfq-journal 2^
2|1|nfq-journal 2~
2|2|M 00 7 1 config 0 cmd 1 = 0 0
2|2|M 65536 7 1 config 65536 cmd 1 = 0 0
2|2|M 0 4294967296 1 config 0 cmd 1 = 0 0
2|2|M 0 7 1 config 0 cmd 256 = 0 0
2|2|M 0 7 1 config 0 cmd 1 = 65536 0
2|2|M 0 7 1 config 1 cmd 1 = 0 0
2|2|M 0 7 1 config 0 flags 1 maxlen 1 = 0 0
2|2|M 0 7 1 config 0 cmd 1 cmd 1 = 0 0
2|2|M 0 7 1 config 0 cmd = 0 0
2|2|M 0 7 1 config 0 cmd 1 = 0
2|2|M 0 7 1 config 0 cmd 1 = - 0
2|2|M 0 7 1 raw 00 = 0 0
2|2|M 0 7 1 config 0 cmd 1 = 0 0_
2|2|M 0 7 1 config 0 cmd +1 = 0 0
2|2|N 0 7 1 config 0 cmd 1 = 0 0
3|2|M 1 7 1 config 1 cmd 1 = 0 0
3|3|M 0 7 2 config 0 params 2 = 0 0
4|4|A 0 1 1 1 n y 0 0 1 0 2048 - 45 taken
4|4|A 0 1 1 1 n y 0 0 1 0 2048 - 45 taken:01
4|4|A 0 1 1 1 n y 0 0 1 0 2048 - 45 taken:4294967296
4|4|A 0 1 1 1 n y 0 0 1 0 2048 - 45 overflow:1
4|4|A 0 1 1 1 n y 0 0 1 0 2048 - 45 userfull
4|4|A 0 1 1 1 n y 0 0 1 0 2048 - 45 loop_
4|4|A 0 1 1 1 N y 0 0 1 0 2048 - 45 loop
4|4|A 0 1 1 65536 n y 0 0 1 0 2048 - 45 loop
4|4|A 0 1 1 1 n y 0 1 0 2048 - 45 loop
4|4|A 0 1 1 1 n y 0 0 1 0 65536 - 45 loop
4|4|A 0 1 1 1 n y 0 0 1 0 2048 - 4 loop
4|4|A 0 1 1 1 n y 0 0 1 0 2048 - 4F loop
4|4|C 0 7
4|4|D 0 2 0 0
5|5|M 0 7 3 verdict 0 1 = 0 1
5|5|M 0 7 3 verdict 0 1 1 payload 00 mark 1 = 0 1
5|5|M 0 7 3 verdict 0 1 1 priority 1 payload 00 = 0 1
5|5|M 0 7 3 batch 0 1 1 payload 00 = 0 1
6|6|A 0 2 1 1 n y 0 0 2 0 2048 - 4500001400020000400600000a0000010a000002 taken:02
10|10|P 07
10|10|X
10|10|S 1 config 0 cmd 1 = 0
11|10|P 7~P 7
11|10|P 7~C 0 7 0
11|10|end~P 7
11|11|S 01 config 0 cmd 1 = 0
11|11|S 1 config 0 cmd 1
11|11|S 1 raw = 0
13|13|R 65536 1 1
13|13|R 0 1
14|13|X
19|19|end_
20|19|end~
20|19|end~end";

#[test]
fn bad_journals_are_refused_at_their_first_bad_line(rt: HostRuntime) -> Result<(), Fail> {
    let alloc = rt.alloc();
    for row in CHANGES.lines() {
        let (line, change) = row.split_once('|').ok_or("a row without a line")?;
        let (number, text) = change.split_once('|').ok_or("a row without a number")?;
        let wanted: u32 = line.parse()?;
        let journal = changed(alloc, number.parse()?, text)?;
        let refused = refused_line(alloc, Reading::Today, journal.as_bytes());
        assert_eq!(rt; refused, wanted, "{row}");
    }
    assert_eq!(rt; refused_line(alloc, Reading::Old, NEW.as_bytes()), 1);
    assert_eq!(rt; refused_line(alloc, Reading::Either, b"nfq-journal 3\n"), 1);
    // Each beginning of a journal ends too early.
    let mut ended = 0u32;
    for (length, byte) in WORKED.as_bytes().iter().enumerate() {
        let front = WORKED.as_bytes().get(..length).unwrap_or(&[]);
        let refused = refused_line(alloc, Reading::Today, front);
        assert_eq!(rt; refused, ended.wrapping_add(1), "of {length} bytes");
        if *byte == b'\n' {
            ended = ended.wrapping_add(1);
        }
    }
    Ok(())
}
