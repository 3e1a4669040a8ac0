//! What no contract says: that journals are judged where there is memory, with each kind of entry
//! and of input. The rows are journals over three frames of one byte, and what is answered of them.

ghost use Rattle.std.specs.Prelude.{◌≡◌, [], IfOk};

mod orders;
mod rows;

use feeder_audit::is_fed;
use histories::Histories;
use hook_chain::{Tables, read_tables};
use inspector_script::{Script, read_script};
use journal_audit::{audit, check_histories, check_journeys};
use journal_reading::read_journal;
use log_audit::{Judged, judge_logs};
use packet_entry::{Bytes, NoMemory};
use pcap_io::{Capture, Frame, Frames};
use port_audit::{
    MessageKind, Rows, Side, are_closings, are_notices, are_ordered, are_ports, are_requests,
    are_roomy, push,
};
use queue_replay::replay_all;
use std::alloc::Global;
use std::collections::BTreeMap;
use std::test::Fail;

/// Three frames of one byte, each a second after the one before.
fn capture(alloc: Global) -> Result<Capture, NoMemory> {
    let mut frames = Vec::new(alloc);
    for seconds in 1..4 {
        frames.push(frame(alloc, seconds, &[0x45])?)?;
    }
    Ok(capture_of(frames))
}

/// A frame of these bytes, at a full second.
fn frame(alloc: Global, seconds: u32, bytes: &[u8]) -> Result<Frame, NoMemory> {
    Ok(Frame {
        seconds,
        fraction: 0,
        original: 20,
        bytes: Bytes::copy(alloc, bytes)?,
    })
}

/// A capture of packets without link headers.
fn capture_of(frames: Vec<Frame>) -> Capture {
    Capture {
        big: false,
        nanos: false,
        zone: 0,
        sigfigs: 0,
        snap: 65_535,
        link: 101,
        frames: Frames::from_vec(frames),
    }
}

fn tables(alloc: Global, text: &[u8]) -> Result<Tables, Fail> {
    if text.len() > 1_000 {
        return Err(Fail::new("the rules are too long"));
    }
    match read_tables(alloc, text) {
        Ok(tables) => Ok(tables),
        Err(_) => Err(Fail::new("the rules aren't read")),
    }
}

/// The script of a row, of which `/` ends the lines.
fn script(alloc: Global, row: &str) -> Result<Script, Fail> {
    let text = row.replace(alloc, "/", "\n")?;
    if text.len() > 1_000 {
        return Err(Fail::new("the script is too long"));
    }
    match read_script(alloc, text.as_bytes()) {
        Ok(script) => Ok(script),
        Err(_) => Err(Fail::new("the script isn't read")),
    }
}

/// The line with this name, or the line itself.
fn line_of(name: &str) -> &str {
    for &(short, line) in &rows::LINES {
        if short == name {
            return line;
        }
    }
    for &(short, line) in &orders::LINES {
        if short == name {
            return line;
        }
    }
    name
}

/// What stands in place of a line: `line>lines` are changes, with commas between.
fn changed<'a>(line: &'a str, changes: &'a str) -> &'a str {
    for change in changes.split(',') {
        if let Some((old, new)) = change.split_once('>') {
            if old == line {
                return new;
            }
        }
    }
    line
}

/// The journal with these lines, of which `/` ends each, and these changes.
fn journal(alloc: Global, lines: &str, changes: &str) -> Result<String, NoMemory> {
    let mut text = String::from_str(alloc, "nfq-journal 2\n")?;
    for line in lines.split('/') {
        for name in changed(line, changes).split('/') {
            if !name.is_empty() {
                text.push_str(line_of(name))?;
                text.push('\n')?;
            }
        }
    }
    text.push_str("end\n")?;
    Ok(text)
}

/// The histories that this journal tells.
fn histories(alloc: Global, lines: &str, changes: &str) -> Result<Histories, Fail>
    ensures { IfOk result (λ h. h.lost ≡ []) }
{
    let text = journal(alloc, lines, changes)?;
    if text.len() > 10_000 {
        return Err(Fail::new("the text is too long"));
    }
    match read_journal(alloc, text.as_bytes()) {
        Ok(histories) => Ok(histories),
        Err(fault) => Err(Fail::new(fault)),
    }
}

/// A row in two at its first bar.
fn cut(row: &str) -> Result<(&str, &str), Fail> {
    Ok(row.split_once('|').ok_or("a row without a bar")?)
}

/// Lines: the first place where a queue's history isn't legal.
fn steps(alloc: Global, row: &str) -> Result<String, Fail> {
    let histories = histories(alloc, row, "")?;
    Ok(match check_histories(alloc, &histories)? {
        None => String::from_str(alloc, "legal")?,
        Some(place) => format!(in alloc; "{} {}", place.queue, place.at)?,
    })
}

/// Lines: the least packet that didn't go as it should.
fn journeys(alloc: Global, row: &str) -> Result<String, Fail> {
    let histories = histories(alloc, row, "")?;
    let (tables, capture) = (tables(alloc, rows::TWO_TABLES)?, capture(alloc)?);
    if capture.frames.len() > 3 {
        return Err(Fail::new("many frames"));
    }
    match check_histories(alloc, &histories)? {
        None => {}
        Some(_) => return Err(Fail::new("not legal")),
    }
    Ok(
        match check_journeys(alloc, &tables, 0, &capture, &histories)? {
            None => String::from_str(alloc, "sound")?,
            Some(number) => format!(in alloc; "{number}")?,
        },
    )
}

/// Whether legal histories are fed as a script says; yes of others.
fn fed(
    alloc: Global,
    script: &Script,
    capture: &Capture,
    histories: &Histories,
) -> Result<bool, NoMemory> {
    match check_histories(alloc, histories)? {
        None => {
            let replayed = replay_all(alloc, &histories.entries)?;
            is_fed(alloc, script, capture, histories, &replayed)
        }
        Some(_) => Ok(true),
    }
}

/// A script and lines: whether frames and `down` lines were as it says.
fn feeding(alloc: Global, row: &str) -> Result<String, Fail> {
    let (text, lines) = cut(row)?;
    let (script, histories) = (script(alloc, text)?, histories(alloc, lines, "")?);
    let is = fed(alloc, &script, &capture(alloc)?, &histories)?;
    Ok(String::from_str(alloc, if is { "yes" } else { "no" })?)
}

/// The kinds of the messages for queue 0, as `7oo8e`: `o` for one of the opening, `a` of an answer
/// and `e` of the end, behind the port.
fn rows_of(alloc: Global, kinds: &str) -> Result<Rows<MessageKind>, NoMemory> {
    let mut rows = BTreeMap::new(alloc);
    let mut side = Side { port: 7, queue: 0 };
    for letter in kinds.as_bytes() {
        match letter {
            b'o' => push(alloc, side, MessageKind::Opens, &mut rows)?,
            b'a' => push(alloc, side, MessageKind::Answers, &mut rows)?,
            b'e' => push(alloc, side, MessageKind::Ends, &mut rows)?,
            other => side.port = u32::from(other.wrapping_sub(b'0')),
        }
    }
    Ok(rows)
}

/// The same of these rows.
fn told(alloc: Global, rows: &Rows<MessageKind>) -> Result<String, NoMemory> {
    let mut text = String::new(alloc);
    for (port, digit) in [(7, '7'), (8, '8')] {
        if let Some(row) = rows.get(&Side { port, queue: 0 }) {
            text.push(digit)?;
            for kind in row {
                text.push(match kind {
                    MessageKind::Opens => 'o',
                    MessageKind::Answers => 'a',
                    MessageKind::Ends => 'e',
                })?;
            }
        }
    }
    Ok(text)
}

/// Changes of the entries, and a log: the kinds of the port's messages, or that its log isn't what
/// the script says.
fn logs(alloc: Global, row: &str) -> Result<String, Fail> {
    let (changes, log) = cut(row)?;
    let lines = format!(in alloc; "bind/whole/a1/a2/{log}")?;
    let histories = histories(alloc, lines.as_str(), changes)?;
    let script = script(alloc, rows::LOGGED)?;
    let replayed = replay_all(alloc, &histories.entries)?;
    Ok(match judge_logs(alloc, &script, &histories, &replayed)? {
        Judged::Said { kinds } => told(alloc, &kinds)?,
        Judged::Amiss => String::from_str(alloc, "no")?,
        Judged::Foreign => String::from_str(alloc, "?")?,
    })
}

/// The letters of the parts that don't hold, where the kinds of messages are these.
fn amiss(
    alloc: Global,
    script: &Script,
    histories: &Histories,
    kinds: &str,
) -> Result<String, Fail> {
    let replayed = replay_all(alloc, &histories.entries)?;
    let judged = judge_logs(alloc, script, histories, &replayed)?;
    let logged = matches!(&judged, Judged::Said { .. });
    let rows = match judged {
        Judged::Said { kinds } => kinds,
        _ => rows_of(alloc, kinds)?,
    };
    if told(alloc, &rows)?.as_str() != kinds {
        return Err(Fail::new("other kinds"));
    }
    let hold = [
        logged,
        are_requests(alloc, script, histories)?,
        are_notices(alloc, script, histories, &replayed)?,
        are_closings(alloc, script, histories, &replayed)?,
        fed(alloc, script, &capture(alloc)?, histories)?,
        are_ports(script, histories),
        are_ordered(alloc, script, histories, rows)?,
        are_roomy(alloc, script, histories, &replayed)?,
    ];
    let mut letters = String::new(alloc);
    for (letter, holds) in "abcdefgh".chars().zip(hold) {
        if !holds {
            letters.push(letter)?;
        }
    }
    Ok(letters)
}

/// A script, lines, changes and kinds of messages: the letters of the parts that don't hold.
fn parts(alloc: Global, row: &str) -> Result<String, Fail> {
    let (text, row) = cut(row)?;
    let (lines, row) = cut(row)?;
    let (changes, kinds) = cut(row)?;
    let text = if text.is_empty() { rows::ROOMY } else { text };
    let lines = if lines.is_empty() { rows::RUN } else { lines };
    let (script, histories) = (script(alloc, text)?, histories(alloc, lines, changes)?);
    amiss(alloc, &script, &histories, kinds)
}

/// The script and the journal of the run with this name.
fn run_of(name: &str) -> (&str, &str) {
    for &(run, script, lines) in &rows::RUNS {
        if run == name {
            return (script, lines);
        }
    }
    ("", "")
}

/// The line that is printed of what is found, without its end; nothing of a run.
fn line_found(
    alloc: Global,
    tables: &Tables,
    capture: &Capture,
    script: &Script,
    histories: &Histories,
) -> Result<String, Fail>
    requires { histories.now.lost ≡ [] }
{
    if capture.frames.len() > 3 {
        return Err(Fail::new("many frames"));
    }
    let Some(finding) = audit(alloc, tables, script, capture, histories)? else {
        return Ok(String::new(alloc));
    };
    let mut line = finding.line(alloc)?;
    match line.pop() {
        Some('\n') => Ok(line),
        _ => Err(Fail::new("a line without its end")),
    }
}

/// A run, changes of its journal and kinds of messages: the line that is printed of what is found,
/// and the letters of the parts that don't hold.
fn findings(alloc: Global, row: &str) -> Result<String, Fail> {
    let (run, row) = cut(row)?;
    let (changes, kinds) = cut(row)?;
    let (text, lines) = run_of(run);
    let (script, histories) = (script(alloc, text)?, histories(alloc, lines, changes)?);
    let (tables, capture) = (tables(alloc, rows::ONE_RULE)?, capture(alloc)?);
    let line = line_found(alloc, &tables, &capture, &script, &histories)?;
    if kinds.is_empty() {
        return Ok(line);
    }
    let letters = amiss(alloc, &script, &histories, kinds)?;
    Ok(format!(in alloc; "{line} {letters}")?)
}

/// Which check is asked.
#[derive(Clone, Copy)]
enum Check {
    Steps,
    Journeys,
    Feeding,
    Logs,
    Parts,
    Findings,
    Orders,
}

#[test]
fn journals_are_judged(rt: HostRuntime) -> Result<(), Fail> {
    const TABLES: [(Check, &str); 7] = [
        (Check::Steps, rows::STEPS),
        (Check::Journeys, rows::JOURNEYS),
        (Check::Feeding, rows::FEEDING),
        (Check::Logs, rows::LOGS),
        (Check::Parts, rows::PARTS),
        (Check::Findings, rows::FINDINGS),
        (Check::Orders, orders::ROWS),
    ];
    let alloc = rt.alloc();
    for &(check, table) in &TABLES {
        for row in table.lines() {
            let (row, wanted) = row.split_once(" => ").ok_or("a row without an arrow")?;
            let said = match check {
                Check::Steps => steps(alloc, row)?,
                Check::Journeys => journeys(alloc, row)?,
                Check::Feeding => feeding(alloc, row)?,
                Check::Logs => logs(alloc, row)?,
                Check::Parts => parts(alloc, row)?,
                Check::Findings => findings(alloc, row)?,
                Check::Orders => orders::found(alloc, row)?,
            };
            assert_eq!(rt; said.as_str(), wanted, "{row}");
        }
    }
    Ok(())
}
