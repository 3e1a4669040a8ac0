//! Scripts as texts, with what the format of scripts says of them. A row has `~` where a line of
//! its script ends.

ghost use Rattle.std.specs.Prelude.{◌<◌, IfOk, length};

use histories::{Did, Histories, PortLog};
use inspector_script::{Ask, Asks, Down, LineFault, PortMachine, Script, read_script};
use journals::journal_text;
use nfqa_msgs::Notice;
use packet_entry::{Bytes, NoMemory, Sequence};
use std::alloc::Global;
use std::test::Fail;

/// An IPv4 packet of TCP.
const TCP: &[u8] = b"\x45\0\0\x14\0\x01\0\0\x40\x06\0\0\x0a\0\0\x01\x0a\0\0\x02";

/// The notice that queue 5 gives of it, with id 9, mark 5, priority 6 and 100 bytes.
fn notice(alloc: Global) -> Result<Notice, NoMemory> {
    Ok(Notice {
        queue: 5,
        id: 9,
        protocol: 0x0800,
        mark: 5,
        priority: 6,
        length: 100,
        payload: Bytes::copy(alloc, TCP)?,
    })
}

/// How a text is answered: 0 where it is read, the line where one is refused, and else the largest
/// number.
fn refused_line(alloc: Global, text: &[u8]) -> u32 {
    if text.len() > 1_000_000 {
        return u32::MAX;
    }
    match read_script(alloc, text) {
        Ok(_script) => 0,
        Err(LineFault::Bad { line }) => line,
        Err(LineFault::NoMemory) => u32::MAX,
    }
}

/// The script of a row, whose first port is at place 0.
fn script_of(alloc: Global, row: &str) -> Result<Script, Fail>
    ensures { IfOk result (λ s. 0 < length s.ports) }
{
    let text = row.replace(alloc, "~", "\n")?;
    if text.len() > 1_000_000 {
        return Err(Fail::new("the text is too long"));
    }
    match read_script(alloc, text.as_bytes()) {
        Ok(script) => Ok(script),
        Err(fault) => Err(Fail::new(fault)),
    }
}

/// Notes that all of them were sent, and not answered, after so many messages: how many there are
/// then.
fn note(dids: &mut Vec<Did>, asks: Asks, before: u32) -> Result<u32, NoMemory> {
    let mut call = before;
    for ask in asks.into_vec() {
        dids.push(match ask {
            Ask::Words { words } => {
                call = call.wrapping_add(1);
                Did::Sent {
                    call,
                    ask: words,
                    answer: None,
                }
            }
            Ask::Close => Did::Closed,
        })?;
    }
    Ok(call)
}

/// What the first port does: it opens, receives the notice twice, with its answers, and ends.
fn done(alloc: Global, script: &Script) -> Result<Vec<Did>, NoMemory>
    requires { 0 < length script.now.ports }
{
    let mut machine = PortMachine::new(0);
    let (mut dids, notice) = (Vec::new(alloc), notice(alloc)?);
    let opened = note(&mut dids, machine.opening(alloc, script)?, 0)?;
    let (queue, visit) = (5, 1);
    let first = machine.answer(alloc, script, &notice)?;
    let number = machine.counted();
    dids.push(Did::Received {
        queue,
        number,
        visit,
    })?;
    let once = note(&mut dids, first, opened)?;
    let second = machine.answer(alloc, script, &notice)?;
    let number = machine.counted();
    dids.push(Did::Received {
        queue,
        number,
        visit,
    })?;
    let twice = note(&mut dids, second, once)?;
    note(&mut dids, machine.closing(alloc, script)?, twice)?;
    Ok(dids)
}

/// The journal of that, where the port is 7.
fn told(alloc: Global, row: &str) -> Result<Vec<u8>, Fail> {
    let script = script_of(alloc, row)?;
    let dids = Sequence::from_vec(done(alloc, &script)?);
    let mut logs = Vec::new(alloc);
    logs.push(PortLog { port: 7, dids })?;
    let histories = Histories {
        entries: Sequence::new(alloc),
        logs: Sequence::from_vec(logs),
        lost: Sequence::new(alloc),
    };
    let mut text = Vec::new(alloc);
    journal_text(alloc, &histories, &mut text)?;
    Ok(text)
}

/// The journal with this log, in which `/` ends a line.
fn wanted(alloc: Global, log: &str) -> Result<String, Fail> {
    let log = log.replace(alloc, "/", "\n")?;
    Ok(format!(in alloc; "nfq-journal 2\nP 7\n{log}\nend\n")?)
}

/// Scripts, and what their first port does, as its log.
const RUNS: &str = "\
port 7~port 8~open raw 01 => R 5 1 1/R 5 2 1
port 7~open raw 0102~open raw ff => S 1 raw 0102 = -/S 2 raw ff = -/R 5 1 1/R 5 2 1
port 7~end batch 0 accept 1~on any do raw 00~open raw 01~end close => \
S 1 raw 01 = -/R 5 1 1/S 2 raw 00 = -/R 5 2 1/S 3 raw 00 = -/S 4 batch 0 1 1 = -/X
port 7~on any do raw 00 ; raw 01 => \
R 5 1 1/S 1 raw 00 = -/S 2 raw 01 = -/R 5 2 1/S 3 raw 00 = -/S 4 raw 01 = -
port 7~on id 8 do raw 00~on id 9 do raw 01~on any do raw 02 => \
R 5 1 1/S 1 raw 01 = -/R 5 2 1/S 2 raw 01 = -
port 7~on queue 9 do raw 09~on queue 5 do raw 05 => R 5 1 1/S 1 raw 05 = -/R 5 2 1/S 2 raw 05 = -
port 7~on mark 5/4 do raw 00~on mark 4/4 do raw 01 => R 5 1 1/S 1 raw 01 = -/R 5 2 1/S 2 raw 01 = -
port 7~on mark 0/0 do raw 00 => R 5 1 1/S 1 raw 00 = -/R 5 2 1/S 2 raw 00 = -
port 7~on proto 17 do raw 17~on proto 6 do raw 06 => R 5 1 1/S 1 raw 06 = -/R 5 2 1/S 2 raw 06 = -
port 7~on every 3 do raw 03~on every 2 do raw 02~on every 1 do raw 01 => \
R 5 1 1/S 1 raw 01 = -/R 5 2 1/S 2 raw 02 = -
port 7~on longer 100 do raw 00~on longer 99 do raw 01 => R 5 1 1/S 1 raw 01 = -/R 5 2 1/S 2 raw 01 = -
port 7~on priority 5 do raw 05~on priority 0 do raw 00~on priority 6 do raw 06 => \
R 5 1 1/S 1 raw 06 = -/R 5 2 1/S 2 raw 06 = -
port 7~on mark 6/4294967295 do raw 00~on priority 6 and mark 5/5 do raw 01 => \
R 5 1 1/S 1 raw 01 = -/R 5 2 1/S 2 raw 01 = -
port 7~on id 9 and id 8 do raw 00~on any and id 9 and longer 1 do raw 01 => \
R 5 1 1/S 1 raw 01 = -/R 5 2 1/S 2 raw 01 = -
port 7~on every 2 do verdict this drop this => R 5 1 1/R 5 2 1/S 1 verdict 5 0 9 = -
port 7~on any do verdict this queue:9:bypass this => \
R 5 1 1/S 1 verdict 5 622595 9 = -/R 5 2 1/S 2 verdict 5 622595 9 = -
port 7~open verdict 3 accept 4 priority 6~end batch 3 accept 4 priority 6 => \
S 1 verdict 3 1 4 priority 6 = -/R 5 1 1/R 5 2 1/S 2 batch 3 1 4 priority 6 = -
port 7~on any do raw 00~port 8~on any do raw 01 => R 5 1 1/S 1 raw 00 = -/R 5 2 1/S 2 raw 00 = -";

/// Asks of an `on` line, and what they are in answer to the notice.
const ASKS: &str = "\
verdict this accept this => verdict 5 1 9
verdict this drop this => verdict 5 0 9
verdict this repeat this => verdict 5 4 9
verdict this stop this => verdict 5 5 9
verdict this queue:9 this => verdict 5 589827 9
verdict this queue:65535:bypass this => verdict 5 4294934531 9
verdict this 4294967295 this => verdict 5 4294967295 9
verdict 0 accept 4294967295 => verdict 0 1 4294967295
verdict 65535 accept this mark 0 => verdict 65535 1 9 mark 0
verdict this accept this payload - => verdict 5 1 9 payload -
verdict this accept this mark 8 payload 00ff => verdict 5 1 9 mark 8 payload 00ff
verdict this accept this priority 4294967295 => verdict 5 1 9 priority 4294967295
verdict this repeat this mark 1 priority 6 => verdict 5 4 9 mark 1 priority 6
verdict 2 drop 3 mark 8 payload - priority 6 => verdict 2 0 3 mark 8 payload - priority 6
batch this accept this => batch 5 1 9
batch 3 drop 4 mark 4294967295 => batch 3 0 4 mark 4294967295
batch this queue:1 this mark 2 priority 0 => batch 5 65539 9 mark 2 priority 0
batch 3 drop 4 priority 4294967295 => batch 3 0 4 priority 4294967295
config this => config 5
config 3 bind => config 3 cmd 1
config 3 unbind => config 3 cmd 2
config 3 pfbind => config 3 cmd 3
config 3 pfunbind => config 3 cmd 4
config 3 cmd 255 => config 3 cmd 255
config 3 params none 0 => config 3 params 0 0
config 3 params meta 0 => config 3 params 1 0
config 3 params 255 9 => config 3 params 255 9
config 3 maxlen 4 mask 5 => config 3 maxlen 4 mask 5
config this bind params packet 64 maxlen 7 flags 1 mask 3 => \
config 5 cmd 1 params 2 64 maxlen 7 flags 1 mask 3
raw 0123456789abcdef => raw 0123456789abcdef";

#[test]
fn ports_do_as_they_say(rt: HostRuntime) -> Result<(), Fail> {
    let alloc = rt.alloc();
    for row in RUNS.lines() {
        let (script, log) = row.split_once(" => ").ok_or("a row without an arrow")?;
        let (told, wanted) = (told(alloc, script)?, wanted(alloc, log)?);
        assert_eq!(rt; told.as_slice(), wanted.as_bytes(), "{script}");
    }
    for row in ASKS.lines() {
        let (ask, words) = row.split_once(" => ").ok_or("a row without an arrow")?;
        let script = format!(in alloc; "port 7~on id 9 do {ask}")?;
        let log = format!(in alloc; "R 5 1 1/S 1 {words} = -/R 5 2 1/S 2 {words} = -")?;
        let (told, wanted) = (told(alloc, script.as_str())?, wanted(alloc, log.as_str())?);
        assert_eq!(rt; told.as_slice(), wanted.as_bytes(), "{ask}");
    }
    Ok(())
}

/// Scripts, and what they set up: mail, pace, key, the ports, the `down` lines.
const SET_UPS: &str = "\
port 7 => 1024 1 0 [7]
mail 1~port 7 => 1 1 0 [7]
mail 65536~pace 0~port 7 => 65536 0 0 [7]
pace 4294967295~hashkey 4294967295~port 7 => 1024 4294967295 4294967295 [7]
down 3 after 2~down 1 after 2~port 7 => 1024 1 0 [7] 3 after 2 1 after 2
hashkey 3~down 0 after 0~pace 2~mail 4~port 7 => 4 2 3 [7] 0 after 0
port 4294967295~port 1~port 2 => 1024 1 0 [4294967295, 1, 2]
~# port 9~  port\t7  ~\t~#~~port 8 => 1024 1 0 [7, 8]
mail 5\r~port 7\r~ => 5 1 0 [7]";

/// What a row's script sets up.
fn set_up(alloc: Global, row: &str) -> Result<String, Fail> {
    let script = script_of(alloc, row)?;
    let (mail, pace, key) = (script.mail(), script.pace(), script.key());
    let mut said = format!(in alloc; "{mail} {pace} {key} {:?}", script.ports())?;
    for Down { device, after } in script.downs() {
        said.push_str(format!(in alloc; " {device} after {after}")?.as_str())?;
    }
    Ok(said)
}

#[test]
fn scripts_set_up_what_they_say(rt: HostRuntime) -> Result<(), Fail> {
    for row in SET_UPS.lines() {
        let (script, wanted) = row.split_once(" => ").ok_or("a row without an arrow")?;
        let said = set_up(rt.alloc(), script)?;
        assert_eq!(rt; said.as_str(), wanted, "{script}");
    }
    Ok(())
}

/// The line that is refused, and the script.
const BAD: &str = "\
1|
2|mail 5
3|~~
2|port 7~port 7
1|port 0
1|port 07
1|port 4294967296
1|port 7 8
1|ports 7
1|mail 0~port 7
1|mail 65537~port 7
2|mail 5~mail 5~port 7
2|pace 5~pace 6~port 7
2|hashkey 5~hashkey 5~port 7
1|hashkey 0x5~port 7
1|down 1 after~port 7
2|port 7~mail 5
1|on any do raw 00~port 7
3|port 7~end close~end batch 0 accept 1
3|port 7~end close~end close
2|port 7~open close
2|port 7~open verdict this accept 1
2|port 7~end batch 1 accept this
2|port 7~open config this
2|port 7~on do raw 00
2|port 7~on any do
2|port 7~on any and do raw 00
2|port 7~on id 4294967296 do raw 00
2|port 7~on queue 65536 do raw 00
2|port 7~on proto 256 do raw 00
2|port 7~on every 0 do raw 00
2|port 7~on mark 0x5/5 do raw 00
2|port 7~on priority 00 do raw 00
2|port 7~on any do raw 00 ;
2|port 7~on any do raw 00; raw 01
2|port 7~on any do close
2|port 7~open raw -
2|port 7~open raw 000
2|port 7~open raw 0A
2|port 7~open config 65536
2|port 7~open config 5 cmd 256
2|port 7~open config 5 params copy 64
2|port 7~open config 5 flags 1 maxlen 1
2|port 7~open verdict 5 accept
2|port 7~open verdict 5 queue:65536 1
2|port 7~open verdict 5 queue:1:by 1
2|port 7~open verdict 5 accept 1 payload 00 mark 1
2|port 7~open verdict 5 accept 1 priority 6 payload 00
2|port 7~open batch 5 accept 1 payload 00
2|port 7~open batch 5 accept 1 priority 6 mark 1
1|# caf\u{e9}~port 7
1|# a\rb~port 7
2|port 7~open raw 00\r";

/// What stands once, what many times and how often, what stands after it, and the refused line.
const LIMITS: [(&str, &str, u32, &str, u32); 14] = [
    ("", "down 1 after 2\n", 1_000, "port 7\n", 0),
    ("", "down 1 after 2\n", 1_001, "port 7\n", 1_001),
    ("port 7\n", "open raw 00\n", 1_000, "", 0),
    ("port 7\n", "open raw 00\n", 1_001, "", 1_002),
    ("port 7\n", "on any do raw 00\n", 1_000, "port 8\n", 0),
    (
        "port 7\n",
        "on any do raw 00\n",
        1_000,
        "end close\n",
        1_002,
    ),
    ("port 7\n", "end raw 00\n", 999, "end close\n", 0),
    ("port 7\n", "#\n", 2_000, "open raw 00", 0),
    ("port 7\non any do raw 00", " ; raw 00", 7, "", 0),
    ("port 7\non any do raw 00", " ; raw 00", 8, "", 2),
    ("port 7\nopen raw ", "00", 4_096, "", 0),
    ("port 7\nopen raw ", "00", 4_097, "", 2),
    ("port 7\nopen verdict 1 drop 1 payload ", "00", 2_048, "", 0),
    ("port 7\nopen verdict 1 drop 1 payload ", "00", 2_049, "", 2),
];

/// The line that is refused of a file of so many ports.
fn refused_of_ports(alloc: Global, ports: u32) -> Result<u32, Fail> {
    let mut text = String::new(alloc);
    for port in 0..ports {
        text.push_str(format!(in alloc; "port {}\n", port + 1)?.as_str())?;
    }
    Ok(refused_line(alloc, text.as_bytes()))
}

#[test]
fn bad_files_are_refused_at_their_first_bad_line(rt: HostRuntime) -> Result<(), Fail> {
    let alloc = rt.alloc();
    for row in BAD.lines() {
        let (line, script) = row.split_once('|').ok_or("a row without a line")?;
        let text = script.replace(alloc, "~", "\n")?;
        let wanted: u32 = line.parse()?;
        assert_eq!(rt; refused_line(alloc, text.as_bytes()), wanted, "{script}");
    }
    for &(front, line, times, back, wanted) in &LIMITS {
        let mut text = String::from_str(alloc, front)?;
        for _ in 0..times {
            text.push_str(line)?;
        }
        text.push_str(back)?;
        assert_eq!(rt;
            refused_line(alloc, text.as_bytes()),
            wanted,
            "{times} times {line}"
        );
    }
    assert_eq!(rt; refused_of_ports(alloc, 32)?, 0);
    assert_eq!(rt; refused_of_ports(alloc, 33)?, 33);
    Ok(())
}
