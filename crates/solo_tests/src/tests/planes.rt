//! A plane by its calls. What port 7 sends is in the log of the journal that is wanted, and a row
//! says in which order it sends, receives and is fed.

ghost use Rattle.std.specs.Prelude.{◌≡◌, ◌<◌, ◌≤◌, ◌+◌, IfOk, IsTrue};
ghost use Rattle.nfqa_msgs.specs.RequestReading.{PayloadFits};
ghost use Rattle.solo_plane.specs.Numbers.{most_mail};
ghost use Rattle.solo_tests.specs.Examples.{IsGoing};

use super::{ONE_RULE, journal_of, packet_bytes};
use histories::{AskWords, Did, Dids, Histories};
use hook_chain::read_tables;
use journal_reading::read_journal;
use nfqa_msgs::{Request, encode_request};
use packet_entry::{IPV4, MAX_PAYLOAD, NoMemory, Packet};
use packet_moves::Fed;
use solo_plane::{Refused, SoloPlane, only_feeding_feeds};
use std::alloc::Global;
use std::process::Abort;
use std::test::Fail;

/// What happens to a plane.
#[derive(Clone, Copy)]
struct Row {
    rules: &'static [u8],
    /// How many notices the port's mailbox holds, at least 1.
    mail: u16,
    /// In this order: `s`, the port sends the next message of its log; `r`, it receives a notice,
    /// where there is one; a digit, the packet of this number is fed; and last `d`, device 1 goes
    /// down, or `x`, the port closes.
    steps: &'static str,
    /// What becomes of each packet that is fed: `w`, it waits; `r`, it is released; `d`, it is
    /// destroyed; and how many the device destroys.
    fates: &'static str,
    journal: &'static str,
}

/// What a plane answers.
#[derive(Drop)]
struct Answers {
    /// How many messages were sent.
    sent: u32,
    /// The acknowledgements, one behind the other.
    replies: Vec<u8>,
    /// The notices that were received, one behind the other.
    notices: Vec<u8>,
    fates: String,
}

/// A plane with port 7 and these rules.
pub(super) fn plane(alloc: Global, rules: &[u8], mail: u32) -> Result<SoloPlane, Fail>
    requires { (1 ≤ mail) × (mail ≤ most_mail) }
    ensures { IfOk result (IsGoing 0) }
{
    if rules.len() >= 1000 {
        return Err(Fail::new("long rules"));
    }
    let tables = match read_tables(alloc, rules) {
        Ok(tables) => tables,
        Err(_) => return Err(Fail::new("rules")),
    };
    Ok(SoloPlane::new(alloc, &[7], mail, tables, 0)?)
}

/// Port 7 sends these bytes: how many of them are used.
pub(super) fn send(
    plane: &mut SoloPlane,
    alloc: Global,
    bytes: &[u8],
    replies: &mut Vec<u8>,
    fed: u32,
) -> Result<u32, Fail>
    requires { IsGoing fed plane.old }
    ensures { IsGoing fed plane.new }
{
    let _ = fed;
    if bytes.len() >= 1000 {
        return Err(Fail::new("a long message"));
    }
    only_feeding_feeds();
    Ok(plane.message(alloc, 7, bytes, replies)?)
}

/// Whether a verdict's payload is short enough for a packet.
fn is_short(request: &Request) -> bool
    ensures { IsTrue result → PayloadFits request.now }
{
    match request {
        Request::Verdict {
            payload: Some(payload),
            ..
        } => payload.len() <= MAX_PAYLOAD,
        _ => true,
    }
}

/// A message of port 7.
fn datagram(alloc: Global, call: u32, ask: &AskWords) -> Result<Vec<u8>, Fail> {
    let mut text = Vec::new(alloc);
    match ask {
        AskWords::Raw { bytes } => text.extend_from_slice(bytes.as_slice())?,
        AskWords::Plain { request } => {
            if !is_short(request) {
                return Err(Fail::new("a long payload"));
            }
            encode_request(7, call, request, &mut text)?;
        }
    }
    Ok(text)
}

/// The message of a log behind so many.
fn message_behind(alloc: Global, dids: &Dids, sent: u32) -> Result<Vec<u8>, Fail> {
    let mut before = sent;
    for did in dids {
        if let Did::Sent { call, ask, .. } = did {
            if before == 0 {
                return datagram(alloc, *call, ask);
            }
            before -= 1;
        }
    }
    Err(Fail::new("no more messages"))
}

/// Port 7 sends its next message, which is used whole.
fn send_next(
    plane: &mut SoloPlane,
    alloc: Global,
    dids: &Dids,
    answers: &mut Answers,
    fed: u32,
) -> Result<(), Fail>
    requires { IsGoing fed plane.old }
    ensures { IsGoing fed plane.new }
{
    let text = message_behind(alloc, dids, answers.sent)?;
    answers.sent = answers.sent.wrapping_add(1);
    let used = send(plane, alloc, text.as_slice(), &mut answers.replies, fed)?;
    if used as usize != text.len() {
        return Err(Fail::new("a message isn't used whole"));
    }
    Ok(())
}

/// Port 7 receives a notice, where there is one.
fn receive(plane: &mut SoloPlane, answers: &mut Answers, fed: u32) -> Result<(), Fail>
    requires { IsGoing fed plane.old }
    ensures { IsGoing fed plane.new }
{
    let _ = fed;
    if let Some(letter) = plane.receive(7)? {
        answers.notices.extend_from_slice(letter.bytes.as_slice())?;
    }
    Ok(())
}

/// A packet is fed, a second after the one before.
fn feed(
    plane: &mut SoloPlane,
    alloc: Global,
    number: u8,
    answers: &mut Answers,
    fed: u32,
) -> Result<(), Fail>
    requires going { IsGoing fed plane.old }
    requires few { fed < 1000 }
    requires number { 1 ≤ number }
    ensures { IsGoing (fed + 1) plane.new }
{
    let _ = fed;
    let (place, bytes) = (u32::from(number), packet_bytes(number));
    let packet = Packet::new(alloc, place, place, 0, IPV4, &[], &bytes)?;
    only_feeding_feeds();
    match plane.feed(alloc, packet) {
        Ok(Fed::Waiting) => answers.fates.push('w')?,
        Ok(Fed::Released) => answers.fates.push('r')?,
        Ok(_) => answers.fates.push('d')?,
        Err(Refused { packet }) => {
            packet.destroy();
            return Err(Fail::new("out of memory"));
        }
    }
    Ok(())
}

/// A step, after so many others.
fn step(
    plane: &mut SoloPlane,
    alloc: Global,
    letter: u8,
    dids: &Dids,
    answers: &mut Answers,
    steps: u32,
) -> Result<(), Fail>
    requires going { IsGoing steps plane.old }
    requires few { steps < 1000 }
    ensures { IsGoing (steps + 1) plane.new }
{
    match letter {
        b's' => send_next(plane, alloc, dids, answers, steps),
        b'r' => receive(plane, answers, steps),
        b'1'..=b'9' => feed(plane, alloc, letter - b'0', answers, steps),
        _ => Err(Fail::new("no step")),
    }
}

/// These steps.
fn go(
    plane: &mut SoloPlane,
    alloc: Global,
    steps: &str,
    dids: &Dids,
    answers: &mut Answers,
) -> Result<(), Fail>
    requires { IsGoing 0 plane.old }
{
    let mut count = 0u32;
    for letter in steps.as_bytes() {
        if count >= 999 {
            return Err(Fail::new("many steps"));
        }
        match letter {
            b'd' => return down(plane, alloc, answers),
            b'x' => {
                plane.close_port(7);
                return Ok(());
            }
            _ => step(plane, alloc, *letter, dids, answers, count)?,
        }
        count += 1;
    }
    Ok(())
}

/// Device 1 goes down.
fn down(plane: &mut SoloPlane, alloc: Global, answers: &mut Answers) -> Result<(), Fail> {
    let destroyed = plane.device_down(1)?;
    let destroyed = format!(in alloc; "{destroyed}")?;
    Ok(answers.fates.push_str(destroyed.as_str())?)
}

/// The histories that a text is the journal of.
fn told(alloc: Global, text: &str) -> Result<Histories, Fail> {
    if text.len() > 10_000 {
        return Err(Fail::new("a long journal"));
    }
    match read_journal(alloc, text.as_bytes()) {
        Ok(histories) => Ok(histories),
        Err(fault) => Err(Fail::new(fault)),
    }
}

/// A plane from its beginning to its end: what it answers, and its journal.
fn played(alloc: Global, row: &Row) -> Result<(Answers, Vec<u8>), Fail> {
    let wanted = told(alloc, row.journal)?;
    let log = wanted.logs.get(0).ok_or("no log")?;
    let mut answers = Answers {
        sent: 0,
        replies: Vec::new(alloc),
        notices: Vec::new(alloc),
        fates: String::new(alloc),
    };
    if row.mail == 0 {
        return Err(Fail::new("no mailbox"));
    }
    let mut plane = plane(alloc, row.rules, u32::from(row.mail))?;
    let gone = go(&mut plane, alloc, row.steps, &log.dids, &mut answers);
    let histories = plane.close(alloc);
    gone?;
    let journal = journal_of(alloc, &histories?)?;
    Ok((answers, journal))
}

/// A plane does what its row says: the acknowledgements and the notices.
fn check(rt: &impl Abort, alloc: Global, row: &Row) -> Result<(Vec<u8>, Vec<u8>), Fail> {
    let (answers, journal) = played(alloc, row)?;
    assert_eq!(rt; journal.as_slice(), row.journal.as_bytes(), "{}", row.steps);
    assert_eq!(rt; answers.fates.as_str(), row.fates, "{}", row.steps);
    Ok((answers.replies, answers.notices))
}

/// Port 7 binds queue 0, asks for whole packets and accepts the first one; a device goes down.
const ACCEPTED: Row = Row {
    rules: ONE_RULE,
    mail: 1024,
    steps: "ss1rsrd",
    fates: "w0",
    journal: "nfq-journal 2
M 0 7 1 config 0 cmd 1 = 0 0
M 0 7 2 config 0 params 2 0 = 0 0
A 0 1 1 1 n y 0 0 1 0 2048 - 4500001400010000400600000a0000010a000002 taken:1
M 0 7 3 verdict 0 1 1 = 0 1
D 0 1 0
P 7
S 1 config 0 cmd 1 = 0
S 2 config 0 params 2 0 = 0
R 0 1 1
S 3 verdict 0 1 1 = -
end
",
};

/// The acknowledgements of the first two messages, each of errno 0.
#[rattlefmt::skip]
const BOTH_DONE: [u8; 72] = [
    0x24, 0, 0, 0, 2, 0, 0, 0, 1, 0, 0, 0, 7, 0, 0, 0, 0, 0, 0, 0,
    0x1c, 0, 0, 0, 2, 3, 5, 0, 1, 0, 0, 0, 7, 0, 0, 0,
    0x24, 0, 0, 0, 2, 0, 0, 0, 2, 0, 0, 0, 7, 0, 0, 0, 0, 0, 0, 0,
    0x20, 0, 0, 0, 2, 3, 5, 0, 2, 0, 0, 0, 7, 0, 0, 0,
];

/// The notice of the packet's first stay.
#[rattlefmt::skip]
const NOTICE: [u8; 92] = [
    0x5c, 0, 0, 0, 0, 3, 0, 0, 0, 0, 0, 0, 0, 0, 0, 0, 2, 0, 0, 0,
    0x0b, 0, 1, 0, 0, 0, 0, 1, 8, 0, 2, 0, 8, 0, 5, 0, 0, 0, 0, 1, 8, 0, 6, 0, 0, 0, 0, 2,
    0x14, 0, 4, 0, 0, 0, 0, 0, 0, 0, 0, 1, 0, 0, 0, 0, 0, 0, 0, 0,
    0x18, 0, 0x0a, 0, 0x45, 0, 0, 20, 0, 1, 0, 0, 0x40, 6, 0, 0, 10, 0, 0, 1, 10, 0, 0, 2,
];

#[test]
fn an_accepted_packet_goes_its_way(rt: HostRuntime) -> Result<(), Fail> {
    let (replies, notices) = check(&rt, rt.alloc(), &ACCEPTED)?;
    assert_eq!(rt; replies.as_slice(), &BOTH_DONE[..]);
    assert_eq!(rt; notices.as_slice(), &NOTICE[..]);
    Ok(())
}

/// Two tables: the first queues every packet at queue 0, the second at queue 1.
const TWO_TABLES: &[u8] = b"*filter\n-A FORWARD -j NFQUEUE --queue-num 0\nCOMMIT\n\
    *security\n-A FORWARD -j NFQUEUE --queue-num 1\nCOMMIT\n";

/// The packet is accepted with priority 5, and waits at the second table's queue.
const PRIORITY: Row = Row {
    rules: TWO_TABLES,
    mail: 1,
    steps: "ss1rsr",
    fates: "w",
    journal: "nfq-journal 2
M 0 7 1 config 0 cmd 1 params 2 0 = 0 0
A 0 1 1 1 n y 0 0 1 0 2048 - 4500001400010000400600000a0000010a000002 taken:1
M 0 7 3 verdict 0 1 1 priority 5 = 0 1
M 1 7 2 config 1 cmd 1 params 2 0 = 0 0
A 1 1 2 2 n y 0 5 1 0 2048 - 4500001400010000400600000a0000010a000002 taken:1
P 7
S 1 config 0 cmd 1 params 2 0 = 0
S 2 config 1 cmd 1 params 2 0 = 0
R 0 1 1
S 3 verdict 0 1 1 priority 5 = -
R 1 1 2
end
",
};

/// The notice of its second stay.
#[rattlefmt::skip]
const WITH_PRIORITY: [u8; 100] = [
    0x64, 0, 0, 0, 0, 3, 0, 0, 0, 0, 0, 0, 0, 0, 0, 0, 2, 0, 0, 1,
    0x0b, 0, 1, 0, 0, 0, 0, 1, 8, 0, 2, 0, 8, 0, 5, 0, 0, 0, 0, 1, 8, 0, 6, 0, 0, 0, 0, 2,
    8, 0, 0x15, 0, 0, 0, 0, 5, 0x14, 0, 4, 0, 0, 0, 0, 0, 0, 0, 0, 1, 0, 0, 0, 0, 0, 0, 0, 0,
    0x18, 0, 0x0a, 0, 0x45, 0, 0, 20, 0, 1, 0, 0, 0x40, 6, 0, 0, 10, 0, 0, 1, 10, 0, 0, 2,
];

#[test]
fn a_priority_goes_with_its_packet(rt: HostRuntime) -> Result<(), Fail> {
    let (_, notices) = check(&rt, rt.alloc(), &PRIORITY)?;
    assert_eq!(rt; notices.as_slice().get(..92), Some(&NOTICE[..]));
    assert_eq!(rt; notices.as_slice().get(92..), Some(&WITH_PRIORITY[..]));
    Ok(())
}

/// Messages of each kind. Those of 16 and 19 bytes ask nothing: with the flag ACK they are answered
/// 0, and without it not at all. Then one with an unknown number, a packet message, a verdict that
/// is cut inside its header and one whose header has 7 bytes; a verdict with the marks 5 and 9, and
/// one with an attribute of kind 127; a batch; and a port that closes.
const EACH_KIND: Row = Row {
    rules: TWO_TABLES,
    mail: 1024,
    steps: "sssssssss12345ssssx",
    fates: "wwwww",
    journal: "nfq-journal 2
M 0 7 1 config 0 cmd 1 params 2 0 maxlen 5 flags 1 mask 1 = 0 0
M 0 7 8 verdict 0 - = 22 0
A 0 1 1 1 n y 0 0 1 0 2048 - 4500001400010000400600000a0000010a000002 taken:1
A 0 2 1 1 n y 0 0 2 0 2048 - 4500001400020000400600000a0000010a000002 taken:2
A 0 3 1 1 n y 0 0 3 0 2048 - 4500001400030000400600000a0000010a000002 taken:3
A 0 4 1 1 n y 0 0 4 0 2048 - 4500001400040000400600000a0000010a000002 taken:4
A 0 5 1 1 n y 0 0 5 0 2048 - 4500001400050000400600000a0000010a000002 taken:5
M 0 7 10 verdict 0 1 1 mark 9 = 0 1
M 0 7 11 verdict 0 1 2 = 0 1
M 0 7 12 batch 0 1 4 mark 7 priority 6 = 0 2
M 0 7 13 verdict 0 196611 5 mark 1 payload 4500 priority 2 = 0 1
C 0 7 0
A 1 1 2 2 n y 9 0 1 0 2048 - 4500001400010000400600000a0000010a000002 noqueue
A 1 2 2 2 n y 0 0 2 0 2048 - 4500001400020000400600000a0000010a000002 noqueue
A 1 3 2 2 n y 7 6 3 0 2048 - 4500001400030000400600000a0000010a000002 noqueue
A 1 4 2 2 n y 7 6 4 0 2048 - 4500001400040000400600000a0000010a000002 noqueue
A 3 5 2 1 n y 1 2 5 0 2048 - 4500 noqueue
P 7
S 1 config 0 cmd 1 params 2 0 maxlen 5 flags 1 mask 1 = 0
S 2 raw 10000000010305000000000000000000 = 0
S 3 raw 13000000010305000000000000000000000000 = 0
S 4 raw 10000000010301000000000000000000 = -
S 5 raw 13000000010301000000000000000000000000 = -
S 6 raw 1400000004030100000000000000000000000000 = 22
S 7 raw 1400000000030100000000000000000000000000 = 95
S 8 raw 1c000000010301000300000007000000000000000c00020000000001 = 22
S 9 raw 20000000010301000300000007000000000000000b0002000000000100000000 = 34
S 10 raw 30000000010301000300000007000000000000000c000200000000010000000108000300000000050800030000000009 = -
S 11 raw 28000000010301000300000007000000000000000c000200000000010000000208007f0000000000 = -
S 12 batch 0 1 4 mark 7 priority 6 = -
S 13 verdict 0 196611 5 mark 1 payload 4500 priority 2 = -
X
end
",
};

#[test]
fn each_kind_of_message_is_carried_out(rt: HostRuntime) -> Result<(), Fail> {
    check(&rt, rt.alloc(), &EACH_KIND)?;
    Ok(())
}
