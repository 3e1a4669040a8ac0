//! Worked examples: what happens to a plane, one after the other, with what the board shows
//! afterwards, and what is then in the entries.

ghost use Rattle.std.specs.Prelude.{◌≡◌, IfOk, length};
ghost use Rattle.place_rows.specs.Lists.{Every};
ghost use Rattle.plane.specs.Passes.{IsPortOf};
ghost use Rattle.plane.specs.Planes.{board_of};
ghost use Rattle.plane_tests.specs.Examples.{AreGoing, IsGoing, Stay};

use super::{TCP, close, feed, open};
use glance::GlancePass;
use histories::Entries;
use packet_entry::{Letter, NoMemory};
use plane::{Fed, FeederPass, OpenGate, Opened, Plane, PortPasses, parts_stay_whole};
use queue_core::{Event, Outcome, Reply};
use std::alloc::Global;
use std::sync::Wait;
use std::test::Fail;

/// What happens.
#[derive(Clone, Copy)]
pub(super) enum Step {
    /// The port with this number, from 0 on, sends this message.
    Says(usize, &'static [u8]),
    /// It receives a notice with these bytes, or none.
    Hears(usize, Option<&'static [u8]>),
    /// A packet with this number and protocol is fed, and waits.
    Feeds(u8, u8),
}

/// A place's totals: how many entries it has, and how many packets wait there.
type Shown = (u64, u32);

/// A step, and what the board shows afterwards of the places from 0 on.
pub(super) type Row = (Step, &'static [Shown]);

/// A port sends this message: whether all of it is used.
fn says<R: Wait>(
    rt: &R,
    alloc: Global,
    plane: &Plane,
    ports: &mut PortPasses,
    at: usize,
    bytes: &[u8],
) -> Result<bool, Fail>
    requires { Every (IsPortOf plane.now) ports.old }
    ensures { Stay plane.now ports.old ports.new }
{
    if bytes.len() >= 1000 {
        return Err(Fail::new("a long message"));
    }
    let Some(pass) = ports.get_mut(at) else {
        return Err(Fail::new("no such port"));
    };
    let mut replies = Vec::new(alloc);
    let used = plane.message(rt, alloc, pass, &OpenGate, bytes, &mut replies)?;
    Ok(used as usize == bytes.len())
}

/// A port receives a notice.
fn receive<R: Wait>(
    rt: &R,
    plane: &Plane,
    ports: &mut PortPasses,
    at: usize,
) -> Result<Option<Letter>, Fail>
    requires { Every (IsPortOf plane.now) ports.old }
    ensures { Stay plane.now ports.old ports.new }
{
    let Some(pass) = ports.get_mut(at) else {
        return Err(Fail::new("no such port"));
    };
    Ok(plane.receive(rt, pass)?)
}

/// A port receives a notice: whether it has these bytes, or there is none.
fn hears<R: Wait>(
    rt: &R,
    plane: &Plane,
    ports: &mut PortPasses,
    at: usize,
    wanted: Option<&[u8]>,
) -> Result<bool, Fail>
    requires { Every (IsPortOf plane.now) ports.old }
    ensures { Stay plane.now ports.old ports.new }
{
    match receive(rt, plane, ports, at)? {
        Some(letter) => Ok(wanted == Some(letter.bytes.as_slice())),
        None => Ok(wanted.is_none()),
    }
}

/// Lets it happen: whether it came out as the step says.
pub(super) fn happens<R: Wait>(
    rt: &R,
    alloc: Global,
    plane: &Plane,
    feeder: &mut FeederPass,
    ports: &mut PortPasses,
    step: Step,
) -> Result<bool, Fail>
    requires { AreGoing plane.now feeder.old ports.old }
    ensures going { AreGoing plane.now feeder.new ports.new }
    ensures ports { length ports.new ≡ length ports.old }
{
    parts_stay_whole();
    match step {
        Step::Says(at, bytes) => says(rt, alloc, plane, ports, at, bytes),
        Step::Hears(at, wanted) => hears(rt, plane, ports, at, wanted),
        Step::Feeds(number, protocol) => {
            let fed = feed(rt, alloc, &OpenGate, plane, feeder, number, protocol)?;
            Ok(fed == Fed::Waiting)
        }
    }
}

/// Whether the board shows this of the places, from place 0 on.
pub(super) fn all_show(plane: &Plane, gauge: &mut GlancePass, wanted: &[Shown]) -> bool
    requires { gauge.old.board ≡ board_of plane.now }
    ensures { gauge.new.board ≡ board_of plane.now }
{
    let mut place = 0u8;
    for shown in wanted {
        if place >= plane.places() {
            return false;
        }
        let totals = plane.glance(gauge, place);
        if (totals.events, totals.waiting) != *shown {
            return false;
        }
        place = place.wrapping_add(1);
    }
    true
}

/// Lets all these steps happen, each with what the board shows afterwards; the text says what came
/// out otherwise.
pub(super) fn all_happen<R: Wait>(
    rt: &R,
    alloc: Global,
    opened: &mut Opened,
    rows: &[Row],
) -> Result<(), Fail>
    requires { IsGoing opened.old }
    ensures going { IsGoing opened.new }
    ensures ports { length opened.new.ports ≡ length opened.old.ports }
{
    let Opened {
        plane,
        feeder,
        ports,
        gauge,
    } = opened;
    for (step, totals) in rows {
        if !happens(rt, alloc, plane, feeder, ports, *step)? {
            return Err(Fail::new("a step came out otherwise"));
        }
        if !all_show(plane, gauge, totals) {
            return Err(Fail::new("other totals"));
        }
    }
    Ok(())
}

/// UDP is queued at queue 1, all else at queue 0.
const TWO_RULES: &[u8] = b"*filter\n-A FORWARD -p udp -j NFQUEUE --queue-num 1\n\
    -A FORWARD -j NFQUEUE --queue-num 0\nCOMMIT\n";

/// A plane of two places with the ports 7 and 8, once all these steps have happened.
pub(super) fn ready<R: Wait>(rt: &R, alloc: Global, rows: &[Row]) -> Result<Opened, Fail>
    ensures going { IfOk result IsGoing }
    ensures ports { IfOk result (λ o. length o.ports ≡ 2) }
{
    let mut opened = open(alloc, 2, &[7, 8], TWO_RULES, 1)?;
    match all_happen(rt, alloc, &mut opened, rows) {
        Ok(()) => Ok(opened),
        Err(fail) => {
            let _ = close(alloc, opened);
            Err(fail)
        }
    }
}

/// Of a packet that arrives its number, visit, table and mark.
type Who = (u32, u32, u16, u32);

/// An entry's queue, the packet that arrives, and the reply.
pub(super) type Line = (u16, Option<Who>, Reply);

/// What is looked at of the entries.
pub(super) fn lines_of(alloc: Global, entries: &Entries) -> Result<Vec<Line>, NoMemory> {
    let mut lines = Vec::new(alloc);
    for entry in entries {
        let who = match &entry.event {
            Event::Arrive { card, .. } => { Some((card.number, card.visit, card.table, card.mark)) }
            _ => None,
        };
        lines.push((entry.queue, who, entry.reply))?;
    }
    Ok(lines)
}

/// Every packet is queued at queue 0.
const ONE_RULE: &[u8] = b"*filter\n-A FORWARD -j NFQUEUE --queue-num 0\nCOMMIT\n";

/// Queue 0 is bound, and whole packets of it are asked for.
const BIND: &[u8] = &[
    28, 0, 0, 0, 2, 3, 5, 0, 1, 0, 0, 0, 7, 0, 0, 0, 0, 0, 0, 0, 8, 0, 1, 0, 1, 0, 0, 0,
];

const WHOLE: &[u8] = &[
    32, 0, 0, 0, 2, 3, 5, 0, 2, 0, 0, 0, 7, 0, 0, 0, 0, 0, 0, 0, 9, 0, 2, 0, 0, 0, 0, 0, 2, 0, 0, 0,
];

/// A line of the listing, as the kernel prints it with
/// `"%5u %6u %5u %1u %5u %5u %5u %8u %2d\n"`: queue 0 of port 7, one packet waits, whole packets of
/// at most 65531 bytes, none dropped, and the last id is 1.
const LISTED: &[u8] = b"    0      7     1 2 65531     0     0        1  1\n";

#[test]
fn a_packet_waits_and_is_listed(rt: HostRuntime) -> Result<(), Fail> {
    const ROWS: [Row; 3] = [
        (Step::Says(0, BIND), &[(1, 0)]),
        (Step::Says(0, WHOLE), &[(2, 0)]),
        (Step::Feeds(1, TCP), &[(3, 1)]),
    ];
    parts_stay_whole();
    let mut opened = open(rt.alloc(), 1, &[7], ONE_RULE, 1)?;
    let done = all_happen(&rt, rt.alloc(), &mut opened, &ROWS);
    let mut out = Vec::new(rt.alloc());
    let (plane, feeder) = (&opened.plane, &mut opened.feeder);
    let listed = plane.listing(&rt, rt.alloc(), feeder, &mut out);
    let histories = close(rt.alloc(), opened);
    done?;
    listed?;
    assert_eq!(rt; out.as_slice(), LISTED);
    assert_eq!(rt; histories?.entries.len(), 3);
    Ok(())
}

/// Queue 0 is bound by port 7 and asked for whole packets in one message, and queue 1 by port 8.
pub(super) const SETS_UP_0: &[u8] = &[
    40, 0, 0, 0, 2, 3, 5, 0, 1, 0, 0, 0, 7, 0, 0, 0, 0, 0, 0, 0, 8, 0, 1, 0, 1, 0, 0, 0, 9, 0, 2,
    0, 0, 0, 0, 0, 2, 0, 0, 0,
];

pub(super) const SETS_UP_1: &[u8] = &[
    40, 0, 0, 0, 2, 3, 5, 0, 1, 0, 0, 0, 8, 0, 0, 0, 0, 0, 0, 1, 8, 0, 1, 0, 1, 0, 0, 0, 9, 0, 2,
    0, 0, 0, 0, 0, 2, 0, 0, 0,
];

/// The verdict that sends the packet with id 1 from queue 0 on to queue 1, with the mark 5.
const SENDS_ON: &[u8] = &[
    40, 0, 0, 0, 1, 3, 1, 0, 2, 0, 0, 0, 7, 0, 0, 0, 0, 0, 0, 0, 12, 0, 2, 0, 0, 1, 0, 3, 0, 0, 0,
    1, 8, 0, 3, 0, 0, 0, 0, 5,
];

/// The notice of packet 1 at queue 1, under id 1 and with the mark 5.
const MARKED_AT_1: &[u8] = &[
    0x64, 0, 0, 0, 0, 3, 0, 0, 0, 0, 0, 0, 0, 0, 0, 0, 2, 0, 0, 1, 0x0b, 0, 1, 0, 0, 0, 0, 1, 8, 0,
    2, 0, 8, 0, 5, 0, 0, 0, 0, 1, 8, 0, 6, 0, 0, 0, 0, 2, 8, 0, 3, 0, 0, 0, 0, 5, 0x14, 0, 4, 0, 0,
    0, 0, 0, 0, 0, 0, 1, 0, 0, 0, 0, 0, 0, 0, 0, 0x18, 0, 0x0a, 0, 0x45, 0, 0, 20, 0, 1, 0, 0,
    0x40, 6, 0, 0, 10, 0, 0, 1, 10, 0, 0, 2,
];

/// To a request that succeeds and lets nothing go, or one packet.
const DONE: Reply = Reply::Answer { errno: 0, taken: 0 };

const ONE_LEFT: Reply = Reply::Answer { errno: 0, taken: 1 };

/// To an arrival that waits under this id.
const TAKEN_1: Reply = Reply::Arrived {
    outcome: Outcome::Taken { id: 1 },
};

#[test]
fn a_verdict_sends_a_packet_to_another_place(rt: HostRuntime) -> Result<(), Fail> {
    const ROWS: [Row; 6] = [
        (Step::Says(0, SETS_UP_0), &[(1, 0), (0, 0)]),
        (Step::Says(1, SETS_UP_1), &[(1, 0), (1, 0)]),
        (Step::Feeds(1, TCP), &[(2, 1), (1, 0)]),
        (Step::Says(0, SENDS_ON), &[(3, 0), (2, 1)]),
        (Step::Hears(1, Some(MARKED_AT_1)), &[(3, 0), (2, 1)]),
        (Step::Hears(1, None), &[(3, 0), (2, 1)]),
    ];
    const WANTED: [Line; 5] = [
        (0, None, DONE),
        (0, Some((1, 1, 1, 0)), TAKEN_1),
        (0, None, ONE_LEFT),
        (1, None, DONE),
        (1, Some((1, 2, 1, 5)), TAKEN_1),
    ];
    let mut opened = open(rt.alloc(), 2, &[7, 8], ONE_RULE, 1)?;
    let done = all_happen(&rt, rt.alloc(), &mut opened, &ROWS);
    let histories = close(rt.alloc(), opened);
    done?;
    let lines = lines_of(rt.alloc(), &histories?.entries)?;
    assert_eq!(rt; lines.as_slice(), &WANTED[..]);
    Ok(())
}
