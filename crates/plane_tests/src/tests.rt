//! What no contract says: that a lock, a mailbox and a board are made, and calls of a plane, and
//! runs over one, succeed where there is memory; that turns come and calls return, and threads and
//! workers are at it beside each other; and worked examples.

ghost use Rattle.std.specs.Prelude.{◌≡◌, ◌≤◌, All, IfOk, IsTrue, length};
ghost use Rattle.packet_entry.specs.Numbers.{longest_packet, most_frames};
ghost use Rattle.hook_chain.specs.Numbers.{most_feeders};
ghost use Rattle.mailbox.specs.Roles.{AreDistinct};
ghost use Rattle.plane.specs.Passes.{IsFeederOf};
ghost use Rattle.place_turns.specs.Trails.{parts_of};
ghost use Rattle.plane_tests.specs.Examples.{IsGoing};

mod feeding;
mod letters;
mod pools;
mod races;
mod readings;
mod runs;
mod steps;
mod totals;
mod turns;

use histories::Histories;
use hook_chain::read_tables;
use inspector_script::{Script, read_script};
use packet_entry::{Bytes, IPV4, MAX_FRAME, NoMemory, Packet, Sequence};
use pcap_io::{Capture, Frame, Frames};
use plane::{Fed, FeederPass, Gate, Opened, Plane, Refused};
use std::alloc::Global;
use std::sync::Wait;
use std::test::Fail;

/// Protocols.
const TCP: u8 = 6;

const UDP: u8 = 17;

/// A plane of so many places and feeders with these ports and rules, whose mailboxes hold 1,024
/// notices.
fn open(
    alloc: Global,
    places: u8,
    ports: &[u32],
    rules: &[u8],
    feeders: u32,
) -> Result<Opened, Fail>
    requires places { (1 ≤ places) × (places ≤ 64) }
    requires apart { AreDistinct ports.now }
    requires feeders { (1 ≤ feeders) × (feeders ≤ most_feeders) }
    ensures going { IfOk result IsGoing }
    ensures ports { IfOk result (λ o. length o.ports ≡ length ports.now) }
{
    if rules.len() >= 1000 {
        return Err(Fail::new("long rules"));
    }
    let tables = match read_tables(alloc, rules) {
        Ok(tables) => tables.with_feeders(feeders),
        Err(_) => return Err(Fail::new("rules")),
    };
    Ok(Plane::new(alloc, places, ports, 1024, tables, 0)?)
}

/// Closes the plane, whose ports are open.
fn close(alloc: Global, opened: Opened) -> Result<Histories, NoMemory>
    requires { IsGoing opened }
{
    let Opened {
        plane,
        feeder,
        ports,
        gauge: _,
    } = opened;
    plane.close(alloc, feeder, ports, Sequence::new(alloc))
}

/// The 20 bytes of a packet of this protocol, from 10.0.0.1 to 10.0.0.2. It isn't IP where its
/// first byte isn't 69.
fn bytes_of(first: u8, number: u8, protocol: u8) -> [u8; 20] {
    [
        first, 0, 0, 20, 0, number, 0, 0, 0x40, protocol, 0, 0, 10, 0, 0, 1, 10, 0, 0, 2,
    ]
}

/// Feeds the packet with this number, of this protocol. No more than 1,000 are fed.
fn feed<R: Wait, G: Gate>(
    rt: &R,
    alloc: Global,
    gate: &G,
    plane: &Plane,
    pass: &mut FeederPass,
    number: u8,
    protocol: u8,
) -> Result<Fed, NoMemory>
    requires pass { IsFeederOf plane.now pass.old }
    ensures pass { IsFeederOf plane.now pass.new }
    ensures parts { parts_of pass.new.trail.known ≡ parts_of pass.old.trail.known }
{
    if pass.fed() >= 1000 {
        return Err(NoMemory);
    }
    let bytes = bytes_of(0x45, number, protocol);
    let packet = Packet::new(alloc, u32::from(number.max(1)), 1, 0, IPV4, &[], &bytes)?;
    match plane.feed(rt, alloc, pass, gate, packet) {
        Ok(fed) => Ok(fed),
        Err(Refused { packet }) => {
            packet.destroy();
            Err(NoMemory)
        }
    }
}

/// A capture of so many packets, of which one isn't IP where its number is `odd`.
fn capture(alloc: Global, count: u8, odd: u8) -> Result<Capture, NoMemory> {
    let mut frames = Vec::new(alloc);
    for before in 0..count {
        let number = before + 1;
        let first = if number == odd { 0 } else { 0x45 };
        frames.push(Frame {
            seconds: u32::from(number),
            fraction: 0,
            original: 20,
            bytes: Bytes::copy(alloc, &bytes_of(first, number, TCP))?,
        })?;
    }
    Ok(Capture {
        big: false,
        nanos: false,
        zone: 0,
        sigfigs: 0,
        snap: 262_144,
        // Raw IP.
        link: 101,
        frames: Frames::from_vec(frames),
    })
}

/// Whether the frames are few and short enough for a run.
fn are_small(frames: &Frames) -> bool
    ensures few { IsTrue result → length frames.now ≤ most_frames }
    ensures short { IsTrue result → All (λ f. length f.bytes ≤ longest_packet) frames.now }
{
    for frame in frames {
        if frame.bytes.len() > MAX_FRAME {
            return false;
        }
    }
    frames.len() <= 1000
}

/// The script of a text.
fn script_of(alloc: Global, text: &[u8]) -> Result<Script, Fail> {
    if text.len() >= 10_000 {
        return Err(Fail::new("long script"));
    }
    match read_script(alloc, text) {
        Ok(script) => Ok(script),
        Err(fault) => Err(Fail::new(fault)),
    }
}
