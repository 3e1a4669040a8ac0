//! Two feeders, one after the other, go through their shares of a capture.

ghost use Rattle.std.specs.Prelude.{◌≡◌, ◌≤◌, ◌<◌, ◌∷◌, List, length, All};
ghost use Rattle.packet_entry.specs.Numbers.{longest_packet, most_frames};
ghost use Rattle.place_rows.specs.Joining.{AreWhole};
ghost use Rattle.place_rows.specs.Rows.{Known};
ghost use Rattle.place_turns.specs.Trails.{parts_of};
ghost use Rattle.plane.specs.Passes.{IsFeederOf};
ghost use Rattle.plane.specs.Planes.{places_of};
ghost use Rattle.plane_tests.specs.Examples.{IsGoing};

use super::{are_small, capture, open, script_of};
use feeder_set::{Feeder, Share};
use histories::Histories;
use inspector_script::Script;
use packet_entry::{NoMemory, Sequence};
use pcap_io::Capture;
use plane::{FeederPass, OpenGate, Opened, Plane, parts_stay_whole};
use queue_core::Event;
use std::alloc::Global;
use std::sync::Wait;
use std::test::Fail;

/// Packets go to queue 0 or 1, by the number of their feeder.
const BY_FEEDER: &[u8] =
    b"*filter\n-A FORWARD -j NFQUEUE --queue-balance 0:1 --queue-cpu-fanout\nCOMMIT\n";

/// A device goes down after a frame of each of two feeders.
const SCRIPT: &[u8] = b"down 3 after 1\ndown 4 after 2\nport 7\n";

/// Steps until no frame of this feeder's share is left, of two feeders; `false` if more than eight
/// steps would be wanted.
fn feed_all<R: Wait>(
    rt: &R,
    alloc: Global,
    plane: &Plane,
    pass: &mut FeederPass,
    script: &Script,
    capture: &Capture,
    number: u32,
) -> Result<bool, NoMemory>
    requires pass { IsFeederOf plane.now pass.old }
    requires number { number < 2 }
    requires frames { length capture.now.frames ≤ most_frames }
    requires bytes { All (λ f. length f.bytes ≤ longest_packet) capture.now.frames }
    ensures pass { IsFeederOf plane.now pass.new }
    ensures parts { parts_of pass.new.trail.known ≡ parts_of pass.old.trail.known }
{
    let mut feeder = Feeder::new(Share { number, feeders: 2 });
    for _step in 0..8 {
        if pass.fed() >= 1000 {
            return Ok(false);
        }
        if !feeder.step(rt, alloc, plane, pass, script, capture, &OpenGate)? {
            return Ok(true);
        }
    }
    Ok(false)
}

/// How many packets the one fed, the other, and both; and whether each went through its share.
type Done = ([u32; 3], bool);

/// A pass is split off the feeder's, each goes through its share, and they are joined.
fn feed_by_two<R: Wait>(
    rt: &R,
    alloc: Global,
    plane: &Plane,
    pass: &mut FeederPass,
    script: &Script,
    capture: &Capture,
) -> Result<Done, NoMemory>
    requires pass { IsFeederOf plane.now pass.old }
    requires frames { length capture.now.frames ≤ most_frames }
    requires bytes { All (λ f. length f.bytes ≤ longest_packet) capture.now.frames }
    ensures pass { IsFeederOf plane.now pass.new }
    ensures whole { (rows : List (List Known)) →
        AreWhole (places_of plane.now) (pass.old.trail.known ∷ rows) →
        AreWhole (places_of plane.now) (pass.new.trail.known ∷ rows) }
{
    parts_stay_whole();
    let mut other = plane.split_feeder(alloc, pass)?;
    let first = feed_all(rt, alloc, plane, pass, script, capture, 0);
    let second = feed_all(rt, alloc, plane, &mut other, script, capture, 1);
    let (one, two) = (pass.fed(), other.fed());
    plane.join_feeder(pass, other);
    let well = first.unwrap_or(false) && second.unwrap_or(false);
    Ok(([one, two, pass.fed()], well))
}

/// Feeds all frames, and closes the plane.
fn run<R: Wait>(
    rt: &R,
    alloc: Global,
    opened: Opened,
    script: &Script,
    capture: &Capture,
) -> Result<(Done, Histories), NoMemory>
    requires going { IsGoing opened }
    requires frames { length capture.now.frames ≤ most_frames }
    requires bytes { All (λ f. length f.bytes ≤ longest_packet) capture.now.frames }
{
    let Opened {
        plane,
        mut feeder,
        ports,
        gauge: _,
    } = opened;
    let done = feed_by_two(rt, alloc, &plane, &mut feeder, script, capture);
    let histories = plane.close(alloc, feeder, ports, Sequence::new(alloc));
    Ok((done?, histories?))
}

/// Of five frames, of which the third isn't IP.
#[test]
fn two_feeders_go_through_their_shares(rt: HostRuntime) -> Result<(), Fail> {
    const WANTED: [(u16, u32); 4] = [(0, 1), (0, 5), (1, 2), (1, 4)];
    let alloc = rt.alloc();
    let capture = capture(alloc, 5, 3)?;
    assert!(rt; are_small(&capture.frames));
    let script = script_of(alloc, SCRIPT)?;
    let opened = open(alloc, 2, &[7], BY_FEEDER, 2)?;
    let (done, histories) = run(&rt, alloc, opened, &script, &capture)?;
    assert!(rt; done == ([2, 2, 4], true));
    let mut arrivals = Vec::new(alloc);
    for entry in &histories.entries {
        if let Event::Arrive { card, .. } = &entry.event {
            arrivals.push((entry.queue, card.number))?;
        }
    }
    assert_eq!(rt; arrivals.as_slice(), &WANTED[..]);
    Ok(())
}
