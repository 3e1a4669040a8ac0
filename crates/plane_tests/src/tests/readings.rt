//! The board of a plane is read in one thread, beside turns of the plane in another.

ghost use Rattle.std.specs.Prelude.{◌≡◌};
ghost use Rattle.plane.specs.Planes.{board_of};
ghost use Rattle.plane_tests.specs.Examples.{AreGoing};

use super::steps::{Row, SETS_UP_0, SETS_UP_1, Step, all_show, happens, ready};
use super::{TCP, UDP, close};
use glance::GlancePass;
use plane::{FeederPass, Opened, Plane, PortPasses};
use std::alloc::Global;
use std::sync::Wait;
use std::test::Fail;
use std::thread::{join, yield_now};

/// Port 7 accepts all that waits at queue 0, and port 8 all at queue 1.
const ACCEPTS_0: &[u8] = &[
    32, 0, 0, 0, 3, 3, 1, 0, 2, 0, 0, 0, 7, 0, 0, 0, 0, 0, 0, 0, 12, 0, 2, 0, 0, 0, 0, 1, 0, 0,
    255, 255,
];

const ACCEPTS_1: &[u8] = &[
    32, 0, 0, 0, 3, 3, 1, 0, 2, 0, 0, 0, 8, 0, 0, 0, 0, 0, 0, 1, 12, 0, 2, 0, 0, 0, 0, 1, 0, 0,
    255, 255,
];

/// A round: four packets come to wait at each of the two places, and a batch accepts them.
const ROUND: [Step; 10] = [
    Step::Feeds(1, TCP),
    Step::Feeds(2, UDP),
    Step::Feeds(3, TCP),
    Step::Feeds(4, TCP),
    Step::Feeds(5, UDP),
    Step::Feeds(6, UDP),
    Step::Feeds(7, TCP),
    Step::Says(0, ACCEPTS_0),
    Step::Feeds(8, UDP),
    Step::Says(1, ACCEPTS_1),
];

/// Lets 50 rounds happen: whether each step came out as it says.
fn take_turns<R: Wait>(
    rt: &R,
    alloc: Global,
    plane: &Plane,
    mut feeder: FeederPass,
    mut ports: PortPasses,
) -> (FeederPass, PortPasses, Result<bool, Fail>)
    requires { AreGoing plane.now feeder ports }
    ensures { AreGoing plane.now result.0 result.1 }
{
    for number in 0..500usize {
        match happens(
            rt,
            alloc,
            plane,
            &mut feeder,
            &mut ports,
            ROUND[number % 10],
        ) {
            Ok(true) => {}
            other => return (feeder, ports, other),
        }
    }
    (feeder, ports, Ok(true))
}

/// Reads the totals of place 0 and of place 1 alternately, 10,000 times in all: whether each
/// reading is what a turn left there, and none shows fewer entries than the one before it.
fn read_on(plane: &Plane, mut gauge: GlancePass) -> (GlancePass, bool)
    requires { gauge.board ≡ board_of plane.now }
    ensures { result.0.board ≡ board_of plane.now }
{
    if plane.places() < 2 {
        return (gauge, false);
    }
    let mut last = [1u64; 2];
    for number in 0..10_000usize {
        let at = number % 2;
        let totals = plane.glance(&mut gauge, at as u8);
        // One entry sets the queue up. Each round has four arrivals that wait, and a batch.
        let waiting = totals.events.wrapping_sub(1) % 5;
        if totals.events < last[at] || u64::from(totals.waiting) != waiting {
            return (gauge, false);
        }
        last[at] = totals.events;
        yield_now();
    }
    (gauge, true)
}

#[test]
fn totals_are_read_beside_turns(rt: HostRuntime) -> Result<(), Fail> {
    const READY: [Row; 2] = [
        (Step::Says(0, SETS_UP_0), &[(1, 0), (0, 0)]),
        (Step::Says(1, SETS_UP_1), &[(1, 0), (1, 0)]),
    ];
    let Opened {
        plane,
        feeder,
        ports,
        gauge,
    } = ready(&rt, rt.alloc(), &READY)?;
    let (shared, handle, alloc) = (&plane, &rt, rt.alloc());
    let ((mut gauge, rose), (feeder, ports, done)) = join(
        handle,
        move || read_on(shared, gauge),
        move || take_turns(handle, alloc, shared, feeder, ports),
    );
    let all_shown = all_show(&plane, &mut gauge, &[(251, 0), (251, 0)]);
    let opened = Opened {
        plane,
        feeder,
        ports,
        gauge,
    };
    let histories = close(rt.alloc(), opened);
    assert!(rt; done?);
    assert!(rt; rose);
    assert!(rt; all_shown);
    assert_eq!(rt; histories?.entries.len(), 502);
    Ok(())
}
