//! Two calls that race for queue 0: one of port 7, the other of the feeder or of port 8. Whichever
//! thread comes first, a run ends in one of the two ways in which they end one after the other.

ghost use Rattle.std.specs.Prelude.{◌≡◌, ◌<◌, ◌∷◌, [], IfOk, IfErr, length};
ghost use Rattle.std.specs.Thread.{IsSync};
ghost use Rattle.place_turns.specs.Trails.{parts_of};
ghost use Rattle.plane.specs.Passes.{IsFeederOf, IsPortOf};
ghost use Rattle.plane_tests.specs.Examples.{IsGoing, Keeps};

use super::steps::{Row, SETS_UP_0, SETS_UP_1, Step, lines_of, ready};
use super::{TCP, UDP, close, feed};
use histories::Histories;
use packet_entry::Sequence;
use plane::{ClosedPort, FeederPass, Gate, Opened, Plane, PortPass, PortPasses, parts_stay_whole};
use queue_core::{Outcome, Reply};
use std::alloc::Global;
use std::sync::Wait;
use std::sync::atomic::{AtomicU64, Ordering};
use std::test::Fail;
use std::thread::{Threads, join};

/// How often the first turn that calls the gate looks.
const LOOKS: u32 = 100_000;

/// Holds the first turn that calls it for a while.
#[derive(Drop)]
struct Held {
    turns: AtomicU64,
    looks: AtomicU64,
}

impl Gate for Held {
    fn inside<R: Wait>(&self, _rt: &R, _place: u8) {
        if self.turns.fetch_add(1, Ordering::SeqCst) == 0 {
            for _ in 0..LOOKS {
                self.looks.fetch_add(1, Ordering::SeqCst);
            }
        }
    }

    fn answered(&self, _place: u8) {}
}

/// What a port sends.
#[derive(Clone, Copy)]
enum Message {
    /// Port 7: the packets of queue 0 with the ids up to 3, or 4, are accepted.
    AcceptsTo3,
    AcceptsTo4,
    /// Port 7: queue 0 is unbound.
    Unbinds,
    /// Port 8: the packet with id 1 goes on from queue 1 to queue 0.
    SendsOn,
    /// Port 8: the packets of queue 0 with the ids up to 3 are accepted.
    AcceptsOthers,
}

/// Its bytes.
fn bytes_in(message: Message) -> &'static [u8]
    ensures { length result.now < 100 }
{
    match message {
        Message::AcceptsTo3 => &[
            32, 0, 0, 0, 3, 3, 1, 0, 2, 0, 0, 0, 7, 0, 0, 0, 0, 0, 0, 0, 12, 0, 2, 0, 0, 0, 0, 1,
            0, 0, 0, 3,
        ],
        Message::AcceptsTo4 => &[
            32, 0, 0, 0, 3, 3, 1, 0, 2, 0, 0, 0, 7, 0, 0, 0, 0, 0, 0, 0, 12, 0, 2, 0, 0, 0, 0, 1,
            0, 0, 0, 4,
        ],
        Message::Unbinds => &[
            28, 0, 0, 0, 2, 3, 1, 0, 2, 0, 0, 0, 7, 0, 0, 0, 0, 0, 0, 0, 8, 0, 1, 0, 2, 0, 0, 0,
        ],
        Message::SendsOn => &[
            32, 0, 0, 0, 1, 3, 1, 0, 2, 0, 0, 0, 8, 0, 0, 0, 0, 0, 0, 1, 12, 0, 2, 0, 0, 0, 0, 3,
            0, 0, 0, 1,
        ],
        Message::AcceptsOthers => &[
            32, 0, 0, 0, 3, 3, 1, 0, 2, 0, 0, 0, 8, 0, 0, 0, 0, 0, 0, 0, 12, 0, 2, 0, 0, 0, 0, 1,
            0, 0, 0, 3,
        ],
    }
}

/// What port 7 does.
#[derive(Clone, Copy)]
enum PortCall {
    Sends(Message),
    Closes,
}

/// What another does.
#[derive(Clone, Copy)]
enum OtherCall {
    /// A packet is fed to queue 0.
    Feeds,
    /// Device 1 goes down at place 0.
    GoesDown,
    /// Port 8 sends this.
    Sends(Message),
}

/// Two calls, and the replies at queue 0, where the first comes first and where it doesn't.
struct Race {
    first: PortCall,
    second: OtherCall,
    outcomes: [[Reply; 2]; 2],
}

const ACCEPTED_3: Reply = Reply::Answer { errno: 0, taken: 3 };

const ACCEPTED_4: Reply = Reply::Answer { errno: 0, taken: 4 };

/// To one for a queue of another port, for ids at which nothing waits, and for an absent queue.
const NOT_PERMITTED: Reply = Reply::Answer { errno: 1, taken: 0 };

const NONE_WAITS: Reply = Reply::Answer { errno: 2, taken: 0 };

const NO_DEVICE: Reply = Reply::Answer {
    errno: 19,
    taken: 0,
};

const TAKEN_4: Reply = Reply::Arrived {
    outcome: Outcome::Taken { id: 4 },
};

const NO_QUEUE: Reply = Reply::Arrived {
    outcome: Outcome::NoQueue,
};

const FLUSHED_0: Reply = Reply::Flushed { taken: 0 };

const FLUSHED_3: Reply = Reply::Flushed { taken: 3 };

/// At queue 0, of port 7, wait the ids 1, 2 and 3; at queue 1, of port 8, waits the id 1.
const RACES: [Race; 6] = [
    Race {
        first: PortCall::Sends(Message::AcceptsTo4),
        second: OtherCall::Feeds,
        outcomes: [[ACCEPTED_3, TAKEN_4], [TAKEN_4, ACCEPTED_4]],
    },
    Race {
        first: PortCall::Sends(Message::AcceptsTo3),
        second: OtherCall::Feeds,
        outcomes: [[ACCEPTED_3, TAKEN_4], [TAKEN_4, ACCEPTED_3]],
    },
    Race {
        first: PortCall::Sends(Message::Unbinds),
        second: OtherCall::Feeds,
        outcomes: [[ACCEPTED_3, NO_QUEUE], [TAKEN_4, ACCEPTED_4]],
    },
    Race {
        first: PortCall::Sends(Message::AcceptsTo3),
        second: OtherCall::GoesDown,
        outcomes: [[ACCEPTED_3, FLUSHED_0], [FLUSHED_3, NONE_WAITS]],
    },
    Race {
        first: PortCall::Sends(Message::Unbinds),
        second: OtherCall::Sends(Message::SendsOn),
        outcomes: [[ACCEPTED_3, NO_QUEUE], [TAKEN_4, ACCEPTED_4]],
    },
    Race {
        first: PortCall::Closes,
        second: OtherCall::Sends(Message::AcceptsOthers),
        outcomes: [[FLUSHED_3, NO_DEVICE], [NOT_PERMITTED, FLUSHED_3]],
    },
];

/// Which call comes first.
#[derive(Clone, Copy)]
enum Order {
    First,
    Second,
    /// Whichever thread does.
    Either,
}

/// What is left of port 7's pass.
type Left = Result<PortPass, ClosedPort>;

/// Port 7's call, and whether memory sufficed.
fn port_calls<R: Wait>(
    rt: &R,
    alloc: Global,
    gate: &Held,
    plane: &Plane,
    mut pass: PortPass,
    call: PortCall,
) -> (Left, bool)
    requires { IsPortOf plane.now pass }
    ensures open { IfOk result.0 (λ p. IsPortOf plane.now p × Keeps pass p) }
    ensures closed { IfErr result.0 (λ p. IsPortOf plane.now p × Keeps pass p) }
{
    match call {
        PortCall::Sends(message) => {
            let bytes = bytes_in(message);
            let used = plane.message_unread(rt, alloc, &mut pass, gate, bytes);
            (Ok(pass), used.is_ok())
        }
        PortCall::Closes => (Err(plane.close_port(rt, pass)), true),
    }
}

/// The passes of those who may do the other call.
#[derive(Drop)]
struct Others {
    feeder: FeederPass,
    eight: PortPass,
}

/// The other call, and whether memory sufficed.
fn other_calls<R: Wait>(
    rt: &R,
    alloc: Global,
    gate: &Held,
    plane: &Plane,
    mut others: Others,
    call: OtherCall,
) -> (Others, bool)
    requires feeder { IsFeederOf plane.now others.feeder }
    requires eight { IsPortOf plane.now others.eight }
    ensures feeder { IsFeederOf plane.now result.0.feeder }
    ensures parts { parts_of result.0.feeder.trail.known ≡ parts_of others.feeder.trail.known }
    ensures eight { IsPortOf plane.now result.0.eight }
    ensures keeps { Keeps others.eight result.0.eight }
{
    let Others { feeder, eight } = &mut others;
    let done = match call {
        OtherCall::Feeds => feed(rt, alloc, gate, plane, feeder, 5, TCP).is_ok(),
        OtherCall::GoesDown => plane.device_down(rt, feeder, 1, 0).is_ok(),
        OtherCall::Sends(message) => {
            let bytes = bytes_in(message);
            plane.message_unread(rt, alloc, eight, gate, bytes).is_ok()
        }
    };
    (others, done)
}

/// Both calls.
fn both<R: Threads + Wait + Sync>(
    rt: &R,
    alloc: Global,
    plane: &Plane,
    seven: PortPass,
    others: Others,
    race: &Race,
    order: Order,
) -> ((Left, bool), (Others, bool))
    requires seven { IsPortOf plane.now seven }
    requires feeder { IsFeederOf plane.now others.feeder }
    requires eight { IsPortOf plane.now others.eight }
    ensures open { IfOk result.0.0 (λ p. IsPortOf plane.now p × Keeps seven p) }
    ensures closed { IfErr result.0.0 (λ p. IsPortOf plane.now p × Keeps seven p) }
    ensures feeder { IsFeederOf plane.now result.1.0.feeder }
    ensures parts { parts_of result.1.0.feeder.trail.known ≡ parts_of others.feeder.trail.known }
    ensures eight { IsPortOf plane.now result.1.0.eight }
    ensures keeps { Keeps others.eight result.1.0.eight }
{
    let gate = Held {
        turns: AtomicU64::new(0),
        looks: AtomicU64::new(0),
    };
    let gate = &gate;
    match order {
        Order::First => {
            let one = port_calls(rt, alloc, gate, plane, seven, race.first);
            (
                one,
                other_calls(rt, alloc, gate, plane, others, race.second),
            )
        }
        Order::Second => {
            let two = other_calls(rt, alloc, gate, plane, others, race.second);
            (port_calls(rt, alloc, gate, plane, seven, race.first), two)
        }
        Order::Either => join(
            rt,
            move ||
                requires { IsSync R.row × IsPortOf plane.now seven }
            { port_calls(rt, alloc, gate, plane, seven, race.first) },
            move ||
                requires { IsSync R.row × IsFeederOf plane.now others.feeder
                    × IsPortOf plane.now others.eight }
            { other_calls(rt, alloc, gate, plane, others, race.second) },
        ),
    }
}

/// The passes of two ports.
fn apart(ports: PortPasses) -> (PortPass, PortPass)
    requires { length ports ≡ 2 }
    ensures { ports ≡ result.0 ∷ result.1 ∷ [] }
{
    let mut all = ports.into_vec();
    let (Some(eight), Some(seven)) = (all.pop(), all.pop()) else {
        unreachable!()
    };
    (seven, eight)
}

/// Both calls, on a plane that then closes.
fn run<R: Threads + Wait + Sync>(
    rt: &R,
    alloc: Global,
    opened: Opened,
    race: &Race,
    order: Order,
) -> Result<Histories, Fail>
    requires going { IsGoing opened }
    requires two { length opened.ports ≡ 2 }
{
    parts_stay_whole();
    let Ok(mut closed) = Vec::with_capacity(alloc, 2) else {
        let _ = close(alloc, opened);
        return Err(Fail::new("out of memory"));
    };
    let Opened {
        plane,
        feeder,
        ports,
        gauge: _,
    } = opened;
    let (seven, eight) = apart(ports);
    let others = Others { feeder, eight };
    let ((left, one), (others, two)) = both(rt, alloc, &plane, seven, others, race, order);
    let Others { feeder, eight } = others;
    let seven = match left {
        Ok(pass) => plane.close_port(rt, pass),
        Err(closed) => closed,
    };
    closed.push_reserved(seven);
    closed.push_reserved(plane.close_port(rt, eight));
    let closed = Sequence::from_vec(closed);
    let histories = plane.close(alloc, feeder, Sequence::new(alloc), closed);
    if !one || !two {
        return Err(Fail::new("out of memory"));
    }
    Ok(histories?)
}

/// The replies to both calls at queue 0, after a request and three arrivals.
fn replies<R: Threads + Wait + Sync>(
    rt: &R,
    alloc: Global,
    race: &Race,
    order: Order,
) -> Result<[Reply; 2], Fail> {
    const READY: [Row; 6] = [
        (Step::Says(0, SETS_UP_0), &[(1, 0), (0, 0)]),
        (Step::Says(1, SETS_UP_1), &[(1, 0), (1, 0)]),
        (Step::Feeds(1, TCP), &[(2, 1), (1, 0)]),
        (Step::Feeds(2, TCP), &[(3, 2), (1, 0)]),
        (Step::Feeds(3, TCP), &[(4, 3), (1, 0)]),
        (Step::Feeds(4, UDP), &[(4, 3), (2, 1)]),
    ];
    let opened = ready(rt, alloc, &READY)?;
    let histories = run(rt, alloc, opened, race, order)?;
    let lines = lines_of(alloc, &histories.entries)?;
    match (lines.get(4), lines.get(5)) {
        (Some((0, _, one)), Some((0, _, two))) => Ok([*one, *two]),
        _ => Err(Fail::new("fewer entries")),
    }
}

#[test]
fn calls_that_race_end_as_one_after_the_other(rt: HostRuntime) -> Result<(), Fail> {
    let alloc = rt.alloc();
    for race in &RACES {
        assert!(rt; replies(&rt, alloc, race, Order::First)? == race.outcomes[0]);
        assert!(rt; replies(&rt, alloc, race, Order::Second)? == race.outcomes[1]);
        for _ in 0..50u8 {
            let ended = replies(&rt, alloc, race, Order::Either)?;
            assert!(rt; race.outcomes.contains(&ended));
        }
    }
    Ok(())
}
