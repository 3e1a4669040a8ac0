//! Passes that meet. None of it takes memory or waits.

ghost use Rattle.std.specs.Prelude.{IsOk};
ghost use Rattle.std.specs.List.{AllZip};
ghost use Rattle.place_rows.specs.Lists.{Every};
ghost use Rattle.plane.specs.Passes.{IsFeederOf, IsPortOf};
ghost use Rattle.plane.specs.Planes.{places_of};
ghost use Rattle.plane.specs.Meetings.{KeepsAll, FeederKeepsAll, Meets};
ghost use Rattle.plane.specs.Tellings.{Told, TellEach};

use crate::opened::{ClosedPorts, PortPasses};
use crate::plane::Plane;
use crate::port::{FeederPass, Port, PortState};
use packet_entry::{NoMemory, Sequence};
use place_rows::rows_meet_by_the_first;

/// Which of two passes lets the other see all that it has seen.
#[derive(Clone, Copy, Drop)]
enum Direction {
    /// A port's lets the feeder's.
    ToFeeder,
    /// The feeder's lets a port's.
    ToPorts,
}

/// Lets the feeder's pass see all that a port's has seen, or the other way round.
fn tell<S: PortState>(
    plane: &Plane,
    port: &mut Port<S>,
    feeder: &mut FeederPass,
    direction: Direction,
)
    requires port { IsPortOf plane.now port.old }
    requires feeder { IsFeederOf plane.now feeder.old }
    ensures port { IsPortOf plane.now port.new × KeepsAll port.old port.new }
    ensures feeder { IsFeederOf plane.now feeder.new × FeederKeepsAll feeder.old feeder.new }
    ensures told { Told direction (places_of plane.now) port.old.trail.known
        feeder.old.trail.known port.new.trail.known feeder.new.trail.known }
{
    match direction {
        Direction::ToFeeder => port.passes.tell(&plane.shared, &mut feeder.passes),
        Direction::ToPorts => feeder.passes.tell(&plane.shared, &mut port.passes),
    }
}

/// The same of each of these ports, one after the other.
fn tell_each<S: PortState>(
    plane: &Plane,
    ports: &mut Sequence<Port<S>>,
    feeder: &mut FeederPass,
    direction: Direction,
)
    requires ports { Every (IsPortOf plane.now) ports.old }
    requires feeder { IsFeederOf plane.now feeder.old }
    ensures ports { Every (IsPortOf plane.now) ports.new }
    ensures feeder { IsFeederOf plane.now feeder.new }
    ensures same { AllZip KeepsAll ports.old ports.new × FeederKeepsAll feeder.old feeder.new }
    ensures told { TellEach direction (places_of plane.now) feeder.old feeder.new ports.old
        ports.new }
{
    rows_meet_by_the_first();
    for i in 0..ports.len() {
        let Some(port) = ports.get_mut(i) else {
            unreachable!()
        };
        tell(plane, port, feeder, direction);
    }
}

impl Plane {
    /// Lets each of these passes see all that any of them has seen: afterwards each has seen, at
    /// each place, the longest list that one of them had seen there. Nothing else of them changes
    /// but how they share their parts of the locks. It needs no memory, so that it always succeeds.
    pub fn meet(
        &self,
        feeder: &mut FeederPass,
        ports: &mut PortPasses,
        closed: &mut ClosedPorts,
    ) -> Result<(), NoMemory>
        requires feeder { IsFeederOf self.now feeder.old }
        requires ports { Every (IsPortOf self.now) ports.old }
        requires closed { Every (IsPortOf self.now) closed.old }
        ensures feeder { IsFeederOf self.now feeder.new }
        ensures ports { Every (IsPortOf self.now) ports.new }
        ensures closed { Every (IsPortOf self.now) closed.new }
        ensures met { Meets (places_of self.now) feeder.old feeder.new ports.old ports.new
            closed.old closed.new }
        ensures succeeds { IsOk result }
    {
        rows_meet_by_the_first();
        tell_each(self, ports, feeder, Direction::ToFeeder);
        tell_each(self, closed, feeder, Direction::ToFeeder);
        tell_each(self, ports, feeder, Direction::ToPorts);
        tell_each(self, closed, feeder, Direction::ToPorts);
        Ok(())
    }
}
