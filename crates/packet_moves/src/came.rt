//! Where a packet stands between two queues.

ghost use Rattle.std.specs.Prelude.{◌≡◌, ◌<◌, ◌+◌, ◌++◌, ◌∷◌, []};
ghost use Rattle.packet_entry.specs.Numbers.{last_visit};
ghost use Rattle.queue_core.specs.Laws.{way_by};
ghost use Rattle.queue_core.specs.Step.{Open};
ghost use Rattle.packet_moves.specs.OnTheWay.{IsTurned, IsInTime, HasVisit};
ghost use Rattle.packet_moves.specs.declared.came.Came.TheVariants.{Ended};
ghost use Rattle.packet_moves.specs.declared.fed.Fed.TheVariants as fed;

use crate::fed::Fed;
use crate::setting::Setting;
use histories::Lost;
use hook_chain::{Decision, Next, onward};
use packet_entry::{Packet, Stock};
use queue_core::Outcome;

/// Where a packet stands on its way.
pub enum Came {
    /// It came to its rest or end.
    Ended {
        /// Which of them.
        fed: Fed,
    },
    /// It goes on by this route, and without one it is destroyed.
    GoesOn {
        /// The packet.
        packet: Packet,
        /// Where it goes on, if it does.
        route: Option<Next>,
    },
}

/// Where a packet stands that a queue didn't take: where the queue let it through it goes on as if
/// it were accepted, and else it is destroyed.
pub fn turned(setting: &Setting, outcome: Outcome, packet: Packet) -> Came
    requires { way_by outcome ≡ Open → packet.visit < last_visit }
    ensures stands { IsTurned setting.now packet (way_by outcome) result }
    ensures in_time { IsInTime result }
    ensures visit { HasVisit packet.visit result }
{
    match outcome {
        Outcome::Bypassed | Outcome::OverflowOpen | Outcome::UserFullOpen { .. } => {
            let route = onward(&setting.tables, setting.key, &packet, &Decision::Accept);
            Came::GoesOn { packet, route }
        }
        _ => {
            packet.destroy();
            Came::Ended {
                fed: Fed::Destroyed,
            }
        }
    }
}

/// A packet that finds no memory for its next arrival is lost. Takes no memory.
pub fn lose(lost: &mut Stock<Lost>, packet: Packet) -> Came
    requires { 0 < lost.old.room }
    ensures lost { lost.new.items ≡ lost.old.items
        ++ record { number = packet.number; visit = packet.visit } ∷ [] }
    ensures room { lost.new.room + 1 ≡ lost.old.room }
    ensures came { result ≡ Ended fed.Lost }
{
    lost.push(Lost {
        number: packet.number(),
        visit: packet.visit(),
    });
    packet.destroy();
    Came::Ended { fed: Fed::Lost }
}
