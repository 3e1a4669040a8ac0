//! Ports that open.

ghost use Rattle.std.specs.Prelude.{◌≡◌, length, All, IfOk};
ghost use Rattle.packet_moves.specs.World.{opened};
ghost use Rattle.solo_plane.specs.PortPlaces.{AreApart};
ghost use Rattle.solo_plane.specs.PortView.{port_of, ports_of};
ghost use Rattle.packet_moves.specs.Planes.{opened_ports};

use crate::held::Ports;
use crate::numbers::Numbers;
use crate::port::PortState;
use packet_entry::NoMemory;
use std::alloc::Global;

/// These ports, of which each did nothing yet.
pub(crate) fn open_ports(alloc: Global, ports: &[u32]) -> Result<Ports, NoMemory>
    requires { AreApart ports.now }
    ensures { IfOk result (λ held. ports_of held ≡ opened_ports ports.now) }
{
    let numbers = Numbers::new(alloc, ports)?;
    let states = open_states(alloc, ports)?;
    Ok(Ports { numbers, states })
}

/// The state of each of these ports: it did nothing yet.
fn open_states(alloc: Global, ports: &[u32]) -> Result<Vec<PortState>, NoMemory>
    ensures as_many { IfOk result (λ states. length states.items ≡ length ports.now) }
    ensures opened { IfOk result (λ states. All (λ s. port_of s ≡ opened) states.items) }
{
    let mut states = Vec::new(alloc);
    for _port in ports {
        states.push(PortState::new(alloc)?)?;
    }
    Ok(states)
}
