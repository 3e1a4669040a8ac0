//! Part: each port of the script has a log, in their order.

ghost use Rattle.std.specs.Prelude.{◌≡◌, ◌↔◌, IsTrue};
ghost use Rattle.run_parts.specs.Run.{PortsHold};

use histories::Histories;
use inspector_script::Script;

/// Whether there is one log for each port of the script, in its order, and no other log.
pub fn are_ports(script: &Script, histories: &Histories) -> bool
    ensures { IsTrue result ↔ PortsHold script.now histories.now }
{
    let ports = script.ports();
    let mut place = 0;
    for log in &histories.logs {
        if place >= ports.len() || log.port != ports[place] {
            return false;
        }
        place += 1;
    }
    place == ports.len()
}
