//! Rules, and the way of a packet through them.

ghost use Rattle.std.specs.Prelude.{◌<◌, ◌-◌, ◌^◌, length};

use hook_chain::{LineFault, Next, read_tables, route};
use packet_entry::Packet;
use std::alloc::Global;

/// The queue to which rules, as iptables-save(8) writes them, send a packet first; `None` if they
/// release it.
pub fn queue_for(alloc: Global, rules: &[u8], packet: &Packet) -> Result<Option<u16>, LineFault>
    requires { length rules.now < 2 ^ 32 - 1 }
{
    let tables = read_tables(alloc, rules)?;
    match route(&tables, 0, packet, 1) {
        Next::To { queue, .. } => Ok(Some(queue)),
        Next::Released => Ok(None),
    }
}
