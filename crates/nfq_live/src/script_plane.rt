//! The plane that a script's run is made on.

ghost use Rattle.std.specs.Prelude.{◌≡◌, ◌≤◌, IfOk};
ghost use Rattle.packet_entry.specs.Numbers.{most_places};
ghost use Rattle.nfq_live.specs.Run.{IsOpenedFor, tables_of};

use hook_chain::Tables;
use inspector_script::Script;
use packet_entry::NoMemory;
use plane::{Opened, Plane};
use std::alloc::Global;

/// A plane of so many places, 1 to 64, for a script: with its ports, in their order, the size of
/// its mailboxes and its key. `NoMemory` comes only where memory ran out.
pub fn open_plane(
    alloc: Global,
    places: u8,
    script: &Script,
    tables: Tables,
) -> Result<Opened, NoMemory>
    requires places { (1 ≤ places) × (places ≤ most_places) }
    ensures opened { IfOk result (IsOpenedFor script.now) }
    ensures tables { IfOk result (λ o. tables_of o ≡ tables) }
{
    let mail = script.mail();
    Plane::new(alloc, places, script.ports(), mail, tables, script.key())
}
