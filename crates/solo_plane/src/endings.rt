//! Ports that close, and devices that go down.

ghost use Rattle.std.specs.Prelude.{◌≡◌, IfOk, OnOk, OnErr, false};
ghost use Rattle.histories.specs.History.{AreLegal};
ghost use Rattle.histories.specs.States.{told, taken_in};
ghost use Rattle.histories.specs.Happenings.{downs};
ghost use Rattle.packet_moves.specs.declared.setting.Setting.{Setting};
ghost use Rattle.solo_plane.specs.PortView.{world_of, OnPort, IsReady, HasSound};
ghost use Rattle.packet_moves.specs.Planes.{with_closed, without_device};

use crate::held::Held;
use crate::ports;
use packet_entry::NoMemory;
use packet_moves::histories_stay_sound;
use place_history::Place;

/// The histories at a place are legal.
pub(crate) fn legal_at(place: &Place)
    ensures { AreLegal place.now.entries }
{
    let _entries = place.entries();
}

/// A port closes: each queue that is bound to it ends, with all that waits in it destroyed. Takes
/// no memory.
pub(crate) fn close_port(held: &mut Held, port: u32)
    requires ready { IsReady held.old.place }
    requires port { OnPort held.old.ports port (λ p. p.is_closed ≡ false) }
    ensures ready { IsReady held.new.place }
    ensures world { world_of held.new ≡ with_closed (world_of held.old) port }
    ensures sound { (s : Setting) → HasSound s held.old → HasSound s held.new }
{
    legal_at(&held.place);
    held.place.close_port(port);
    legal_at(&held.place);
    histories_stay_sound();
    ports::close(&mut held.ports, port);
}

/// A device goes down: how many packets were destroyed. When memory runs out nothing has happened.
pub(crate) fn device_down(held: &mut Held, device: u32) -> Result<u32, NoMemory>
    requires ready { IsReady held.old.place }
    ensures ready { IsReady held.new.place }
    ensures count { IfOk result (λ count.
        count ≡ told (taken_in (downs device held.old.place.entries))) }
    ensures world { OnOk result (world_of held.new ≡ without_device (world_of held.old) device) }
    ensures ports { held.new.ports ≡ held.old.ports }
    ensures err { OnErr result (world_of held.new ≡ world_of held.old) }
    ensures sound { (s : Setting) → HasSound s held.old → HasSound s held.new }
{
    legal_at(&held.place);
    let destroyed = held.place.device_down(device)?;
    legal_at(&held.place);
    histories_stay_sound();
    Ok(destroyed)
}
