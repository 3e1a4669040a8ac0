//! What is kept of a port beside its pass.

ghost use Rattle.std.specs.Prelude.{◌≡◌, ◌<◌, List, length, Some, All, IfOk, OnOk};
ghost use Rattle.std.specs.List.{AllZip};
ghost use Rattle.script_lines.specs.Limits.{IsAsk};
ghost use Rattle.run_parts.specs.Log.{answer_to};
ghost use Rattle.nfqa_msgs.specs.NoticeTexts.{told_exactly};
ghost use Rattle.run_parts.specs.Ports.{place_in};
ghost use Rattle.plane.specs.Opening.{IsNew};
ghost use Rattle.plane.specs.Passes.{PortView, Receives};
ghost use Rattle.place_rows.specs.Lists.{Every};
ghost use Rattle.live_work.specs.Minds.{IsMind};
ghost use Rattle.live_passes.specs.Numbered.{numbers_of};

use inspector_script::{Asks, PortMachine, Script};
use packet_entry::{Letter, NoMemory};
use port_scripts::answered;
use run_parts::each_port_has_its_place;
use script_lines::Ask;
use std::alloc::Global;
use std::mem;

/// What is kept of a port beside its pass.
#[derive(Drop)]
pub struct Mind {
    /// How its inspector answers. It counts the notices that the port received.
    pub machine: PortMachine,
    /// How many notices the port received; it stops at its last value.
    pub received: u128,
    /// The text of one request.
    pub text: Vec<u8>,
    /// The memory of one answer. While it is being given, it isn't here.
    pub room: Vec<Ask>,
}

impl Mind {
    /// What the inspector of the port asks for in answer to a notice that it has just received.
    pub(crate) fn answer(
        &mut self,
        alloc: Global,
        script: &Script,
        letter: &Letter,
    ) -> Result<Asks, NoMemory>
        requires place { self.old.machine.place < length script.now.ports }
        ensures asks { IfOk result (λ asks. (old new : PortView) → IsMind script.now old self.old →
            Receives old new (Some letter.now) → asks ≡ answer_to script.now
            (place_in old.port script.now.ports) new.dids (told_exactly letter.now.bytes)) }
        ensures fit { IfOk result (All IsAsk) }
        ensures counted { OnOk result ((old new : PortView) → IsMind script.now old self.old →
            Receives old new (Some letter.now) → IsMind script.now new self.new) }
    {
        let room = mem::replace(&mut self.room, Vec::new(alloc));
        let asks = answered(&mut self.machine, room, script, letter)?;
        self.received = self.received.saturating_add(1);
        Ok(asks)
    }
}

/// What is kept of each of the script's ports, of which none has done anything yet.
pub fn minds(alloc: Global, script: &Script) -> Result<Vec<Mind>, NoMemory>
    ensures minds { IfOk result (λ minds. (ports : List PortView) →
        numbers_of ports ≡ script.now.ports → Every IsNew ports →
        AllZip (IsMind script.now) ports minds.items) }
{
    each_port_has_its_place();
    let mut minds = Vec::new(alloc);
    for place in 0..script.ports().len() {
        minds.push(Mind {
            machine: PortMachine::new(place as u32),
            received: 0,
            text: Vec::new(alloc),
            room: Vec::new(alloc),
        })?;
    }
    Ok(minds)
}
