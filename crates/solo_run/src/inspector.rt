//! The inspectors behind the ports of a run.

ghost use Rattle.std.specs.Prelude.{◌≡◌, ◌≢◌, ◌<◌, ℕ, length};
ghost use Rattle.std.specs.Prelude.{slice_index_or, All, IfOk, OnOk, Some, false};
ghost use Rattle.script_lines.specs.Limits.{IsAsk};
ghost use Rattle.inspector_script.specs.Scripts.{next_count};
ghost use Rattle.run_parts.specs.Log.{asks_for};
ghost use Rattle.nfqa_msgs.specs.NoticeTexts.{told_exactly};
ghost use Rattle.packet_moves.specs.World.{opened};
ghost use Rattle.solo_run.specs.RunState.{mind_of, one_notice};
ghost use Rattle.solo_run.specs.declared.inspector.Inspector.{Inspector};

use inspector_script::{Asks, PortMachine, Script};
use packet_entry::{Letter, NoMemory};
use port_scripts::answered;
use script_lines::Ask;
use std::alloc::Global;

/// The inspector behind one port.
#[derive(Debug, Drop)]
pub(crate) struct Inspector {
    /// How it answers.
    pub(crate) machine: PortMachine,
    /// Whether the port is open.
    pub(crate) is_open: bool,
}

/// The inspectors of so many ports, of which each did nothing yet.
pub(crate) fn inspectors(alloc: Global, ports: u32) -> Result<Vec<Inspector>, NoMemory>
    ensures as_many { IfOk result (λ all. length all.items ≡ ports) }
    ensures each { IfOk result (λ all. (place : ℕ) (d : Inspector) → place < ports →
        slice_index_or all.items place d ≡ mind_of place (Some opened)) }
{
    let mut all = Vec::new(alloc);
    for place in 0..ports {
        all.push(Inspector {
            machine: PortMachine::new(place),
            is_open: true,
        })?;
    }
    Ok(all)
}

/// The port closed.
pub(crate) fn count_closing(all: &mut Vec<Inspector>, place: usize)
    requires { place < length all.old.items }
    ensures as_many { length all.new.items ≡ length all.old.items }
    ensures others { (k : ℕ) (d : Inspector) → k ≢ place →
        slice_index_or all.new.items k d ≡ slice_index_or all.old.items k d }
    ensures this { (d : Inspector) → slice_index_or all.new.items place d
        ≡ record (slice_index_or all.old.items place d) { is_open = false } }
{
    all[place].is_open = false;
}

/// What the inspector of a port asks for in answer to a notice, which it counts. The list is made
/// in `room`, whose items go.
pub(crate) fn asked(
    all: &mut Vec<Inspector>,
    room: Vec<Ask>,
    script: &Script,
    place: u32,
    letter: &Letter,
) -> Result<Asks, NoMemory>
    requires within { place < length all.old.items }
    requires has_port { place < length script.now.ports }
    requires its { (d : Inspector) → (slice_index_or all.old.items place d).machine.place ≡ place }
    ensures asks { IfOk result (λ asks. (d : Inspector) → asks ≡ asks_for script.now place
        (next_count (slice_index_or all.old.items place d).machine.received)
        (told_exactly letter.now.bytes)) }
    ensures fit { IfOk result (All IsAsk) }
    ensures as_many { OnOk result (length all.new.items ≡ length all.old.items) }
    ensures others { OnOk result ((k : ℕ) (d : Inspector) → k ≢ place →
        slice_index_or all.new.items k d ≡ slice_index_or all.old.items k d) }
    ensures this { OnOk result ((d : Inspector) → slice_index_or all.new.items place d
        ≡ one_notice (slice_index_or all.old.items place d)) }
{
    let machine = &mut all[place as usize].machine;
    answered(machine, room, script, letter)
}
