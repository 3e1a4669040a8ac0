//! A script, and what the inspector behind one of its ports asks for.

ghost use Rattle.std.specs.Prelude.{◌<◌, ◌-◌, ◌^◌, length};

use inspector_script::{Asks, LineFault, PortMachine, read_script};
use nfqa_msgs::Notice;
use packet_entry::NoMemory;
use std::alloc::Global;

/// What the inspector of a script's first port asks for in answer to its first notice.
pub fn first_answer(alloc: Global, script: &[u8], notice: &Notice) -> Result<Asks, LineFault>
    requires { length script.now < 2 ^ 32 - 1 }
{
    let script = read_script(alloc, script)?;
    let mut first = PortMachine::new(0);
    match first.answer(alloc, &script, notice) {
        Ok(asks) => Ok(asks),
        Err(NoMemory) => Err(LineFault::NoMemory),
    }
}
