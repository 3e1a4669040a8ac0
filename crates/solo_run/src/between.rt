//! What happens between two messages of a port.

ghost use Rattle.std.specs.Prelude.{◌≡◌, OnOk};
ghost use Rattle.inspector_script.specs.Scripts.{ScriptValue};
ghost use Rattle.packet_moves.specs.declared.setting.Setting.{Setting};
ghost use Rattle.packet_moves.specs.World.{World};

use crate::run::Run;
use inspector_script::Script;
use packet_entry::NoMemory;
use std::alloc::Global;

/// What happens after each message that a port sends.
pub(crate) trait Between {
    ghost use Rattle.solo_run.specs.RunState.{Goes, IsWith, Keeps, setting_of, world_of};

    /// What it makes of a world.
    ghost then: { Self → Setting → ScriptValue → World → World };

    /// Lets it happen.
    fn go(&self, run: &mut Run, alloc: Global, script: &Script) -> Result<(), NoMemory>
        requires { Goes script.now run.old }
        ensures going { OnOk result (Goes script.now run.new) }
        ensures made_with { OnOk result (IsWith run.old run.new) }
        ensures world { OnOk result (world_of run.new
            ≡ then self.now (setting_of run.old) script.now (world_of run.old)) }
        ensures keeps { OnOk result (Keeps (world_of run.old) (world_of run.new)) };
}

/// Nothing happens.
#[derive(Debug, Drop)]
pub(crate) struct Nothing;

impl Between for Nothing {
    ghost then = { λ nothing s script w. w };

    fn go(&self, _run: &mut Run, _alloc: Global, _script: &Script) -> Result<(), NoMemory> {
        Ok(())
    }
}
