//! Laws of logs.

ghost use Rattle.std.specs.Prelude.{ℕ, List};
ghost use Rattle.histories.specs.declared.histories.Histories.{Histories};
ghost use Rattle.inspector_script.specs.Scripts.{IsScript, ScriptValue};
ghost use Rattle.run_parts.specs.Log.{Note};
ghost use Rattle.port_audit.specs.Makers.{HaveLogs};
ghost use Rattle.port_audit.specs.Noticing.{AreOnlyOnes, ArriveOnce};
ghost use Rattle.port_audit.specs.Pleading.{AreToldByWords};
ghost use Rattle.port_audit.specs.Told.{AreTold};

use run_parts::datagrams_are_short;

/// What is told of each port, where its log is what the script says, is told as the parts need
/// it: it is the log, each message is the one that its logged words spell, and where no two
/// arrivals are of one packet at one visit, a notice is known by its packet's visit.
pub fn logs_tell_what_ports_did()
    ensures told { (script : ScriptValue) (h : Histories) (notes : ℕ → List Note) →
        HaveLogs script h notes → AreTold script h notes }
    ensures words { (script : ScriptValue) (h : Histories) (notes : ℕ → List Note) →
        IsScript script → HaveLogs script h notes → AreToldByWords script notes }
    ensures notices { (script : ScriptValue) (h : Histories) (notes : ℕ → List Note) →
        ArriveOnce h.entries → HaveLogs script h notes → AreOnlyOnes script h notes }
{
    datagrams_are_short();
}
