//! What the two texts say.

ghost use Rattle.std.specs.Prelude.{◌≡◌, IfOk};
ghost use Rattle.hook_chain.specs.Grammar.{IsRulesFile};
ghost use Rattle.inspector_script.specs.Grammar.{IsScriptFile};
ghost use Rattle.generated.specs.Texts as texts;
ghost use Rattle.generated.specs.Values as values;

use crate::laws::texts_are_files;
use crate::texts::{rules_text, script_text};
use hook_chain::{Tables, read_tables};
use inspector_script::{Script, read_script};
use packet_entry::NoMemory;
use std::alloc::Global;
use text_lines::LineFault;

/// What the rules file says: one table, whose one rule spreads packets among queues 0 to 7.
pub fn tables(alloc: Global) -> Result<Tables, NoMemory>
    ensures value { IfOk result (λ tables. tables ≡ values.tables) }
    ensures file { IfOk result (IsRulesFile texts.rules_text) }
{
    texts_are_files();
    match read_tables(alloc, rules_text()) {
        Ok(tables) => Ok(tables),
        Err(LineFault::NoMemory) => Err(NoMemory),
        Err(LineFault::Bad { line: _line }) => unreachable!(),
    }
}

/// What the script says: four ports with two queues each, which drop UDP and accept all else.
pub fn script(alloc: Global) -> Result<Script, NoMemory>
    ensures value { IfOk result (λ script. script ≡ values.script) }
    ensures file { IfOk result (IsScriptFile texts.script_text) }
{
    texts_are_files();
    match read_script(alloc, script_text()) {
        Ok(script) => Ok(script),
        Err(LineFault::NoMemory) => Err(NoMemory),
        Err(LineFault::Bad { line: _line }) => unreachable!(),
    }
}
