//! When a script asks for a closing.

ghost use Rattle.std.specs.Prelude.{ℕ, List, Option};
ghost use Rattle.histories.specs.declared.log.Did.{Did};
ghost use Rattle.nfqa_msgs.specs.NoticeWriting.{Told};
ghost use Rattle.inspector_script.specs.Scripts.{ScriptValue, closing, opening};
ghost use Rattle.run_parts.specs.Log.{answer_to};
ghost use Rattle.port_scripts.specs.Words.{AreWords, ClosesLast};

/// Only the end of a port asks for its closing, and last of all.
pub fn ports_close_at_the_end()
    ensures opening { (script : ScriptValue) (place : ℕ) → AreWords (opening script place) }
    ensures answer { (script : ScriptValue) (place : ℕ) (dids : List Did) (told : Option Told) →
        AreWords (answer_to script place dids told) }
    ensures closing { (script : ScriptValue) (place : ℕ) → ClosesLast (closing script place) }
{}
