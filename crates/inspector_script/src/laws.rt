//! Laws of the answers and of scripts' files, each the contract of a function that does nothing.
//! With the contract of `read_script`, which speaks of the same definitions, the latter are laws of
//! the reading.

ghost use Rattle.std.specs.Prelude.{◌≡◌, ◌⊎◌, ℕ, List, [], ◌∷◌, ◌++◌, All, true, false};
ghost use Rattle.nfqa_msgs.specs.declared.notice.Notice.{Notice};
ghost use Rattle.script_lines.specs.declared.answering.OnLine.{OnLine};
ghost use Rattle.script_lines.specs.Answering.{asks_of, holds_all};
ghost use Rattle.inspector_script.specs.Blocks.{answer_by};
ghost use Rattle.inspector_script.specs.Grammar.{IsFirstRefused, IsScriptFile};
ghost use Rattle.inspector_script.specs.Scripts.{ScriptValue};

use script_lines::lines_say_what_is_written;

/// A line whose conditions all hold answers, where those of no line before it all hold, whatever
/// stands after it.
pub fn the_first_line_that_holds_answers()
    ensures { (received : ℕ) (n : Notice) (before : List OnLine) (line : OnLine)
        (after : List OnLine) → All (λ l. holds_all received n l ≡ false) before →
        holds_all received n line ≡ true →
        answer_by received n (before ++ line ∷ after) ≡ asks_of n line }
{}

/// Where the conditions of no line all hold, nothing is asked for.
pub fn nobody_answers_where_no_line_holds()
    ensures { (received : ℕ) (n : Notice) (lines : List OnLine) →
        All (λ l. holds_all received n l ≡ false) lines → answer_by received n lines ≡ [] }
{}

/// A text is the file of one script at most.
pub fn one_value()
    ensures { (text : List ℕ) (a b : ScriptValue) → IsScriptFile text a → IsScriptFile text b →
        a ≡ b }
{
    lines_say_what_is_written();
}

/// A text has one first refused line at most.
pub fn one_refused_line()
    ensures { (text : List ℕ) (a b : ℕ) → IsFirstRefused text a → IsFirstRefused text b → a ≡ b }
{
    lines_say_what_is_written();
}

/// A text is a script's file or has a first refused line, and never both.
pub fn value_or_refused_line()
    ensures one { (text : List ℕ) →
        ((s : ScriptValue) × IsScriptFile text s)
        ⊎ ((line : ℕ) × IsFirstRefused text line) }
    ensures never_both { (text : List ℕ) (s : ScriptValue) (line : ℕ) →
        IsScriptFile text s → IsFirstRefused text line → ⊥ }
{
    lines_say_what_is_written();
}
