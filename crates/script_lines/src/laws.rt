//! A law of a script's lines, the contract of a function that does nothing.

ghost use Rattle.std.specs.Prelude.{◌≡◌, ◌↔◌, ℕ, List, Some};
ghost use Rattle.script_lines.specs.declared.line.Line.{Line};
ghost use Rattle.script_lines.specs.Grammar.{Says};
ghost use Rattle.script_lines.specs.Line.{says};

use text_lines::{bytes_are_spelled, numbers_are_spelled};

/// What is read of a line is what the grammar has for it. With the contract of
/// [`read_line`](crate::read_line), which speaks of the same function, it is a law of the reading.
pub fn lines_say_what_is_written()
    ensures { (text : List ℕ) (line : Line) → (says text ≡ Some line) ↔ Says text line }
{
    numbers_are_spelled();
    bytes_are_spelled();
}
