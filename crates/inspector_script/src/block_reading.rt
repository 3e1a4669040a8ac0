//! A port's block, as it is read line after line.

ghost use Rattle.std.specs.Prelude.{◌≡◌, ◌≤◌, ◌++◌, ◌∷◌, [], Some, OnOk};
ghost use Rattle.script_lines.specs.Limits.{IsBlockLine};
ghost use Rattle.inspector_script.specs.Numbers.{most_lines};
ghost use Rattle.inspector_script.specs.Scripts.{IsBlock, line_count};
ghost use Rattle.text_lines.specs.Refusals.{Moves};
ghost use Rattle.inspector_script.specs.ScriptFile.{block_after, has_room, may_end};
ghost use Rattle.inspector_script.specs.ScriptFile.{without_lines};

use crate::block::Block;
use packet_entry::Sequence;
use script_lines::BlockLine;
use std::alloc::Global;
use text_lines::Stop;

/// The most lines of a block, without its `port` line, of this reader.
const MAX_LINES: usize = 1_000;

impl Block {
    /// A block without lines.
    pub(crate) fn new(alloc: Global) -> Block
        ensures { result ≡ without_lines }
    {
        Block {
            opening: Sequence::new(alloc),
            lines: Sequence::new(alloc),
            closing: Sequence::new(alloc),
            closes: false,
        }
    }

    /// Goes on after this line. Refused where the block has no room for it, and where it is an
    /// `end` line that stands behind `end close`.
    #[tactic(auto, unfolding(crate::specs::ScriptFile::block_after))]
    pub(crate) fn take(&mut self, line: BlockLine) -> Result<(), Stop>
        requires sound { IsBlock self.old }
        requires line { IsBlockLine line }
        ensures after { Moves result (block_after self.old line) self.new }
        ensures sound { OnOk result (IsBlock self.new) }
    {
        match line {
            BlockLine::Open { words } if self.has_room() => push(&mut self.opening, words),
            BlockLine::On { on } if self.has_room() => push(&mut self.lines, on),
            BlockLine::End { words } if self.may_end() => push(&mut self.closing, words),
            BlockLine::Close if self.may_end() => {
                self.closes = true;
                Ok(())
            }
            _ => Err(Stop::Refused),
        }
    }

    /// Whether one more `end` line may stand in it.
    fn may_end(&self) -> bool
        requires { line_count self.now ≤ most_lines }
        ensures { result ≡ may_end self.now }
    {
        self.has_room() && !self.closes
    }

    /// Whether one more line may stand in it.
    fn has_room(&self) -> bool
        requires { line_count self.now ≤ most_lines }
        ensures { result ≡ has_room self.now }
    {
        self.opening.len() + self.lines.len() + self.closing.len() + usize::from(self.closes)
            < MAX_LINES
    }
}

/// Adds an item at the end.
fn push<T: Drop>(items: &mut Sequence<T>, item: T) -> Result<(), Stop>
    ensures { Moves result (Some (items.old ++ item ∷ [])) items.new }
{
    match items.push(item) {
        Ok(()) => Ok(()),
        Err(_item) => Err(Stop::NoMemory),
    }
}
