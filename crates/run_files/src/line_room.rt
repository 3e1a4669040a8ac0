//! How many bytes lines have.

ghost use Rattle.std.specs.Prelude.{◌+◌, ◌≤◌, length, IfSome};
ghost use Rattle.std.specs.List.{flat_map};
ghost use Rattle.run_files.specs.Parts.{AreLinesWithin, Counts};

use crate::line::Line;
use packet_entry::Sequence;

/// How many bytes lines have at most.
#[derive(Clone, Copy)]
pub(crate) struct Room {
    /// Each of them.
    pub(crate) longest: usize,
    /// All together.
    pub(crate) all: usize,
}

impl Room {
    /// With one line more, that has so many bytes.
    #[inline(always)]
    pub(crate) fn with(self, line: usize) -> Option<Room>
        ensures longest { IfSome result (λ room. self.longest ≤ room.longest) }
        ensures line { IfSome result (λ room. line ≤ room.longest) }
        ensures all { IfSome result (λ room. self.all + line ≤ room.all) }
    {
        Some(Room {
            longest: self.longest.max(line),
            all: self.all.checked_add(line)?,
        })
    }

    /// With these lines; `None` where their bytes are too many to be counted.
    pub(crate) fn with_lines<L: Line>(self, lines: &Sequence<L>) -> Option<Room>
        ensures { IfSome result (λ more. Counts self.longest self.all
            (λ most. AreLinesWithin L.text most lines.now) (length (flat_map L.text lines.now))
            more.longest more.all) }
    {
        let mut more = self;
        for line in lines {
            more = more.with(line.room()?)?;
        }
        Some(more)
    }
}
