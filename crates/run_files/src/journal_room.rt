//! How many bytes the lines of a journal have.

ghost use Rattle.std.specs.Prelude.{◌≤◌, length, IfSome};
ghost use Rattle.journals.specs.Journal as text;
ghost use Rattle.run_files.specs.Parts.{AreLinesWithin, AreLogsWithin, Counts};

use crate::line_room::Room;
use histories::{Histories, Logs};
use journals::port_room;

/// The first line of a journal has so many bytes.
const HEADING: usize = 14;
/// And the last one.
const ENDING: usize = 4;

/// How many bytes the lines of a journal have; `None` where they are too many to be counted.
pub(crate) fn journal_room(histories: &Histories) -> Option<Room>
    ensures entries { IfSome result (λ room.
        AreLinesWithin text.entry room.longest histories.now.entries) }
    ensures logs { IfSome result (λ room. AreLogsWithin room.longest histories.now.logs) }
    ensures ending { IfSome result (λ room. length text.ending ≤ room.longest) }
    ensures all { IfSome result (λ room. length (text.journal histories.now) ≤ room.all) }
{
    let room = Room {
        longest: ENDING,
        all: HEADING + ENDING,
    };
    let room = room.with_lines(&histories.entries)?;
    with_logs(room, &histories.logs)
}

/// With the lines of these logs.
fn with_logs(room: Room, logs: &Logs) -> Option<Room>
    ensures { IfSome result (λ more. Counts room.longest room.all
        (λ most. AreLogsWithin most logs.now) (length (text.logs logs.now))
        more.longest more.all) }
{
    let mut more = room;
    for log in logs {
        let port = more.with(port_room(log.port))?;
        more = port.with_lines(&log.dids)?;
    }
    Some(more)
}
