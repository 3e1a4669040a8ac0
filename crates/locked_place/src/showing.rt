//! What a place shows of itself.

ghost use Rattle.std.specs.Prelude.{◌≡◌, ◌<◌, ◌^◌, List, length};
ghost use mathlib.Core.List.{IsPrefix};
ghost use Rattle.histories.specs.declared.entry.Entry.{Entry};
ghost use Rattle.histories.specs.History.{AreLegal};
ghost use Rattle.locked_place.specs.Views.{IsSettled};
ghost use Rattle.locked_place.specs.Shown.{IsShown};

use glance::{Board, Totals, Writer};
use place_history::Place;

/// The number of events is told below this, and that of waiting packets below the next: both stand
/// in one word of 64 bits.
const EVENTS_SPAN: u64 = 1 << 40;

const WAITING_SPAN: u32 = 1 << 24;

/// Shows a place's totals on the board, where they fit one word.
pub(crate) fn publish(place: &Place, writer: &mut Writer, board: &Board)
    requires board { writer.old.board ≡ board.now }
    requires settled { IsSettled place.now }
    requires shown { (es : List Entry) × IsPrefix es place.now.entries
        × IsShown es writer.old.published }
    ensures shown { IsShown place.now.entries writer.new.published }
    ensures writer { (writer.new.board ≡ writer.old.board)
        × (writer.new.place ≡ writer.old.place) }
{
    let events = place.entries().len() as u64;
    let waiting = place.waiting();
    if events < EVENTS_SPAN && waiting < WAITING_SPAN {
        board.publish(writer, Totals { events, waiting });
    }
}

/// The histories at a place are legal.
pub(crate) fn legal_at(place: &Place)
    ensures { AreLegal place.now.entries }
{
    let _entries = place.entries();
}

/// How many entries there are fits 64 bits.
pub(crate) fn short_at(place: &Place)
    ensures { length place.now.entries < 2 ^ 64 }
{
    let _count = place.entries().len();
}
