//! Laws: of the definitions, and of what was read against what was published.
ghost use Rattle.std.specs.Prelude.{◌≡◌, ◌∷◌, ◌<◌, ◌^◌};
ghost use Rattle.glance.specs.declared.totals.Totals.{Totals};
ghost use Rattle.glance.specs.Words.{FitOneWord, word_of, totals_of};
ghost use Rattle.glance.specs.Views.{opening, ReadOff, readings_of, AreBeginnings, shown_of};

use crate::board::Board;
use crate::pass::GlancePass;
use crate::steps::{Compare, Note, TakeNote};
use crate::writer::Writer;

/// The word for totals that fit is one of 64 bits, and stands for these totals.
pub fn totals_stand_in_one_word()
    ensures { (t : Totals) → FitOneWord t →
        (word_of t < 2 ^ 64) × (totals_of (word_of t) ≡ t) }
{}

/// What a pass knows to have been published for a place by its readings of it are beginnings of
/// what the place's Writer published, none shorter than the one before it. So whatever it read is
/// the opening zeros or what the Writer published: the readings are read off the list of all
/// these, none before the one that was read before it. Nothing is changed and no memory taken; it
/// makes three loads.
pub fn readings_were_published(board: &Board, pass: &mut GlancePass, writer: &mut Writer)
    requires { (pass.old.board ≡ board.now) × (writer.old.board ≡ board.now) }
    ensures unchanged { (pass.new ≡ pass.old) × (writer.new ≡ writer.old) }
    ensures published { ReadOff (opening ∷ writer.old.published)
        (readings_of writer.old.place pass.old.readings) }
    ensures shown { AreBeginnings (shown_of writer.old.place pass.old.readings)
        writer.old.published }
{
    let note = board.table.shared.split_seat::<Note>(&mut pass.seat);
    board
        .table
        .shared
        .join_seat::<TakeNote>(&mut writer.seat, note);
    let place = usize::from(writer.place);
    board.table.shared.load::<Compare>(&mut writer.seat, place);
}
