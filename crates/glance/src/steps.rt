//! The words of a board, one a place, and each kind of step on them.
ghost use Rattle.glance.specs.Rule.{Shows, first_view, maker_view, writer_view, reader_view};
ghost use Rattle.std.specs.Prelude.{[]};
ghost use Rattle.glance.specs.Rule.{told_view, Publishes, Reads, Compares};

use crate::view::View;
use atomic_table::{Join, Play, Seat, Split, Table, TableRule};
use std::alloc::Global;

/// Each word shows what was published last for its place. The key is the number of places.
pub(crate) struct Shown;

impl TableRule<u8, View, u64> for Shown {
    ghost holds = { Shows };

    ghost first = { λ places. first_view };
}

pub(crate) type Words = Table<u8, View, u64, Shown, Global>;

pub(crate) type Sitting = Seat<u8, View>;

/// The first seat makes the next place's Writer.
pub(crate) struct NextWriter;

impl Split<View> for NextWriter {
    ghost left = { maker_view };

    ghost right = { λ v. writer_view v.place };
}

/// The Writer of a place publishes.
pub(crate) struct Publish;

impl Play<u8, View> for Publish {
    ghost then = { Publishes };
}

/// A place is read.
pub(crate) struct Read;

impl Play<u8, View> for Read {
    ghost then = { Reads };
}

/// A note of what a seat has read is cut off.
pub(crate) struct Note;

impl Split<View> for Note {
    ghost left = { λ v. v };

    ghost right = { λ v. reader_view v.readings };
}

/// A Writer's seat takes such a note.
pub(crate) struct TakeNote;

impl Join<View> for TakeNote {
    ghost both = { told_view };

    ghost spent = { reader_view [] };
}

/// A Writer's seat compares what was read of its place with what it published.
pub(crate) struct Compare;

impl Play<u8, View> for Compare {
    ghost then = { Compares };
}
