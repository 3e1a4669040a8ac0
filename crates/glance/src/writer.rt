//! The Writers of a board's places.
use crate::steps::Sitting;
use std::marker::Model;

/// The right to publish for one place of one board, of which each place has one. Contracts see the
/// place, and what was published for it, in this order.
#[derive(Drop)]
pub struct Writer {
    pub(crate) seat: Sitting,
    pub(crate) place: u8,
}

impl Model for Writer {
    ghost use Rattle.glance.specs.Views.{WriterView};

    ghost Value = { WriterView };

    ghost use Rattle.glance.specs.Invariants.{writer_of, IsWriter};

    ghost view = { λ w. writer_of w.seat };

    ghost invariant = { λ w. IsWriter w.seat w.place };
}

/// The Writers of a new board. Contracts see a list with a place's Writer at its index, or `None`
/// once it was taken.
#[derive(Drop)]
pub struct Writers {
    pub(crate) writers: Vec<Option<Writer>>,
}

impl Model for Writers {
    ghost use Rattle.std.specs.Prelude.{List, Option};
    ghost use Rattle.glance.specs.Views.{WriterView};

    ghost Value = { List (Option WriterView) };

    ghost view = { λ w. w.writers.items };
}

impl Writers {
    ghost use Rattle.std.specs.Prelude.{◌≡◌, ◌≢◌, ℕ, slice_get, slice_set, Some, None};
    ghost use Rattle.std.specs.Prelude.{IsSomeAnd, IsSome};

    /// Gives the Writer of a place, once: the place has none after it.
    pub fn take(&mut self, place: u8) -> Writer
        requires there { IsSomeAnd (slice_get self.old place) (λ w. IsSome w) }
        ensures writer { slice_get self.old place ≡ Some (Some result) }
        ensures taken { self.new ≡ slice_set self.old place None }
        ensures others { (k : ℕ) → k ≢ place → slice_get self.new k ≡ slice_get self.old k }
    {
        let Some(writer) = self.writers[usize::from(place)].take() else {
            unreachable!()
        };
        writer
    }
}
