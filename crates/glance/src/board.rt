//! A board: one word for each place, which shows the totals that were published last.
use crate::pass::GlancePass;
use crate::steps::{NextWriter, Publish, Read, Sitting, Words};
use crate::totals::Totals;
use crate::writer::{Writer, Writers};
use packet_entry::NoMemory;
use std::alloc::Global;
use std::marker::Model;

/// Totals of places, which one Writer a place publishes. Writers and readers share it.
#[derive(Drop)]
pub struct Board {
    pub(crate) table: Words,
    places: u8,
}

impl Model for Board {
    ghost use Rattle.std.specs.Prelude.{◌≡◌};
    ghost use Rattle.glance.specs.Views.{BoardView};

    ghost Value = { BoardView };

    ghost use Rattle.glance.specs.Invariants.{board_of, IsBoard};

    ghost view = { λ b. board_of b.table.shared.table_id };

    ghost invariant = { λ b. (b.places ≡ b.table.shared.table_id.words)
        × IsBoard b.table.shared.table_id b.table.shared.key };
}

/// What the words show before anything is published.
const OPENING: [u64; 64] = [0; 64];

impl Board {
    ghost use Rattle.std.specs.Prelude.{◌≡◌, ◌≢◌, ◌<◌, ◌≤◌, ℕ, IfOk, vec_capacity, [], ◌∷◌, ◌++◌};
    ghost use Rattle.glance.specs.Numbers.{least_places, most_places};
    ghost use Rattle.glance.specs.Words.{FitOneWord};
    ghost use Rattle.glance.specs.Rule.{first_view};
    ghost use Rattle.glance.specs.Views.{AllWriters, latest, published_by, opening_pass};
    ghost use Rattle.glance.specs.Views.{ReadsLatest, NeverDescend, readings_of};

    /// A board of so many places, all of which show zeros, each place's Writer, and a pass that has
    /// read nothing.
    pub fn new(alloc: Global, places: u8) -> Result<(Board, Writers, GlancePass), NoMemory>
        requires { (least_places ≤ places) × (places ≤ most_places) }
        ensures places { IfOk result (λ made. made.0.places ≡ places) }
        ensures writers { IfOk result (λ made. AllWriters made.0 made.1) }
        ensures pass { IfOk result (λ made. made.2 ≡ opening_pass made.0) }
    {
        let mut writers = Vec::with_capacity(alloc, usize::from(places))?;
        let words = &OPENING[..usize::from(places)];
        let (table, mut seat) = Words::of_words(alloc, words, &u64::from(places))?;
        let board = Board { table, places };
        board.make_writers(&mut seat, &mut writers);
        Ok((board, Writers { writers }, GlancePass { seat }))
    }

    /// Shows new totals for the Writer's place, from one step on. It takes no memory.
    pub fn publish(&self, writer: &mut Writer, totals: Totals)
        requires board { writer.old.board ≡ self.now }
        requires later { (latest writer.old.published).events ≤ totals.events }
        requires fit { FitOneWord totals }
        ensures published { writer.new ≡ published_by writer.old totals }
        ensures latest { latest writer.new.published ≡ totals }
    {
        let place = usize::from(writer.place);
        self.table
            .shared
            .store::<Publish>(&mut writer.seat, place, totals.word());
    }

    /// What a place shows: the last totals that its Writer had published by then, or the opening
    /// zeros. The pass knows what had been published by each of its readings of the place; these
    /// lists only grow, and are beginnings of what the Writer published (see
    /// `readings_were_published`). One load; it never waits, and takes no memory.
    pub fn glance(&self, pass: &mut GlancePass, place: u8) -> Totals
        requires board { pass.old.board ≡ self.now }
        requires place { place < self.now.places }
        ensures read { ReadsLatest pass.old place result pass.new }
        ensures added { readings_of place pass.new.readings
            ≡ readings_of place pass.old.readings ++ result ∷ [] }
        ensures others { (k : ℕ) → k ≢ place
            → readings_of k pass.new.readings ≡ readings_of k pass.old.readings }
        ensures rise { NeverDescend (readings_of place pass.new.readings) }
    {
        let word = self
            .table
            .shared
            .load::<Read>(&mut pass.seat, usize::from(place));
        Totals::of_word(word)
    }

    /// Makes each place's Writer.
    fn make_writers(&self, seat: &mut Sitting, writers: &mut Vec<Option<Writer>>)
        requires seat { (seat.old.table_id ≡ self.now.table) × (seat.old.me ≡ (first_view, [])) }
        requires first { seat.old.id ≡ 0 }
        requires room { (writers.old.items ≡ []) × (self.now.places ≤ vec_capacity writers.old) }
        ensures seat { (seat.new.table_id ≡ self.now.table) × (seat.new.me.0.readings ≡ []) }
        ensures writers { AllWriters self.now writers.new.items }
    {
        for place in 0..self.places {
            let made = self.table.shared.split_seat::<NextWriter>(seat);
            writers.push_reserved(Some(Writer { seat: made, place }));
        }
    }
}
