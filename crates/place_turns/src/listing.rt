//! Lines of the queues of all places.

ghost use Rattle.std.specs.Prelude.{◌≡◌, ◌<◌, ℕ, List, IfOk, OnOk};
ghost use Rattle.packet_entry.specs.declared.packet.Card.{Card};
ghost use Rattle.histories.specs.declared.histories.Lost.{Lost};
ghost use Rattle.packet_moves.specs.declared.setting.Setting.{Setting};
ghost use Rattle.locked_place.specs.Turns.{LooksOn};
ghost use Rattle.place_rows.specs.Rows.{TurnsOne, TurnedUpTo};
ghost use Rattle.place_rows.specs.Shares.{IsBalanced};
ghost use Rattle.place_turns.specs.Listings.{PutsLines, AreLinesUpTo};
ghost use Rattle.place_turns.specs.Passes.{AreOf};
ghost use Rattle.place_turns.specs.Places.{places_of};
ghost use Rattle.place_turns.specs.Trails.{parts_of};
ghost use Rattle.place_turns.specs.Timely.{Holder, AreTimelyOpen};

use crate::passes::Passes;
use crate::places::Places;
use packet_entry::NoMemory;
use place_history::Lines;
use place_rows::{
    own_entries_grow_by_each_turn, rows_know_the_same_without_times, rows_stay_balanced,
};
use std::alloc::Global;
use std::sync::Wait;

impl Passes {
    /// Puts the lines of a place's queues into others, in a turn there.
    fn put_lines_at<R: Wait>(
        &mut self,
        places: &Places,
        rt: &R,
        alloc: Global,
        place: usize,
        lines: &mut Lines,
    ) -> Result<(), NoMemory>
        requires there { place < places_of places.now }
        requires of { AreOf places.now self.old.locks self.old.trail.known }
        ensures of { AreOf places.now self.new.locks self.new.trail.known }
        ensures turn { TurnsOne place self.old.trail.known self.new.trail.known LooksOn }
        ensures timely { (h : Holder) → AreTimelyOpen self.old.clock self.old.timed h →
            AreTimelyOpen self.new.clock self.new.timed h }
        ensures lines { OnOk result (PutsLines (places_of places.now) place self.new.trail.known
            lines.old lines.new) }
        ensures lost { (self.new.trail.lost ≡ self.old.trail.lost)
            × (self.new.room ≡ self.old.room) }
    {
        own_entries_grow_by_each_turn();
        rows_know_the_same_without_times();
        locked_place::put_lines(
            rt,
            alloc,
            &places.locks[place],
            &mut self.row[place],
            &mut self.clock,
            lines,
        )
    }

    /// The lines of all queues, those of each place as they were in one turn there. When memory
    /// runs out some of the places were looked at.
    pub fn lines<R: Wait>(
        &mut self,
        places: &Places,
        rt: &R,
        alloc: Global,
    ) -> Result<Lines, NoMemory>
        requires of { AreOf places.now self.old.locks self.old.trail.known }
        ensures of { AreOf places.now self.new.locks self.new.trail.known }
        ensures looked { (n : ℕ) × TurnedUpTo n self.old.trail.known self.new.trail.known LooksOn }
        ensures all { OnOk result (TurnedUpTo (places_of places.now) self.old.trail.known
            self.new.trail.known LooksOn) }
        ensures lines { IfOk result (AreLinesUpTo (places_of places.now) (places_of places.now)
            self.new.trail.known) }
        ensures lost { self.new.trail.lost ≡ self.old.trail.lost }
        ensures parts { parts_of self.new.trail.known ≡ parts_of self.old.trail.known }
        ensures kept { (s : Setting) (entered : List Card) (lost : List Lost) →
            IsBalanced s entered self.old.trail.known lost →
            IsBalanced s entered self.new.trail.known lost }
        ensures timely { (h : Holder) → AreTimelyOpen self.old.clock self.old.timed h →
            AreTimelyOpen self.new.clock self.new.timed h }
    {
        let mut lines = Lines::new(alloc);
        for place in 0..places.locks.len() {
            rows_stay_balanced();
            self.put_lines_at(places, rt, alloc, place, &mut lines)?;
        }
        Ok(lines)
    }
}
