//! Passes that tell others what they have seen. None of it takes memory or waits.

ghost use Rattle.std.specs.Prelude.{◌≡◌, ℕ, List, slice_get, Some};
ghost use Rattle.packet_entry.specs.declared.packet.Card.{Card};
ghost use Rattle.histories.specs.declared.histories.Lost.{Lost};
ghost use Rattle.histories.specs.History.{AreLegal};
ghost use Rattle.packet_moves.specs.declared.setting.Setting.{Setting};
ghost use Rattle.place_rows.specs.Rows.{Known};
ghost use Rattle.place_rows.specs.Shares.{IsBalanced};
ghost use Rattle.place_rows.specs.Meeting.{ToldUpTo};
ghost use Rattle.place_turns.specs.Passes.{AreOf};
ghost use Rattle.place_turns.specs.Places.{places_of};
ghost use Rattle.place_turns.specs.Timely.{Holder, AreTimely, AreTimelyOpen};

use crate::passes::Passes;
use crate::places::Places;
use place_rows::{rows_know_the_same_without_times, tell_row, telling_changes_nothing_of_ones_own};

impl Passes {
    /// Lets others see all that these passes have seen.
    pub fn tell(&mut self, places: &Places, others: &mut Passes)
        requires of { AreOf places.now self.old.locks self.old.trail.known }
        requires others_of { AreOf places.now others.old.locks others.old.trail.known }
        ensures of { AreOf places.now self.new.locks self.new.trail.known }
        ensures others_of { AreOf places.now others.new.locks others.new.trail.known }
        ensures told { ToldUpTo (places_of places.now) self.old.trail.known
            others.old.trail.known self.new.trail.known others.new.trail.known }
        ensures locks { (self.new.locks ≡ self.old.locks)
            × (others.new.locks ≡ others.old.locks) }
        ensures lost { (self.new.trail.lost ≡ self.old.trail.lost)
            × (others.new.trail.lost ≡ others.old.trail.lost) }
        ensures balanced { (s : Setting) (entered : List Card) (lost : List Lost) →
            IsBalanced s entered self.old.trail.known lost →
            IsBalanced s entered self.new.trail.known lost }
        ensures others_balanced { ((k : ℕ) (v : Known) →
            slice_get self.old.trail.known k ≡ Some v → AreLegal v.seen) →
            (s : Setting) (entered : List Card) (lost : List Lost) →
            IsBalanced s entered others.old.trail.known lost →
            IsBalanced s entered others.new.trail.known lost }
        ensures timely { (h : Holder) → AreTimely self.old.clock self.old.timed h →
            AreTimely self.new.clock self.new.timed h }
        ensures timely_open { (h : Holder) → AreTimelyOpen self.old.clock self.old.timed h →
            AreTimelyOpen self.new.clock self.new.timed h }
        ensures others_timely { (h g : Holder) → AreTimely self.old.clock self.old.timed h →
            AreTimely others.old.clock others.old.timed g →
            AreTimely others.new.clock others.new.timed g }
        ensures others_open { (h g : Holder) → AreTimely self.old.clock self.old.timed h →
            AreTimelyOpen others.old.clock others.old.timed g →
            AreTimelyOpen others.new.clock others.new.timed g }
    {
        telling_changes_nothing_of_ones_own();
        rows_know_the_same_without_times();
        tell_row(&places.locks, &mut self.row, &mut others.row);
        others.clock = others.clock.max(self.clock);
    }
}
