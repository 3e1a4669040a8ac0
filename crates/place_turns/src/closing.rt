//! Ports that close, and devices that go down.

ghost use Rattle.std.specs.Prelude.{◌≡◌, ◌<◌, List, Some, IfOk, OnErr};
ghost use Rattle.packet_entry.specs.declared.packet.Card.{Card};
ghost use Rattle.histories.specs.declared.histories.Lost.{Lost};
ghost use Rattle.packet_moves.specs.declared.setting.Setting.{Setting};
ghost use Rattle.locked_place.specs.Turns.{GoesDownIn, LooksOn};
ghost use Rattle.place_rows.specs.Rows.{TurnsOne, TurnedUpTo};
ghost use Rattle.place_rows.specs.Shares.{IsBalanced};
ghost use Rattle.place_turns.specs.Places.{places_of};
ghost use Rattle.place_turns.specs.Timely.{Holder, AreTimely, AreTimelyOpen};

use crate::passes::Passes;
use crate::places::Places;
use packet_entry::NoMemory;
use place_rows::{
    own_entries_grow_by_each_turn, rows_know_the_same_without_times, rows_stay_balanced,
};
use std::sync::Wait;

impl Passes {
    ghost use Rattle.place_turns.specs.Passes.{AreOf, Shuts};
    ghost use Rattle.place_turns.specs.Trails.{parts_of};

    /// A port closes at one place. Takes no memory.
    fn close_port_at<R: Wait>(&mut self, places: &Places, rt: &R, port: u32, place: usize)
        requires there { place < places_of places.now }
        requires of { AreOf places.now self.old.locks self.old.trail.known }
        ensures of { AreOf places.now self.new.locks self.new.trail.known }
        ensures turn { TurnsOne place self.old.trail.known self.new.trail.known (Shuts port) }
        ensures timely { (h : Holder) → h.port ≡ Some port →
            AreTimely self.old.clock self.old.timed h →
            AreTimely self.new.clock self.new.timed h }
        ensures lost { (self.new.trail.lost ≡ self.old.trail.lost)
            × (self.new.room ≡ self.old.room) }
    {
        own_entries_grow_by_each_turn();
        rows_know_the_same_without_times();
        locked_place::close_port(
            rt,
            &places.locks[place],
            &mut self.row[place],
            &mut self.clock,
            &places.outlets,
            port,
        );
    }

    /// A port closes at each place, one after the other. Takes no memory.
    pub fn close_port<R: Wait>(&mut self, places: &Places, rt: &R, port: u32)
        requires of { AreOf places.now self.old.locks self.old.trail.known }
        ensures of { AreOf places.now self.new.locks self.new.trail.known }
        ensures closed { TurnedUpTo (places_of places.now) self.old.trail.known
            self.new.trail.known (Shuts port) }
        ensures lost { self.new.trail.lost ≡ self.old.trail.lost }
        ensures parts { parts_of self.new.trail.known ≡ parts_of self.old.trail.known }
        ensures kept { (s : Setting) (entered : List Card) (lost : List Lost) →
            IsBalanced s entered self.old.trail.known lost →
            IsBalanced s entered self.new.trail.known lost }
        ensures timely { (h : Holder) → h.port ≡ Some port →
            AreTimelyOpen self.old.clock self.old.timed h →
            AreTimely self.new.clock self.new.timed h }
    {
        for place in 0..places.locks.len() {
            rows_stay_balanced();
            self.close_port_at(places, rt, port, place);
        }
    }

    /// A device goes down at one place: how many packets were destroyed. When memory runs out
    /// nothing has happened.
    pub fn device_down<R: Wait>(
        &mut self,
        places: &Places,
        rt: &R,
        device: u32,
        place: usize,
    ) -> Result<u32, NoMemory>
        requires there { place < places_of places.now }
        requires of { AreOf places.now self.old.locks self.old.trail.known }
        ensures of { AreOf places.now self.new.locks self.new.trail.known }
        ensures turn { IfOk result (λ count. TurnsOne place self.old.trail.known
            self.new.trail.known (λ v w. GoesDownIn device v w count)) }
        ensures err { OnErr result (TurnsOne place self.old.trail.known self.new.trail.known
            LooksOn) }
        ensures timely { (h : Holder) → AreTimelyOpen self.old.clock self.old.timed h →
            AreTimelyOpen self.new.clock self.new.timed h }
        ensures lost { (self.new.trail.lost ≡ self.old.trail.lost)
            × (self.new.room ≡ self.old.room) }
    {
        own_entries_grow_by_each_turn();
        rows_know_the_same_without_times();
        locked_place::device_down(
            rt,
            &places.locks[place],
            &mut self.row[place],
            &mut self.clock,
            &places.outlets,
            device,
        )
    }
}
