//! The listing of all queues.

ghost use Rattle.std.specs.Prelude.{◌≡◌, ◌++◌, ℕ, IfOk, OnOk, OnErr, flat_map};
ghost use Rattle.histories.specs.States.{every_number};
ghost use Rattle.place_history.specs.Lines.{text_at};
ghost use Rattle.locked_place.specs.Turns.{LooksOn};
ghost use Rattle.place_rows.specs.Rows.{TurnedUpTo};
ghost use Rattle.place_turns.specs.Trails.{parts_of};
ghost use Rattle.plane.specs.Listings.{IsListed};
ghost use Rattle.plane.specs.Passes.{IsFeederOf};
ghost use Rattle.plane.specs.Planes.{places_of};

use crate::plane::Plane;
use crate::port::FeederPass;
use packet_entry::NoMemory;
use place_history::Lines;
use std::alloc::Global;
use std::sync::Wait;

/// How many queue numbers there are.
const QUEUES: u32 = 1 << 16;

/// The text of all lines, by ascending queue number.
fn text_of_all(alloc: Global, lines: &Lines) -> Result<Vec<u8>, NoMemory>
    ensures { IfOk result (λ text. text.items ≡ flat_map (text_at lines.now) every_number) }
{
    let mut text = Vec::new(alloc);
    for number in 0..QUEUES {
        if let Some(line) = lines.get(&(number as u16)) {
            text.extend_from_slice(line.as_slice())?;
        }
    }
    Ok(text)
}

/// Appends all lines, by ascending queue number. `NoMemory` leaves the text as it was.
fn append_all(alloc: Global, lines: &Lines, out: &mut Vec<u8>) -> Result<(), NoMemory>
    ensures appended { OnOk result (out.new.items
        ≡ out.old.items ++ flat_map (text_at lines.now) every_number) }
    ensures err { OnErr result (out.new.items ≡ out.old.items) }
{
    let text = text_of_all(alloc, lines)?;
    Ok(out.extend_from_slice(&text)?)
}

impl Plane {
    /// Appends a line for each bound queue of all places, by ascending number. The lines of a place
    /// are of one moment, in a turn there. `NoMemory` leaves `out` as it was. Either way the pass
    /// may have seen more.
    pub fn listing<R: Wait>(
        &self,
        rt: &R,
        alloc: Global,
        pass: &mut FeederPass,
        out: &mut Vec<u8>,
    ) -> Result<(), NoMemory>
        requires pass { IsFeederOf self.now pass.old }
        ensures pass { IsFeederOf self.now pass.new }
        ensures listed { OnOk result (IsListed (places_of self.now) pass.old.trail.known
            pass.new.trail.known out.old.items out.new.items) }
        ensures looked { (n : ℕ) × TurnedUpTo n pass.old.trail.known pass.new.trail.known LooksOn }
        ensures same { (pass.new.fed ≡ pass.old.fed)
            × (pass.new.trail.lost ≡ pass.old.trail.lost) }
        ensures parts { parts_of pass.new.trail.known ≡ parts_of pass.old.trail.known }
        ensures err { OnErr result (out.new.items ≡ out.old.items) }
    {
        let lines = pass.passes.lines(&self.shared, rt, alloc)?;
        append_all(alloc, &lines, out)
    }
}
