//! Several feeders: passes that are split off one, and joined again. None of it waits.

ghost use Rattle.std.specs.Prelude.{◌≡◌, IfOk, OnErr};
ghost use Rattle.plane.specs.Feeders.{IsSplitOff, IsJoined};
ghost use Rattle.plane.specs.Passes.{IsFeederOf};

use crate::past::{Past, new_link, put_behind};
use crate::plane::Plane;
use crate::port::{FeederPass, up_to_most};
use packet_entry::{NoMemory, Stock};
use place_rows::{
    joined_rows_have_what_both_had, rows_are_balanced_together,
    splitting_changes_nothing_of_ones_own,
};
use std::alloc::Global;

impl Plane {
    /// Splits a pass off a feeder's. It has seen the same, and has fed, sent and lost nothing; at
    /// each place the part of the lock is cut in two. `NoMemory` leaves all as it was.
    pub fn split_feeder(&self, alloc: Global, pass: &mut FeederPass) -> Result<FeederPass, NoMemory>
        requires pass { IsFeederOf self.now pass.old }
        ensures pass { IsFeederOf self.now pass.new }
        ensures made { IfOk result (IsFeederOf self.now) }
        ensures split { IfOk result (IsSplitOff pass.old pass.new) }
        ensures err { OnErr result (pass.new ≡ pass.old) }
    {
        splitting_changes_nothing_of_ones_own();
        let link = new_link(alloc)?;
        let passes = pass.passes.split(&self.shared, alloc)?;
        Ok(FeederPass {
            passes,
            fed: Stock::new(alloc),
            past: Past::Nothing,
            fed_before: 0,
            link,
        })
    }

    /// Joins a feeder's pass into another's, which has then at each place the longer list seen, the
    /// own entries of both and both parts of the lock. It fed, sent and lost what both did, its own
    /// first; the lists are linked and not copied. Takes no memory.
    pub fn join_feeder(&self, into: &mut FeederPass, from: FeederPass)
        requires into { IsFeederOf self.now into.old }
        requires from { IsFeederOf self.now from }
        ensures into { IsFeederOf self.now into.new }
        ensures joined { IsJoined into.old from into.new }
    {
        rows_are_balanced_together();
        joined_rows_have_what_both_had();
        let FeederPass {
            passes,
            fed,
            past,
            fed_before,
            link,
        } = from;
        let before = up_to_most(into.fed_before + into.fed.len() as u32 + fed_before);
        let lost = into.passes.join(&self.shared, passes);
        put_behind(&mut into.past, &mut into.fed, lost, link, past, fed);
        into.fed_before = before;
    }
}
