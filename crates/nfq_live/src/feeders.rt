//! Several feeders: passes that are split off the first one's, and joined into it again.

ghost use Rattle.std.specs.Prelude.{◌≡◌, ◌≤◌, ◌<◌, ◌+◌, ◌++◌, ℕ, [], length, slice_index_or, All};
ghost use Rattle.std.specs.Prelude.{IsTrue, OnOk, false};
ghost use Rattle.std.specs.Thread.{IsSend, IsSync};
ghost use Rattle.place_rows.specs.Lists.{Every};
ghost use Rattle.plane.specs.Passes.{IsFeederOf};
ghost use Rattle.live_work.specs.contracts.feeding.Feeding.{the_row};
ghost use Rattle.live_work.specs.declared.feeding.Feeding as view;
ghost use Rattle.live_work.specs.Feeding.{HasFed, shares_in};
ghost use Rattle.live_work.specs.Numbers.{one_feeder};
ghost use Rattle.nfq_live.specs.Feeders.{AllJoin, HaveItsParts, IsFresh, IsHelper};
ghost use Rattle.nfq_live.specs.Feeders.{fed_by, share_of};

use crate::setup::Run;
use feeder_set::Share;
use inspector_pool::JobGate;
use live_passes::rows_are_split_and_joined;
use live_work::{Activity, Feeding};
use packet_entry::NoMemory;
use plane::{FeederPass, Gate, Plane};
use std::alloc::Global;
use std::sync::Wait;
use std::thread::{self, Threads};
use turn_lock::{a_part_is_known_by_its_ways, parts_are_put_together_in_any_order};

/// Passes for the feeders beside the first are split off its own, so that there are so many
/// feeders. There is room for all. `NoMemory` leaves those that were split.
pub(crate) fn split_all(
    alloc: Global,
    plane: &Plane,
    pass: &mut FeederPass,
    feeders: u32,
    helpers: &mut Vec<Feeding>,
) -> Result<(), NoMemory>
    requires some { one_feeder ≤ feeders }
    requires pass { IsFeederOf plane.now pass.old }
    requires none { helpers.old.items ≡ [] }
    requires room { feeders ≤ helpers.old.cap }
    ensures pass { IsFeederOf plane.now pass.new }
    ensures helpers { Every (IsHelper plane.now (shares_in pass.old)) helpers.new.items }
    ensures parts { HaveItsParts pass.new helpers.new.items pass.old }
    ensures fed { pass.new.fed ≡ pass.old.fed }
    ensures seen { (k : ℕ) → shares_in pass.new k ≡ shares_in pass.old k }
    ensures count { OnOk result (length helpers.new.items + 1 ≡ feeders) }
{
    rows_are_split_and_joined();
    a_part_is_known_by_its_ways();
    parts_are_put_together_in_any_order();
    for _number in 1..feeders {
        let made = plane.split_feeder(alloc, pass)?;
        helpers.push_reserved(Feeding {
            pass: made,
            gauge: None,
            failed: false,
        });
    }
    Ok(())
}

/// The passes of the feeders beside the first are joined into its own, in their order. Whether none
/// of them failed.
pub(crate) fn join_all(plane: &Plane, pass: &mut FeederPass, helpers: Vec<Feeding>) -> bool
    requires pass { IsFeederOf plane.now pass.old }
    requires helpers { Every (λ (h : view.Feeding). IsFeederOf plane.now h.pass) helpers.items }
    ensures pass { IsFeederOf plane.now pass.new }
    ensures parts { HaveItsParts pass.old helpers.items pass.new }
    ensures fed { pass.new.fed ≡ pass.old.fed ++ fed_by helpers.items }
    ensures joined { AllJoin (shares_in pass.old) helpers.items (shares_in pass.new) }
    ensures went_well { IsTrue result → All (λ h. h.failed ≡ false) helpers.items }
{
    rows_are_split_and_joined();
    let mut well = true;
    for helper in helpers {
        let Feeding {
            pass: other,
            gauge: _gauge,
            failed,
        } = helper;
        plane.join_feeder(pass, other);
        well = well & !failed;
    }
    well
}

/// That of each type that may go from thread to thread.
fn it_may_change_threads<T: Send>()
    ensures { IsSend T.row }
{}

/// Whoever feeds may go from thread to thread. Found here, with nothing else in sight: where
/// threads begin, the search for it would be long.
pub(crate) fn feeders_may_change_threads()
    ensures { IsSend the_row }
{
    it_may_change_threads::<Feeding>();
}

impl<R: Threads + Wait + Sync, G: Gate, J: JobGate> Run<'_, R, G, J> {
    /// The feeders beside the first feed their shares, each in a thread of its own where there are
    /// enough. The one at index 0 has the number 1.
    pub(crate) fn feed_all(&self, activity: &Activity, helpers: &mut [Feeding])
        requires few { length helpers.old < self.now.feeders }
        requires helpers { All (λ h. IsFresh self.now.stage.plane.now h) helpers.old }
        ensures len { length helpers.new ≡ length helpers.old }
        ensures each { (i : ℕ) (d : _) → i < length helpers.old →
            HasFed self.now.stage.script.now self.now.capture.now self.now.stage.plane.now
            (share_of self.now.feeders (i + 1))
            (slice_index_or helpers.old i d) (slice_index_or helpers.new i d) }
    {
        feeders_may_change_threads();
        let run = self;
        let threads = helpers.len();
        if threads > 0 {
            thread::for_each_mut(
                self.stage.rt,
                helpers,
                threads,
                &|at: usize, one: &mut Feeding|
                    requires { IsSync G.row × IsSync J.row × IsSync R.row
                        × (at + 1 < run.now.feeders) × IsFresh run.now.stage.plane.now one.now }
                    ensures { HasFed run.entry.now.stage.script.now run.entry.now.capture.now
                        run.entry.now.stage.plane.now (share_of run.entry.now.feeders (at + 1))
                        one.entry.now one.exit.now }
                {
                    let share = Share {
                        number: at as u32 + 1,
                        feeders: run.feeders,
                    };
                    one.work(&run.stage, run.capture, share, activity)
                },
            );
        }
    }
}
