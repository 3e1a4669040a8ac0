//! The feeders and the inspectors as threads beside each other.

ghost use Rattle.std.specs.Prelude.{◌≡◌, ◌≤◌, ◌<◌, ◌+◌, ◌++◌, ℕ, [], length, slice_index_or, All};
ghost use Rattle.std.specs.Prelude.{IfOk, IsTrue, OnOk, false};
ghost use Rattle.std.specs.List.{AllZip};
ghost use Rattle.std.specs.Thread.{IsSync};
ghost use Rattle.run_parts.specs.Entering.{cards};
ghost use Rattle.plane.specs.Passes.{IsFeederOf, IsPortOf};
ghost use Rattle.plane.specs.Planes.{order_of, places_of};
ghost use Rattle.live_work.specs.Feeding.{HasFed, IsFeedingOf};
ghost use Rattle.live_passes.specs.Numbered.{StaysPort};
ghost use Rattle.live_work.specs.Looking.{LooksOn};
ghost use Rattle.live_work.specs.Minds.{IsMind};
ghost use Rattle.nfq_live.specs.Crews.{HaveMinds, IsCrewOf};
ghost use Rattle.nfq_live.specs.Endings.{IsAtMeeting};
ghost use Rattle.nfq_live.specs.Feeders.{AreTheSame, HaveFedAll, IsFresh, share_of};
ghost use Rattle.nfq_live.specs.Openings.{AreReady};
ghost use Rattle.nfq_live.specs.Sizes.{size_of};
ghost use Rattle.nfq_live.specs.Workers.{HasRoom, HaveWorked, IsInspected, IsSeated};
ghost use Rattle.nfq_live.specs.Workers.{minds_at, passes_at};

use crate::crew::Crew;
use crate::feeders::{feeders_may_change_threads, join_all, split_all};
use crate::setup::Run;
use feeder_set::Share;
use inspector_pool::JobGate;
use live_runs::{
    a_place_stays_fed_by_all, a_stage_ends_where_all_meet, ports_open_one_after_the_other,
    what_a_port_does_adds_up,
};
use live_work::{Activity, Feeding, Mind, Pause, Pool, Stage, inspect, inspect_by_pool};
use packet_entry::NoMemory;
use plane::{Gate, PortPass, parts_stay_whole};
use shared_feeding::{joined_feeders_append_what_both_do, joined_feeders_fed_the_place};
use std::alloc::Global;
use std::mem::replace;
use std::sync::Wait;
use std::thread::{self, Threads, join_mut};

/// An inspector at its port.
#[derive(Drop)]
pub(crate) struct Inspector {
    pub(crate) pass: PortPass,
    pub(crate) mind: Mind,
    /// Whether memory ran out.
    pub(crate) failed: bool,
}

/// An inspector answers its port's notices until none has come for long, with the workers behind
/// it: one is the inspector alone, and more are a pool.
fn inspect_with<R: Threads + Wait + Sync, G: Gate, J: JobGate>(
    stage: &Stage<'_, R, G>,
    pool: &Pool<'_, J>,
    pause: &mut Pause<'_>,
    pass: &mut PortPass,
    mind: &mut Mind,
) -> Result<(), NoMemory>
    requires pass { IsPortOf stage.now.plane.now pass.old }
    requires mind { IsMind stage.now.script.now pass.old mind.old }
    ensures stays { StaysPort stage.now.plane.now pass.old pass.new }
    ensures mind { OnOk result (IsMind stage.now.script.now pass.new mind.new) }
    ensures on { OnOk result (LooksOn pool.now.workers stage.now.script.now
        (places_of stage.now.plane.now) pass.old pass.new) }
{
    if pool.workers > 1 {
        inspect_by_pool(stage, pool, pause, pass, mind)
    } else {
        inspect(stage, pause, pass, mind)
    }
}

impl Inspector {
    /// Answers the port's notices until none has come for long.
    fn work<R: Threads + Wait + Sync, G: Gate, J: JobGate>(
        &mut self,
        run: &Run<'_, R, G, J>,
        activity: &Activity,
    )
        requires { IsSeated run.now.stage.script.now run.now.stage.plane.now self.old }
        ensures { IsInspected run.now.pool.workers run.now.stage.script.now
            run.now.stage.plane.now self.old self.new }
    {
        let pass = &mut self.pass;
        let mind = &mut self.mind;
        let mut pause = Pause::new(activity);
        let outcome = inspect_with(&run.stage, &run.pool, &mut pause, pass, mind);
        pause.end();
        self.failed = outcome.is_err();
    }
}

impl<R: Threads + Wait + Sync, G: Gate, J: JobGate> Run<'_, R, G, J> {
    /// All inspectors work, each in a thread of its own where there are enough.
    fn inspect_all(&self, activity: &Activity, inspectors: &mut [Inspector])
        requires { All (λ i. IsSeated self.now.stage.script.now self.now.stage.plane.now i)
            inspectors.old }
        ensures len { length inspectors.new ≡ length inspectors.old }
        ensures each { (i : ℕ) (d : _) → i < length inspectors.old →
            IsInspected self.now.pool.workers self.now.stage.script.now self.now.stage.plane.now
            (slice_index_or inspectors.old i d) (slice_index_or inspectors.new i d) }
    {
        let run = self;
        let threads = inspectors.len();
        if threads > 0 {
            thread::for_each_mut(
                self.stage.rt,
                inspectors,
                threads,
                &|_at: usize, one: &mut Inspector|
                    requires { IsSync G.row × IsSync J.row × IsSync R.row
                        × IsSeated run.now.stage.script.now run.now.stage.plane.now one.now }
                    ensures { IsInspected run.entry.now.pool.workers run.entry.now.stage.script.now
                        run.entry.now.stage.plane.now one.entry.now one.exit.now }
                { one.work(run, activity) },
            );
        }
    }

    /// The first feeder feeds its share, and the inspectors work beside it.
    fn feed_first(&self, activity: &Activity, feeding: &mut Feeding, inspectors: &mut [Inspector])
        requires pass { IsFeederOf self.now.stage.plane.now feeding.old.pass }
        requires looks { IsFeedingOf self.now.stage.plane.now feeding.old }
        requires none { feeding.old.pass.fed ≡ [] }
        requires seated { All (λ i. IsSeated self.now.stage.script.now self.now.stage.plane.now i)
            inspectors.old }
        ensures fed { HasFed self.now.stage.script.now self.now.capture.now
            self.now.stage.plane.now (share_of self.now.feeders 0) feeding.old feeding.new }
        ensures len { length inspectors.new ≡ length inspectors.old }
        ensures each { (i : ℕ) (d : _) → i < length inspectors.old →
            IsInspected self.now.pool.workers self.now.stage.script.now self.now.stage.plane.now
            (slice_index_or inspectors.old i d) (slice_index_or inspectors.new i d) }
    {
        feeders_may_change_threads();
        let run = self;
        join_mut(
            self.stage.rt,
            &mut ||
                requires { IsSync G.row × IsSync J.row × IsSync R.row
                    × IsFeederOf run.now.stage.plane.now feeding.now.pass
                    × IsFeedingOf run.now.stage.plane.now feeding.now
                    × (feeding.now.pass.fed ≡ []) }
            {
                let share = Share {
                    number: 0,
                    feeders: run.feeders,
                };
                feeding.work(&run.stage, run.capture, share, activity)
            },
            &mut ||
                requires { IsSync G.row × IsSync J.row × IsSync R.row
                    × All (λ i. IsSeated run.now.stage.script.now run.now.stage.plane.now i)
                    inspectors.now }
            { run.inspect_all(activity, inspectors) },
        );
    }

    /// All feeders work, and the inspectors beside them. Takes no memory, and where no thread can
    /// be made they work one after the other.
    fn work_beside(
        &self,
        feeding: &mut Feeding,
        helpers: &mut [Feeding],
        inspectors: &mut [Inspector],
    )
        requires few { length helpers.old < self.now.feeders }
        requires pass { IsFeederOf self.now.stage.plane.now feeding.old.pass }
        requires looks { IsFeedingOf self.now.stage.plane.now feeding.old }
        requires none { feeding.old.pass.fed ≡ [] }
        requires helpers { All (λ h. IsFresh self.now.stage.plane.now h) helpers.old }
        requires seated { All (λ i. IsSeated self.now.stage.script.now self.now.stage.plane.now i)
            inspectors.old }
        ensures fed { HasFed self.now.stage.script.now self.now.capture.now
            self.now.stage.plane.now (share_of self.now.feeders 0) feeding.old feeding.new }
        ensures count { length helpers.new ≡ length helpers.old }
        ensures all { (i : ℕ) (d : _) → i < length helpers.old →
            HasFed self.now.stage.script.now self.now.capture.now self.now.stage.plane.now
            (share_of self.now.feeders (i + 1))
            (slice_index_or helpers.old i d) (slice_index_or helpers.new i d) }
        ensures len { length inspectors.new ≡ length inspectors.old }
        ensures each { (i : ℕ) (d : _) → i < length inspectors.old →
            IsInspected self.now.pool.workers self.now.stage.script.now self.now.stage.plane.now
            (slice_index_or inspectors.old i d) (slice_index_or inspectors.new i d) }
    {
        feeders_may_change_threads();
        let run = self;
        let activity = Activity::new(self.feeders, self.stage.script.mail());
        let activity = &activity;
        join_mut(
            self.stage.rt,
            &mut ||
                requires { IsSync G.row × IsSync J.row × IsSync R.row
                    × (length helpers.now < run.now.feeders)
                    × All (λ h. IsFresh run.now.stage.plane.now h) helpers.now }
            { run.feed_all(activity, helpers) },
            &mut ||
                requires { IsSync G.row × IsSync J.row × IsSync R.row
                    × IsFeederOf run.now.stage.plane.now feeding.now.pass
                    × IsFeedingOf run.now.stage.plane.now feeding.now
                    × (feeding.now.pass.fed ≡ [])
                    × All (λ i. IsSeated run.now.stage.script.now run.now.stage.plane.now i)
                    inspectors.now }
            { run.feed_first(activity, feeding, inspectors) },
        );
    }

    /// The feeders' passes are split, all workers work, and the feeders' passes are joined in the
    /// order of their numbers. Where memory runs out before the first of them begins none works,
    /// and the feeding has failed. There is room for all feeders.
    fn split_and_work(
        &self,
        feeding: &mut Feeding,
        mut helpers: Vec<Feeding>,
        seats: &mut Vec<Inspector>,
    )
        requires room { self.now.feeders ≤ helpers.cap }
        requires no_helpers { helpers.items ≡ [] }
        requires pass { IsFeederOf self.now.stage.plane.now feeding.old.pass }
        requires looks { IsFeedingOf self.now.stage.plane.now feeding.old }
        requires none { feeding.old.pass.fed ≡ [] }
        requires seated { All (λ i. IsSeated self.now.stage.script.now self.now.stage.plane.now i)
            seats.old.items }
        ensures fed { HaveFedAll self.now.feeders self.now.stage.script.now self.now.capture.now
            self.now.stage.plane.now feeding.old feeding.new }
        ensures each { AllZip (IsInspected self.now.pool.workers self.now.stage.script.now
            self.now.stage.plane.now) seats.old.items seats.new.items }
    {
        what_a_port_does_adds_up();
        joined_feeders_fed_the_place();
        joined_feeders_append_what_both_do();
        let Stage { alloc, plane, .. } = &self.stage;
        let split = split_all(*alloc, plane, &mut feeding.pass, self.feeders, &mut helpers);
        if split.is_err() {
            let _well = join_all(plane, &mut feeding.pass, helpers);
            feeding.failed = true;
            return;
        }
        let others = helpers.as_mut_slice();
        let inspectors = seats.as_mut_slice();
        self.work_beside(feeding, others, inspectors);
        let well = join_all(plane, &mut feeding.pass, helpers);
        feeding.failed = feeding.failed | !well;
    }
}

/// Room for all passes while they work: for the feeders beside the first, a seat for each
/// inspector, and the lists to which these go back.
#[derive(Drop)]
pub(crate) struct Room {
    pub(crate) helpers: Vec<Feeding>,
    pub(crate) seats: Vec<Inspector>,
    pub(crate) ports: Vec<PortPass>,
    pub(crate) minds: Vec<Mind>,
}

/// Room for so many passes of ports, and so many feeders.
fn room_for(alloc: Global, count: usize, feeders: u32) -> Result<Room, NoMemory>
    ensures { IfOk result (HasRoom count feeders) }
{
    let helpers = Vec::with_capacity(alloc, feeders as usize)?;
    let seats = Vec::with_capacity(alloc, count)?;
    let ports = Vec::with_capacity(alloc, count)?;
    let minds = Vec::with_capacity(alloc, count)?;
    Ok(Room {
        helpers,
        seats,
        ports,
        minds,
    })
}

/// Each pass takes its seat, with what is kept of its port. There is room for all.
fn seat_all(ports: Vec<PortPass>, minds: Vec<Mind>, seats: &mut Vec<Inspector>)
    requires both { length minds.items ≡ length ports.items }
    requires room { length seats.old.items + length ports.items ≤ seats.old.cap }
    ensures passes { passes_at seats.new.items ≡ passes_at seats.old.items ++ ports.items }
    ensures minds { minds_at seats.new.items ≡ minds_at seats.old.items ++ minds.items }
{
    let mut kept = minds.into_iter();
    for pass in ports {
        let Some(mind) = kept.next() else {
            unreachable!()
        };
        seats.push_reserved(Inspector {
            pass,
            mind,
            failed: false,
        });
    }
}

/// Each pass leaves its seat, with what is kept of its port. There is room for all. Whether none
/// of them failed.
fn unseat_all(seats: Vec<Inspector>, ports: &mut Vec<PortPass>, minds: &mut Vec<Mind>) -> bool
    requires room { length ports.old.items + length seats.items ≤ ports.old.cap }
    requires more_room { length minds.old.items + length seats.items ≤ minds.old.cap }
    ensures passes { ports.new.items ≡ ports.old.items ++ passes_at seats.items }
    ensures minds { minds.new.items ≡ minds.old.items ++ minds_at seats.items }
    ensures went_well { IsTrue result → All (λ i. i.failed ≡ false) seats.items }
{
    let mut well = true;
    for seat in seats {
        let Inspector { pass, mind, failed } = seat;
        ports.push_reserved(pass);
        minds.push_reserved(mind);
        well = well & !failed;
    }
    well
}

impl Crew {
    /// The feeders and the inspectors work beside each other, and then all passes meet. All memory
    /// that this takes but the workers' own is taken before the first of them begins.
    pub(crate) fn work<R: Threads + Wait + Sync, G: Gate, J: JobGate>(
        &mut self,
        run: &Run<'_, R, G, J>,
    ) -> Result<(), NoMemory>
        requires crew { IsCrewOf run.now.stage.plane.now self.old }
        requires order { order_of run.now.stage.plane.now ≡ run.now.stage.script.now.ports }
        requires minds { HaveMinds run.now.stage.script.now self.old }
        requires ready { AreReady run.now.stage.script.now (places_of run.now.stage.plane.now)
            self.old }
        ensures crew { IsCrewOf run.now.stage.plane.now self.new }
        ensures minds { OnOk result (HaveMinds run.now.stage.script.now self.new) }
        ensures met { OnOk result (IsAtMeeting run.now.stage.script.now
            (places_of run.now.stage.plane.now)
            (size_of run.now.pool.workers run.now.feeders run.now.capture.now) 0 self.new) }
        ensures fed { OnOk result
            (AreTheSame self.new.feeding.pass.fed (cards run.now.capture.now)) }
    {
        a_place_stays_fed_by_all();
        what_a_port_does_adds_up();
        ports_open_one_after_the_other();
        a_stage_ends_where_all_meet();
        parts_stay_whole();
        let alloc = run.stage.alloc;
        let room = room_for(alloc, self.ports.len(), run.feeders)?;
        let Room {
            helpers,
            mut seats,
            ports,
            minds,
        } = room;
        self.take_seats(alloc, &mut seats);
        run.split_and_work(&mut self.feeding, helpers, &mut seats);
        if !self.leave_seats(seats, ports, minds) {
            return Err(NoMemory);
        }
        self.meet(alloc, run.stage.plane)
    }

    /// Each open port's pass takes its seat, with what is kept of the port. There is room for all.
    fn take_seats(&mut self, alloc: Global, seats: &mut Vec<Inspector>)
        requires both { length self.old.minds.items ≡ length self.old.ports.items }
        requires none { seats.old.items ≡ [] }
        requires room { length self.old.ports.items ≤ seats.old.cap }
        ensures passes { passes_at seats.new.items ≡ self.old.ports.items }
        ensures minds { minds_at seats.new.items ≡ self.old.minds.items }
        ensures feeding { self.new.feeding ≡ self.old.feeding }
        ensures closed { self.new.closed ≡ self.old.closed }
    {
        let ports = replace(&mut self.ports, Vec::new(alloc));
        let minds = replace(&mut self.minds, Vec::new(alloc));
        seat_all(ports, minds, seats);
    }

    /// Each pass goes from its seat back to the open ports, into lists with room for all. Whether
    /// nobody has failed.
    fn leave_seats(
        &mut self,
        seats: Vec<Inspector>,
        mut ports: Vec<PortPass>,
        mut minds: Vec<Mind>,
    ) -> bool
        requires no_ports { ports.items ≡ [] }
        requires no_minds { minds.items ≡ [] }
        requires room { length seats.items ≤ ports.cap }
        requires more_room { length seats.items ≤ minds.cap }
        ensures passes { passes_at seats.items ≡ self.new.ports.items }
        ensures minds { minds_at seats.items ≡ self.new.minds.items }
        ensures feeding { self.new.feeding ≡ self.old.feeding }
        ensures closed { self.new.closed ≡ self.old.closed }
        ensures went_well { IsTrue result → All (λ i. i.failed ≡ false) seats.items }
        ensures fed_well { IsTrue result → self.new.feeding.failed ≡ false }
    {
        let well = unseat_all(seats, &mut ports, &mut minds);
        self.ports = ports;
        self.minds = minds;
        well & !self.feeding.failed
    }
}
