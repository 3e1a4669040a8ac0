//! The feeders: they feed the frames of a capture, and let devices go down between them.

ghost use Rattle.std.specs.Prelude.{◌≡◌, ◌≤◌, ◌<◌, [], length, All, IfSome, OnOk};
ghost use Rattle.hook_chain.specs.Numbers.{most_feeders};
ghost use Rattle.packet_entry.specs.Numbers.{longest_packet};
ghost use Rattle.run_parts.specs.Feeder.{downs_after, falling_time};
ghost use Rattle.glance.specs.Views.{PassView};
ghost use Rattle.plane.specs.Passes.{IsFeederOf};
ghost use Rattle.plane.specs.Planes.{board_of, places_of};
ghost use Rattle.port_scripts.specs.Downs.{AreDownsOf};
ghost use Rattle.live_work.specs.Feeding.{FedOn, HasFed, IsFeedingOf, shares_in};
ghost use Rattle.live_work.specs.Sharing.{SharePasses, share_cards};
ghost use Rattle.live_work.specs.Numbers.{most_frames};
ghost use Rattle.live_passes.specs.Numbered.{StaysFeeder};

use crate::activity::Activity;
use feeder_set::{Feeder, Share, Stage, each_frame_is_one_shares, fall_after};
use glance::GlancePass;
use live_passes::feeders_feed_their_passes;
use live_runs::the_feeder_keeps_its_time;
use packet_entry::NoMemory;
use pcap_io::Capture;
use plane::{FeederPass, Gate, Plane};
use port_scripts::{DownsByFrame, downs_by_frame};
use shared_feeding::{a_feeder_keeps_its_share, lines_of_a_share_add_up};
use std::sync::Wait;

/// Who feeds a share of the frames.
#[derive(Drop)]
pub struct Feeding {
    pub pass: FeederPass,
    /// The pass that reads the board: of several feeders the first alone has it.
    pub gauge: Option<GlancePass>,
    /// Whether memory ran out.
    pub failed: bool,
}

/// How often at most the feeder reads the board before a frame.
const MAX_GLANCES: u32 = 64;

/// So many waiting packets, at all places, let the feeder hold back.
pub(crate) const CROWD: u64 = 512;

/// How many packets wait at all places, as the board shows them.
fn waiting(plane: &Plane, gauge: &mut GlancePass) -> u64
    requires looks { gauge.old.board ≡ board_of plane.now }
    ensures looks { gauge.new.board ≡ gauge.old.board }
{
    let mut waiting: u64 = 0;
    for place in 0..plane.places() {
        waiting = waiting.saturating_add(u64::from(plane.glance(gauge, place).waiting));
    }
    waiting
}

/// Whoever reads the board, and has fed so many frames, pauses while many packets wait, but not for
/// long: the inspectors come to work. It goes on once these have found nothing to answer.
fn hold_back<R: Wait>(
    rt: &R,
    plane: &Plane,
    activity: &Activity,
    fed: u64,
    gauge: &mut Option<GlancePass>,
)
    requires looks { IfSome gauge.old (λ (g : PassView). g.board ≡ board_of plane.now) }
    ensures looks { IfSome gauge.new (λ (g : PassView). g.board ≡ board_of plane.now) }
{
    let Some(gauge) = gauge else {
        return;
    };
    for glance in 0..MAX_GLANCES {
        let many = waiting(plane, gauge);
        if glance == 0 {
            activity.see_waiting(fed, many);
        }
        if many < CROWD || !activity.wait_for_inspectors(rt) {
            return;
        }
    }
}

/// The devices go down that do so after the frame with this number, or before the first frame for
/// 0. `NoMemory` leaves a part of them down.
pub fn take_down_after<R: Wait, G: Gate>(
    stage: &Stage<'_, R, G>,
    pass: &mut FeederPass,
    downs: &DownsByFrame,
    number: u32,
) -> Result<(), NoMemory>
    requires pass { IsFeederOf stage.now.plane.now pass.old }
    requires downs { AreDownsOf stage.now.script.now downs.now }
    ensures stays { StaysFeeder stage.now.plane.now pass.old pass.new }
    ensures none { pass.new.fed ≡ pass.old.fed }
    ensures down { OnOk result (FedOn (places_of stage.now.plane.now) (falling_time number)
        (falling_time number) (downs_after stage.now.script.now number) (shares_in pass.old)
        (shares_in pass.new)) }
{
    feeders_feed_their_passes();
    the_feeder_keeps_its_time();
    fall_after(stage, pass, downs, number)
}

/// The frames of a share pass, one after the other, each once not too many packets wait: its packet
/// is fed, where it is IP, and the devices go down that do so after it.
fn feed_share<R: Wait, G: Gate>(
    stage: &Stage<'_, R, G>,
    capture: &Capture,
    share: Share,
    activity: &Activity,
    feeding: &mut Feeding,
) -> Result<(), NoMemory>
    requires feeders { (1 ≤ share.feeders) × (share.feeders ≤ most_feeders) }
    requires number { share.number < share.feeders }
    requires pass { IsFeederOf stage.now.plane.now feeding.old.pass }
    requires looks { IsFeedingOf stage.now.plane.now feeding.old }
    requires frames { length capture.now.frames ≤ most_frames }
    requires bytes { All (λ f. length f.bytes ≤ longest_packet) capture.now.frames }
    requires none { feeding.old.pass.fed ≡ [] }
    ensures stays { StaysFeeder stage.now.plane.now feeding.old.pass feeding.new.pass }
    ensures looks { IsFeedingOf stage.now.plane.now feeding.new }
    ensures fed { OnOk result (feeding.new.pass.fed ≡ share_cards share capture.now) }
    ensures on { OnOk result (SharePasses stage.now.script.now (places_of stage.now.plane.now)
        share (length capture.now.frames) (shares_in feeding.old.pass)
        (shares_in feeding.new.pass)) }
{
    a_feeder_keeps_its_share();
    lines_of_a_share_add_up();
    each_frame_is_one_shares();
    feeders_feed_their_passes();
    the_feeder_keeps_its_time();
    let downs = downs_by_frame(stage.alloc, stage.script)?;
    let mut feeder = Feeder::new(share);
    // Each step goes on by a frame at least.
    for step in 0..capture.frames.len() {
        activity.keep_pace(stage.rt, share.number, step as u64);
        hold_back(
            stage.rt,
            stage.plane,
            activity,
            step as u64,
            &mut feeding.gauge,
        );
        let pass = &mut feeding.pass;
        if !feeder.step_by(stage, pass, &downs, capture)? {
            return Ok(());
        }
    }
    Ok(())
}

impl Feeding {
    /// Feeds the frames of a share of a capture, of at most 200,000 frames of at most 262,144 bytes
    /// each, as a worker. Where memory runs out it stops, and has failed.
    pub fn work<R: Wait, G: Gate>(
        &mut self,
        stage: &Stage<'_, R, G>,
        capture: &Capture,
        share: Share,
        activity: &Activity,
    )
        requires feeders { (1 ≤ share.feeders) × (share.feeders ≤ most_feeders) }
        requires number { share.number < share.feeders }
        requires pass { IsFeederOf stage.now.plane.now self.old.pass }
        requires looks { IsFeedingOf stage.now.plane.now self.old }
        requires frames { length capture.now.frames ≤ most_frames }
        requires bytes { All (λ f. length f.bytes ≤ longest_packet) capture.now.frames }
        requires none { self.old.pass.fed ≡ [] }
        ensures fed { HasFed stage.now.script.now capture.now stage.now.plane.now share self.old
            self.new }
    {
        activity.begin(share.number);
        let outcome = feed_share(stage, capture, share, activity, self);
        activity.end(share.number);
        self.failed = outcome.is_err();
    }
}
