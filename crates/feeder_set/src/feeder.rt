//! A feeder.

ghost use Rattle.std.specs.Prelude.{◌≡◌, ◌≤◌, ◌<◌, length, All, IfOk, OnErr};
ghost use Rattle.hook_chain.specs.Numbers.{most_feeders};
ghost use Rattle.packet_entry.specs.Numbers.{longest_packet, most_frames};
ghost use Rattle.plane.specs.Numbers.{most_fed};
ghost use Rattle.plane.specs.Passes.{IsFeederOf};
ghost use Rattle.place_turns.specs.Trails.{parts_of};
ghost use Rattle.port_scripts.specs.Downs.{AreDownsOf};
ghost use Rattle.feeder_set.specs.Shares.{first_of};
ghost use Rattle.feeder_set.specs.Steps.{Steps};

use crate::falling::fall_after;
use crate::feeding::feed_frame;
use crate::share::Share;
use crate::stage::Stage;
use inspector_script::Script;
use packet_entry::NoMemory;
use pcap_io::Capture;
use plane::{FeederPass, Gate, Plane};
use port_scripts::{DownsByFrame, downs_by_frame};
use std::alloc::Global;
use std::marker::Model;
use std::sync::Wait;

/// Feeds the frames of its share of a capture, one with each step.
#[derive(Drop)]
pub struct Feeder {
    share: Share,
    next: u32,
}

impl Model for Feeder {
    ghost use Rattle.feeder_set.specs.Shares.{FeederState, IsNextOf};

    ghost Value = { FeederState };

    ghost view = { λ f. record { share = f.share; next = f.next } };

    ghost invariant = { λ f. IsNextOf f.share f.next };
}

impl Feeder {
    ghost use Rattle.feeder_set.specs.Shares.{IsNextOf};

    /// A feeder that has fed nothing yet.
    pub fn new(share: Share) -> Feeder
        requires feeders { (1 ≤ share.feeders) × (share.feeders ≤ most_feeders) }
        requires number { share.number < share.feeders }
        ensures first { result ≡ first_of share }
        ensures next { IsNextOf result.share result.next }
    {
        Feeder {
            share,
            next: share.number + 1,
        }
    }

    /// Feeds the next frame of the share, where it is IP, and lets the devices go down that do so
    /// after it, each at every place; `false` exactly where the share has no frame left. The
    /// capture has at most 200,000 frames of at most 262,144 bytes each. After `NoMemory` the frame
    /// may have been fed, and some of the devices may have gone down at some places; the feeder
    /// isn't to be stepped again. Each call goes over all `down` lines of the script; whoever steps
    /// often takes [`Feeder::step_by`].
    pub fn step<R: Wait, G: Gate>(
        &mut self,
        rt: &R,
        alloc: Global,
        plane: &Plane,
        pass: &mut FeederPass,
        script: &Script,
        capture: &Capture,
        gate: &G,
    ) -> Result<bool, NoMemory>
        requires pass { IsFeederOf plane.now pass.old }
        requires few { length pass.old.fed < most_fed }
        requires frames { length capture.now.frames ≤ most_frames }
        requires bytes { All (λ f. length f.bytes ≤ longest_packet) capture.now.frames }
        ensures pass { IsFeederOf plane.now pass.new }
        ensures parts { parts_of pass.new.trail.known ≡ parts_of pass.old.trail.known }
        ensures stepped { IfOk result (Steps plane.now
            script.now capture.now self.old self.new pass.old pass.new) }
        ensures next { IsNextOf self.new.share self.new.next }
        ensures err { OnErr result (self.new ≡ self.old) }
    {
        // What a feeder keeps is known of one that was looked at, also where memory runs out.
        let _share = &self.share;
        let downs = downs_by_frame(alloc, script)?;
        let stage = Stage {
            rt,
            alloc,
            plane,
            gate,
            script,
        };
        self.step_by(&stage, pass, &downs, capture)
    }

    /// [`Feeder::step`], where the script's `down` lines are found by the frame's number.
    pub fn step_by<R: Wait, G: Gate>(
        &mut self,
        stage: &Stage<'_, R, G>,
        pass: &mut FeederPass,
        downs: &DownsByFrame,
        capture: &Capture,
    ) -> Result<bool, NoMemory>
        requires pass { IsFeederOf stage.now.plane.now pass.old }
        requires downs { AreDownsOf stage.now.script.now downs.now }
        requires few { length pass.old.fed < most_fed }
        requires frames { length capture.now.frames ≤ most_frames }
        requires bytes { All (λ f. length f.bytes ≤ longest_packet) capture.now.frames }
        ensures pass { IsFeederOf stage.now.plane.now pass.new }
        ensures parts { parts_of pass.new.trail.known ≡ parts_of pass.old.trail.known }
        ensures stepped { IfOk result (Steps stage.now.plane.now
            stage.now.script.now capture.now self.old self.new pass.old pass.new) }
        ensures next { IsNextOf self.new.share self.new.next }
        ensures err { OnErr result (self.new ≡ self.old) }
    {
        let number = self.next;
        let Some(frame) = capture.frames.get(number as usize - 1) else {
            return Ok(false);
        };
        feed_frame(stage, pass, capture, number, frame)?;
        fall_after(stage, pass, downs, number)?;
        self.next = number + self.share.feeders;
        Ok(true)
    }
}
