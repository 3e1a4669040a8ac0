//! What a run is made with.

ghost use Rattle.std.specs.Prelude.{◌≤◌, length, All};
ghost use Rattle.hook_chain.specs.Numbers.{most_feeders};
ghost use Rattle.packet_entry.specs.Numbers.{longest_packet};
ghost use Rattle.live_work.specs.Numbers.{most_frames, one_feeder};

use live_work::{Pool, Stage};
use pcap_io::Capture;

/// What a run is made with: its stage, the workers behind each inspector, and the feeders, who
/// share out the frames of a capture.
#[derive(Drop)]
pub(crate) struct Run<'a, R, G, J> {
    pub(crate) stage: Stage<'a, R, G>,
    pub(crate) pool: Pool<'a, J>,
    pub(crate) capture: &'a Capture,
    pub(crate) feeders: u32,
    pub ghost counted: { (one_feeder ≤ feeders) × (feeders ≤ most_feeders) },
    pub ghost short: { length capture.now.frames ≤ most_frames },
    pub ghost packets: { All (λ f. length f.bytes ≤ longest_packet) capture.now.frames },
}
