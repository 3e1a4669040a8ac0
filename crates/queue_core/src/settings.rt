//! How a queue is set up.

ghost use Rattle.std.specs.Prelude.{◌≡◌, ◌≤◌, nat_le};
ghost use Rattle.nfqa_msgs.specs.Numbers.{longest_range};
ghost use Rattle.queue_core.specs.Range as range;
ghost use Rattle.queue_core.specs.State.{let_open, new_settings, settings_after};
ghost use Rattle.queue_core.specs.WithOffer.{IsMode};

use bitflags::Flags;
use nfqa_msgs::{MAX_RANGE, META, NONE, PACKET, Params, QueueFlags};

/// How many packets may wait in a queue that was never told otherwise. (`NFQNL_QMAX_DEFAULT`)
pub const DEFAULT_MAXIMUM: u32 = 1024;

/// How a queue is set up.
#[derive(Clone, Copy, Debug, PartialEq, Eq)]
pub struct Settings {
    /// How much of a packet a notice tells: the copy mode.
    pub mode: u8,
    /// How many bytes of a packet a notice tells, under the mode `PACKET`: the copy range.
    pub range: u32,
    /// How many packets may wait.
    pub maximum: u32,
    /// The bits of [`QueueFlags`] that are set.
    pub flags: u32,
}

impl Settings {
    /// Those of a new queue: mode `NONE`, range 65,531, maximum 1024, no flag.
    pub fn new() -> Settings
        ensures { result ≡ new_settings }
    {
        Settings {
            mode: NONE,
            range: MAX_RANGE,
            maximum: DEFAULT_MAXIMUM,
            flags: 0,
        }
    }

    /// Applies what a config request asks for: params, maximum and flags, in this order. An unknown
    /// mode changes neither mode nor range; flags count only beside a mask, and a mask only beside
    /// flags.
    pub fn configure(
        &mut self,
        params: Option<Params>,
        maximum: Option<u32>,
        flags: Option<u32>,
        mask: Option<u32>,
    )
        ensures settings { self.new ≡ settings_after params maximum flags mask self.old }
        ensures mode { IsMode self.old.mode → IsMode self.new.mode }
        ensures range { self.old.range ≤ longest_range → self.new.range ≤ longest_range }
    {
        if let Some(params) = params {
            match params.mode {
                NONE | META => {
                    self.mode = params.mode;
                    self.range = 0;
                }
                PACKET => {
                    self.mode = PACKET;
                    self.range = range_of(params.range);
                }
                _ => {}
            }
        }
        if let Some(maximum) = maximum {
            self.maximum = maximum;
        }
        if let (Some(flags), Some(mask)) = (flags, mask) {
            self.flags = (self.flags & !mask) | (flags & mask);
        }
    }

    /// Whether no further packet may wait where so many do.
    pub fn is_full(&self, waiting: u32) -> bool
        ensures { result ≡ nat_le self.now.maximum waiting }
    {
        self.maximum <= waiting
    }

    /// Whether a queue that is full, or whose port's mailbox is, lets packets go on.
    pub fn fails_open(&self) -> bool
        ensures { result ≡ let_open self.now.flags }
    {
        QueueFlags::from_bits_retain(self.flags).contains(QueueFlags::FAIL_OPEN)
    }
}

/// The range that a request asks for: 0 and what is above the largest mean the largest.
fn range_of(asked: u32) -> u32
    ensures value { result ≡ range.range_of asked }
    ensures fits { result ≤ longest_range }
{
    if asked == 0 || asked > MAX_RANGE {
        MAX_RANGE
    } else {
        asked
    }
}
