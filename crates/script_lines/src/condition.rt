//! When a line of a script answers a notice.

ghost use Rattle.std.specs.Prelude.{◌≡◌, ◌≤◌, ◌%◌, ◌==◌};
ghost use Rattle.script_lines.specs.Conditions.{holds};

use ip_fields::fields;
use nfqa_msgs::Notice;
use std::marker::Model;

/// One condition of a line.
#[derive(Debug, Drop)]
pub enum Condition {
    /// `any`
    Any,
    /// `id N`: the id that the packet waits under.
    Id { id: u32 },
    /// `queue N`: the queue that it waits in.
    Queue { queue: u16 },
    /// `mark VALUE/MASK`: the masked mark is VALUE, which isn't masked.
    Mark { value: u32, mask: u32 },
    /// `proto N`: the protocol of the IP packet that the notice's payload begins with.
    Protocol { protocol: u8 },
    /// `every N`: the port's count of notices, this one included, is a multiple.
    Every { period: Period },
    /// `longer N`: the notice's length is above this.
    Longer { than: u32 },
    /// `priority N`: the notice's priority, from its `NFQA_PRIORITY`, or 0 where it has none.
    Priority { priority: u32 },
}

impl Condition {
    /// Whether it holds of this notice, up to which the port has received so many. Takes no memory.
    pub fn holds(&self, received: u32, notice: &Notice) -> bool
        ensures { result ≡ holds received notice.now self.now }
    {
        match self {
            Condition::Any => true,
            Condition::Id { id } => notice.id == *id,
            Condition::Queue { queue } => notice.queue == *queue,
            Condition::Mark { value, mask } => notice.mark & *mask == *value,
            Condition::Protocol { protocol } => fields(notice.payload.as_slice()).map_or(
                false,
                |fields| fields.protocol == *protocol,
            ),
            Condition::Every { period } => period.divides(received),
            Condition::Longer { than } => notice.length > *than,
            Condition::Priority { priority } => notice.priority == *priority,
        }
    }
}

/// The N of `every N`: at least 1.
#[derive(Debug, Drop)]
pub struct Period {
    number: u32,
}

impl Model for Period {
    ghost use Rattle.std.specs.Prelude.{◌≤◌, ℕ};

    ghost Value = { ℕ };

    ghost view = { λ p. p.number };

    ghost invariant = { λ p. 1 ≤ p.number };
}

impl Period {
    /// The period of this number.
    pub fn new(number: u32) -> Period
        requires { 1 ≤ number }
        ensures { result ≡ number }
    {
        Period { number }
    }

    /// Whether the count is a multiple.
    fn divides(&self, count: u32) -> bool
        ensures { result ≡ (count % self.now == 0) }
    {
        count % self.number == 0
    }
}
