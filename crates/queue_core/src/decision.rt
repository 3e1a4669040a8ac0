//! Verdicts, and what they decide. The numbers are those of uapi linux/netfilter.h.

ghost use Rattle.std.specs.Prelude.{◌≡◌};
ghost use Rattle.queue_core.specs.Decision as decision;
ghost use Rattle.queue_core.specs.Decision.{IsVerdict};

use hook_chain::Decision;

/// The bits of a verdict that say which decision it is. (`NF_VERDICT_MASK`)
pub const VERDICT_MASK: u32 = 0xff;

/// `NF_DROP`
pub const DROP: u32 = 0;

/// `NF_ACCEPT`
pub const ACCEPT: u32 = 1;

/// `NF_STOLEN`, which is refused.
pub const STOLEN: u32 = 2;

/// `NF_QUEUE`
pub const QUEUE: u32 = 3;

/// `NF_REPEAT`
pub const REPEAT: u32 = 4;

/// `NF_STOP`
pub const STOP: u32 = 5;

/// The bit of a `QUEUE` verdict that lets the packet go on where the queue is absent.
/// (`NF_VERDICT_FLAG_QUEUE_BYPASS`)
pub const QUEUE_BYPASS: u32 = 0x8000;

/// The place of the queue's number in a `QUEUE` verdict: its high 16 bits. (`NF_VERDICT_QBITS`)
const QUEUE_NUMBER_PLACE: u32 = 65_536;

/// What a verdict decides that isn't refused.
pub(crate) fn decision_of(verdict: u32) -> Decision
    requires { IsVerdict verdict }
    ensures { result ≡ decision.decision_of verdict }
{
    match verdict % (VERDICT_MASK + 1) {
        DROP => Decision::Drop,
        ACCEPT => Decision::Accept,
        QUEUE => Decision::Queue {
            number: (verdict / QUEUE_NUMBER_PLACE) as u16,
            bypass: verdict / QUEUE_BYPASS % 2 == 1,
        },
        REPEAT => Decision::Repeat,
        _ => Decision::Stop,
    }
}
